//! Refusals, and the reply lines that name them.

ghost use Rattle.std.specs.Prelude.{◌≡◌, ◌++◌, IfOk, OnOk, string_bytes};
ghost use Rattle.view_engine.specs.DesignReasons.{design_reason as reason_of};
ghost use Rattle.view_engine.specs.QueryReasons.{query_reason as query_reason_of};
ghost use Rattle.view_model.specs.Written.{Adds, KeepsBefore};

use design_docs::DesignFault;
use json_terms::{Chars, NoMemory, TermFault};
use query_args::QueryFault;
use std::alloc::Global;
use view_model::Reply;

/// Why a request line was not done, in the order in which the causes are looked for.
#[derive(Drop, Debug)]
pub enum Refusal {
    /// More than 2,097,152 bytes stand before the line's end.
    LineTooLong,
    /// The line is no JSON text (RFC 8259).
    NotJson,
    /// A number of the line is no whole number of 64 bits.
    NotWhole,
    /// Objects and arrays of the line nest more than 100 deep.
    TooDeep,
    /// The line is no request: other members, or values of another kind or range.
    UnknownRequest,
    /// The line is a request of a form, or with a part, that isn't built yet.
    NotBuiltYet,
    /// The `_id` of the document is no text, is empty, or begins with an underscore and is no design document's.
    BadId,
    /// The member with this name is one that no document may have, and the first such.
    BadMember(Chars),
    /// The revision that is given has not the form of one.
    BadRev,
    /// The document's text has more than 524,288 bytes, its `_rev` and `_deleted` left out.
    DocumentTooLarge,
    /// Objects and arrays of the document nest more than 64 deep.
    DocumentTooDeep,
    /// The design document has no design, for this fault.
    InvalidDesign(DesignFault),
    /// The document was never written.
    Missing,
    /// The document is deleted.
    Deleted,
    /// The design document has no view of this name.
    MissingNamedView,
    /// The present revision of the document was not given.
    Conflict,
    /// The parameters are no query of the view, for this fault.
    BadQuery(QueryFault),
    /// No query server is known for this language.
    UnknownLanguage(Chars),
    /// A source of the design document with this id doesn't compile.
    CompilationError(Chars),
    /// Two attempts on one prompt to a query server failed.
    ServerFault,
    /// A query server sent this line, as shown, which is no proper reply.
    ServerReply(Chars),
    /// Memory ran out.
    NoMemory,
}

impl From<TermFault> for Refusal {
    ghost use Rattle.std.specs.Prelude.{◌≡◌};
    ghost use Rattle.view_engine.specs.Refusals.{unread};

    ghost from_gives = { λ fault refusal. refusal ≡ unread fault };

    fn from(fault: TermFault) -> Refusal {
        match fault {
            TermFault::NotJson => Refusal::NotJson,
            TermFault::NotWhole => Refusal::NotWhole,
            TermFault::TooDeep => Refusal::TooDeep,
            TermFault::NoMemory => Refusal::NoMemory,
        }
    }
}

impl Refusal {
    ghost use Rattle.view_engine.specs.Refusals.{error_name, error_reason, refusal_text};

    /// The name of the error.
    pub fn name(&self) -> &'static str
        ensures { result.now ≡ error_name self.now }
    {
        match self {
            Refusal::LineTooLong => "line_too_long",
            Refusal::NotJson
            | Refusal::NotWhole
            | Refusal::TooDeep
            | Refusal::UnknownRequest
            | Refusal::NotBuiltYet => "bad_request",
            Refusal::BadId => "bad_id",
            Refusal::BadMember(_name) => "bad_member",
            Refusal::BadRev => "bad_rev",
            Refusal::DocumentTooLarge => "too_large",
            Refusal::DocumentTooDeep => "too_deep",
            Refusal::InvalidDesign(_fault) => "invalid_design_doc",
            Refusal::Missing | Refusal::Deleted | Refusal::MissingNamedView => "not_found",
            Refusal::Conflict => "conflict",
            Refusal::BadQuery(_fault) => "query_parse_error",
            Refusal::UnknownLanguage(_language) => "unknown_language",
            Refusal::CompilationError(_id) => "compilation_error",
            Refusal::ServerFault => "server_fault",
            Refusal::ServerReply(_line) => "server_reply",
            Refusal::NoMemory => "no_memory",
        }
    }

    /// Writes the reason, as a JSON string.
    fn write_reason(&self, alloc: Global, reply: &mut Reply) -> Result<(), NoMemory>
        ensures ok { OnOk result (Adds reply.old reply.new (error_reason self.now)) }
        ensures before { KeepsBefore reply.old reply.new }
    {
        match self {
            Refusal::LineTooLong => reply.put(b"\"line passes 2097152 bytes\""),
            Refusal::NotJson => reply.put(b"\"line is not JSON\""),
            Refusal::NotWhole => reply.put(b"\"number is not whole\""),
            Refusal::TooDeep => reply.put(b"\"line is too deep\""),
            Refusal::UnknownRequest => reply.put(b"\"unknown request\""),
            Refusal::NotBuiltYet => reply.put(b"\"not built yet\""),
            Refusal::BadId => reply.put(b"\"document id is not allowed\""),
            Refusal::BadRev => reply.put(b"\"revision is not well formed\""),
            Refusal::DocumentTooLarge => { reply.put(b"\"document passes 524288 bytes\"") }
            Refusal::DocumentTooDeep => reply.put(b"\"document passes depth 64\""),
            Refusal::Missing => reply.put(b"\"missing\""),
            Refusal::Deleted => reply.put(b"\"deleted\""),
            Refusal::MissingNamedView => reply.put(b"\"missing_named_view\""),
            Refusal::Conflict => reply.put(b"\"Document update conflict.\""),
            Refusal::ServerFault => reply.put(b"\"query server failed twice\""),
            Refusal::NoMemory => reply.put(b"\"out of memory\""),
            Refusal::InvalidDesign(fault) => {
                let reason = design_reason(alloc, fault)?;
                reply.put_string(alloc, reason.as_str())
            }
            Refusal::BadQuery(fault) => {
                let reason = query_reason(alloc, fault)?;
                reply.put_string(alloc, reason.as_str())
            }
            Refusal::BadMember(text)
            | Refusal::UnknownLanguage(text)
            | Refusal::CompilationError(text)
            | Refusal::ServerReply(text) => reply.put_string(alloc, text.as_str()),
        }
    }

    /// Writes the reply.
    pub(crate) fn write(&self, alloc: Global, reply: &mut Reply) -> Result<(), NoMemory>
        ensures ok { OnOk result (Adds reply.old reply.new (refusal_text self.now)) }
        ensures before { KeepsBefore reply.old reply.new }
    {
        reply.put(b"{\"error\":\"")?;
        reply.put(self.name().as_bytes())?;
        reply.put(b"\",\"reason\":")?;
        self.write_reason(alloc, reply)?;
        reply.put(b"}")?;
        Ok(())
    }
}

/// What of a design is at fault, and the name that the fault holds.
fn design_reason(alloc: Global, fault: &DesignFault) -> Result<String, NoMemory>
    ensures { IfOk result (λ text. string_bytes text ≡ reason_of fault.now) }
{
    match fault {
        DesignFault::BadViews => named(alloc, "views", ""),
        DesignFault::BadView(name) => named(alloc, "view ", name.as_str()),
        DesignFault::BadOption(name) => named(alloc, "option ", name.as_str()),
        DesignFault::UnknownBuiltin(name) => named(alloc, "builtin ", name.as_str()),
        DesignFault::BadLanguage => named(alloc, "language", ""),
        DesignFault::NoMemory => named(alloc, "out of memory", ""),
    }
}

/// What of a query is at fault, and the name that the fault holds.
fn query_reason(alloc: Global, fault: &QueryFault) -> Result<String, NoMemory>
    ensures { IfOk result (λ text. string_bytes text ≡ query_reason_of fault.now) }
{
    match fault {
        QueryFault::UnknownName(name) => named(alloc, "unknown parameter ", name.as_str()),
        QueryFault::BadValue(name) => named(alloc, "bad value of ", name.as_str()),
        QueryFault::ReduceOfMapOnly => named(alloc, "reduce of a map-only view", ""),
        QueryFault::GroupUnreduced => named(alloc, "grouping without reduce", ""),
        QueryFault::KeysNeedGroup => named(alloc, "keys need group=true", ""),
        QueryFault::KeyAndKeys => named(alloc, "keys, key and range together", ""),
        QueryFault::CursorReduces => named(alloc, "cursor of a reduced query", ""),
        QueryFault::NoMemory => named(alloc, "out of memory", ""),
    }
}

/// What is at fault, and the name behind it.
fn named(alloc: Global, part: &str, name: &str) -> Result<String, NoMemory>
    ensures { IfOk result (λ text. string_bytes text ≡ part.now ++ name.now) }
{
    let mut text = String::from_str(alloc, part)?;
    text.push_str(name)?;
    Ok(text)
}
