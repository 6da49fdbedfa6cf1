//! What a query server's line means.

ghost use Rattle.std.specs.Prelude.{◌≡◌, ◌≢◌, IfOk, IfErr, None, Ok, Some, option_map};
ghost use Rattle.json_terms.specs.Seen.{json};
ghost use Rattle.view_ports.specs.Calls.{is_log_term, is_yes_term};
ghost use Rattle.view_ports.specs.Honest.{is_complaint as complains, is_complaint_term};
ghost use Rattle.query_protocol.specs.Replies as spec;

use crate::fault::ReplyFault;
use crate::parts::two_of;
use crate::results::result_in;
use crate::rows::lists_in;
use json_terms::{NoMemory, RowLists, Term, TermFault, read_term};
use std::alloc::Global;
use view_ports::LINE_LIMIT;

/// What a line is a reply to.
#[derive(Clone, Copy, Debug, PartialEq, Eq)]
pub enum Kind {
    /// `reset`.
    Reset,
    /// `add_fun`.
    Source,
    /// `map_doc`, with so many functions added.
    Rows(u32),
    /// `reduce` or `rereduce`.
    Value,
}

/// What a line means.
#[derive(Drop)]
pub enum Reply {
    /// A log line, which is no answer.
    Log,
    /// `true`.
    Yes,
    /// The rows of each function.
    Rows(RowLists),
    /// The result of a reduction.
    Value(Term),
    /// The complaint that the source doesn't compile.
    Compile,
}

/// What the line means, in reply to a command of this kind:
///
/// - `Log` for `["log",TEXT]`;
/// - `Compile` for `["error","compilation_error",TEXT]`, or the same with `"fatal"`, where the kind has a source;
/// - the proper answer of the kind, on a line of 134,217,728 bytes at most. Each key, value and result has a text of
///   1,048,576 bytes at most and depth 96 at most, and there are no more rows than the line may have bytes.
///
/// `BadReply` comes exactly for every other line. Otherwise the one error is want of memory.
pub fn read_reply(alloc: Global, kind: Kind, line: &[u8]) -> Result<Reply, ReplyFault>
    ensures ok { IfOk result (λ reply. spec.reply_of kind line.now ≡ Some reply) }
    ensures few { IfOk result spec.HasFewRows }
    ensures err { IfErr result (λ e. e ≢ ReplyFault.NoMemory → spec.reply_of kind line.now ≡ None) }
{
    match read_term(alloc, line) {
        Ok(term) => or_bad(reply_in(alloc, kind, line.len() <= LINE_LIMIT, &term)),
        Err(fault) => Err(unread(fault)),
    }
}

/// What is no term is no proper reply.
fn unread(fault: TermFault) -> ReplyFault
    ensures { result ≢ ReplyFault.NoMemory → fault ≢ TermFault.NoMemory }
{
    match fault {
        TermFault::NotJson | TermFault::NotWhole | TermFault::TooDeep => ReplyFault::BadReply,
        TermFault::NoMemory => ReplyFault::NoMemory,
    }
}

fn or_bad(reply: Result<Option<Reply>, NoMemory>) -> Result<Reply, ReplyFault>
    ensures ok { IfOk result (λ r. reply ≡ Ok (Some r)) }
    ensures err { IfErr result (λ e. e ≢ ReplyFault.NoMemory → reply ≡ Ok None) }
{
    match reply {
        Ok(Some(reply)) => Ok(reply),
        Ok(None) => Err(ReplyFault::BadReply),
        Err(NoMemory) => Err(ReplyFault::NoMemory),
    }
}

fn reply_in(alloc: Global, kind: Kind, short: bool, term: &Term) -> Result<Option<Reply>, NoMemory>
    ensures { IfOk result (λ reply. reply ≡ spec.reply_in kind short (json term.now)) }
{
    if is_log(term) {
        return Ok(Some(Reply::Log));
    }
    if has_source(kind) && is_complaint(term) {
        return Ok(Some(Reply::Compile));
    }
    if !short {
        return Ok(None);
    }
    answer_in(alloc, kind, term)
}

fn answer_in(alloc: Global, kind: Kind, term: &Term) -> Result<Option<Reply>, NoMemory>
    ensures { IfOk result (λ reply. reply ≡ spec.answer_in kind (json term.now)) }
{
    match kind {
        Kind::Reset | Kind::Source => Ok(yes_if(is_yes(term))),
        Kind::Rows(count) => match lists_in(alloc, count, term)? {
            Some(lists) => Ok(Some(Reply::Rows(lists))),
            None => Ok(None),
        },
        Kind::Value => match result_in(alloc, term)? {
            Some(result) => Ok(Some(Reply::Value(result))),
            None => Ok(None),
        },
    }
}

fn yes_if(yes: bool) -> Option<Reply>
    ensures { result ≡ spec.yes_if yes }
{
    if yes { Some(Reply::Yes) } else { None }
}

/// Whether a command of this kind may be answered with a complaint about its source.
fn has_source(kind: Kind) -> bool
    ensures { result ≡ spec.has_source kind }
{
    match kind {
        Kind::Reset | Kind::Rows(_) => false,
        Kind::Source | Kind::Value => true,
    }
}

/// `true`.
pub fn is_yes(term: &Term) -> bool
    ensures { result ≡ is_yes_term (json term.now) }
{
    matches!(term, Term::True)
}

/// `["log",TEXT]`.
fn is_log(term: &Term) -> bool
    ensures { result ≡ is_log_term (json term.now) }
{
    let Some((name, message)) = two_of(term) else {
        return false;
    };
    match (name.as_text(), message.as_text()) {
        (Some(name), Some(_)) => name == "log",
        _ => false,
    }
}

/// `["error","compilation_error",TEXT]`, or the same with `"fatal"`.
fn is_complaint(term: &Term) -> bool
    ensures { result ≡ is_complaint_term (json term.now) }
{
    let Some(terms) = term.as_array() else {
        return false;
    };
    if terms.len() != 3 {
        return false;
    }
    is_compilation_error(terms[0].as_text(), terms[1].as_text(), terms[2].as_text())
}

fn is_compilation_error(how: Option<&str>, name: Option<&str>, reason: Option<&str>) -> bool
    ensures { result ≡ complains (option_map (λ t. t.now) how.entry)
        (option_map (λ t. t.now) name.entry) (option_map (λ t. t.now) reason.entry) }
{
    match (how, name, reason) {
        (Some(how), Some(name), Some(_)) => (how == "error" || how == "fatal")
            && name == "compilation_error",
        _ => false,
    }
}
