//! The query server of the language `field`.

ghost use Rattle.std.specs.Prelude.{◌≡◌, ◌≤◌, ◌++◌, ◌∷◌, [], List, map, IfOk, OnErr, OnOk, option_map, if◌then◌else◌};
ghost use Rattle.json_terms.specs.Json.{depth, is_true, object, members_of};
ghost use Rattle.json_terms.specs.Find.{member_of};
ghost use Rattle.json_terms.specs.Seen.{json};
ghost use Rattle.view_ports.specs.Calls.{is_log, is_yes, sources_after};
ghost use Rattle.view_ports.specs.Commands.{command, document_depth};
ghost use Rattle.view_ports.specs.Field.{field, is_member_name};
ghost use Rattle.view_ports.specs.FieldRows.{emitted};
ghost use Rattle.view_ports.specs.Functions.{Functions, rows_term, lists_term};
ghost use Rattle.view_ports.specs.Honest.{Answers, IsAnswerable, IsTextOf, Spells, no_compilation, rows_of};

use crate::answers::{answer_text, bad_line_text, compilation_error_text, true_text};
use crate::command::{Command, read_command};
use crate::in_process::InProcess;
use crate::server_session::ServerSession;
use json_terms::{Chars, Members, NoMemory, Term, Terms, copy_term, member};
use std::alloc::Global;

/// Query servers of the language `field`: a map function is the name of a member, and emits the member's value with the
/// value `null`. No reduce function compiles.
pub type FieldServers = InProcess<FieldSession>;

/// A session of the language `field`.
#[derive(Drop)]
pub struct FieldSession {
    sources: Vec<Chars>,
}

impl ServerSession for FieldSession {
    ghost functions = { field };

    ghost sources = { λ s. s.sources.items };

    fn new(alloc: Global) -> Result<FieldSession, NoMemory> {
        Ok(FieldSession {
            sources: Vec::new(alloc),
        })
    }

    fn answer(&mut self, alloc: Global, line: &[u8]) -> Result<Vec<u8>, NoMemory> {
        match read_command(alloc, line)? {
            Command::Reset => self.reset(alloc),
            Command::AddFun { source } => self.add(alloc, source),
            Command::MapDoc { document } => map_document(alloc, self.sources.as_slice(), document),
            Command::Reduce {
                source: _source,
                rows: _rows,
            } => compilation_error_text(alloc),
            Command::Rereduce {
                source: _source,
                values: _values,
            } => compilation_error_text(alloc),
            Command::Other => bad_line_text(alloc),
        }
    }
}

impl FieldSession {
    /// Forgets the functions.
    fn reset(&mut self, alloc: Global) -> Result<Vec<u8>, NoMemory>
        ensures text { IfOk result (λ text. Spells text.items is_true) }
        ensures ok { OnOk result (self.new.sources.items ≡ []) }
        ensures err { OnErr result (self.new.sources.items ≡ self.old.sources.items) }
    {
        let text = true_text(alloc)?;
        self.sources.clear();
        Ok(text)
    }

    /// Adds a function, where its source is a name.
    fn add(&mut self, alloc: Global, source: Chars) -> Result<Vec<u8>, NoMemory>
        ensures text { IfOk result (λ text. Spells text.items
            (if is_member_name source then is_true else no_compilation)) }
        ensures ok { OnOk result (self.new.sources.items ≡ (if is_member_name source then self.old.sources.items ++ source ∷ [] else self.old.sources.items)) }
        ensures err { OnErr result (self.new.sources.items ≡ self.old.sources.items) }
    {
        if source.as_str().is_empty() {
            return compilation_error_text(alloc);
        }
        let text = true_text(alloc)?;
        self.sources.push(source)?;
        Ok(text)
    }
}

/// What each function emits for the document.
fn map_document(alloc: Global, sources: &[Chars], document: Members) -> Result<Vec<u8>, NoMemory>
    requires { depth (object (members_of document)) ≤ document_depth }
    ensures { IfOk result (λ text.
        IsTextOf (lists_term (rows_of field sources.now document)) text.items) }
{
    let document = Term::Object(document);
    let lists = rows_of_each(alloc, sources, &document)?;
    answer_text(alloc, &Term::Array(lists))
}

/// The rows of each function.
fn rows_of_each(alloc: Global, sources: &[Chars], document: &Term) -> Result<Terms, NoMemory>
    ensures { IfOk result (λ lists. lists ≡ map (λ source.
        rows_term (emitted (member_of source (json document.now)))) sources.now) }
{
    let mut lists = Terms::with_capacity(alloc, sources.len())?;
    for source in sources {
        lists.push(emitted_rows(alloc, member(document, source.as_str()))?)?;
    }
    Ok(lists)
}

/// The rows of one function.
fn emitted_rows(alloc: Global, found: Option<&Term>) -> Result<Term, NoMemory>
    ensures { IfOk result (λ rows. json rows ≡ rows_term
        (emitted (option_map (λ t. json t.now) found.entry))) }
{
    let mut rows = Terms::new(alloc);
    if let Some(key) = found {
        let mut row = Terms::with_capacity(alloc, 2)?;
        row.push(copy_term(alloc, key)?)?;
        row.push(Term::Null)?;
        rows.push(Term::Array(row))?;
    }
    Ok(Term::Array(rows))
}
