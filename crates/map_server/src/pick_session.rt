//! A session of the language `pick`.

ghost use Rattle.std.specs.Prelude.{◌≡◌, [], map, IfOk, OnErr, OnOk};
ghost use Rattle.json_terms.specs.Json.{object, members_of};
ghost use Rattle.json_terms.specs.Seen.{json};
ghost use Rattle.view_ports.specs.Commands.{command};
ghost use Rattle.view_ports.specs.Functions.{rows_term, lists_term};
ghost use Rattle.view_ports.specs.Honest.{IsTextOf, rows_of};
ghost use Rattle.map_server.specs.Pick.{pick};
ghost use Rattle.map_server.specs.PickFunctions.{pick_map};
ghost use Rattle.map_server.specs.Replies.{answer_of, sources_then};

use crate::change::{Change, Reply};
use crate::map_function::MapFunction;
use crate::replies::{add, forget, reduce, rereduce};
use json_terms::{Members, NoMemory, Term, Terms};
use std::alloc::Global;
use std::marker::Model;
use view_ports::{Command, InProcess, ServerSession, answer_text, bad_line_text, read_command};

/// Query servers of the language `pick`.
pub type PickServers = InProcess<PickSession>;

/// A session of the language `pick`, seen by contracts as the list of the sources that were added and not forgotten.
#[derive(Drop)]
pub struct PickSession {
    functions: Vec<MapFunction>,
}

impl Model for PickSession {
    ghost use Rattle.std.specs.Prelude.{List, ℕ, map};
    ghost use Rattle.std.specs.Coded.{coded_list, coded_ℕ};

    ghost Value = { List (List ℕ) };

    ghost coded = { coded_list (coded_list coded_ℕ) };

    ghost view = { λ s. map (λ f. f.source) s.functions.items };
}

impl PickSession {
    ghost use Rattle.map_server.specs.Changes.{changed};

    /// A session without functions.
    pub fn new(alloc: Global) -> PickSession
        ensures { result ≡ [] }
    {
        PickSession {
            functions: Vec::new(alloc),
        }
    }

    /// What a line is answered, and what becomes of the functions then. Nothing has changed yet. The one error is want of
    /// memory.
    pub fn reply(&self, alloc: Global, line: &[u8]) -> Result<Reply, NoMemory>
        ensures text { IfOk result (λ reply.
            IsTextOf (answer_of self.now (command line.now)) reply.text.items) }
        ensures change { IfOk result (λ reply.
            changed self.now reply.change ≡ sources_then self.now (command line.now)) }
    {
        match read_command(alloc, line)? {
            Command::Reset => forget(alloc),
            Command::AddFun { source } => add(alloc, source),
            Command::MapDoc { document } => Ok(Reply::kept(self.map_document(alloc, document)?)),
            Command::Reduce { source, rows } => Ok(Reply::kept(reduce(alloc, source, rows)?)),
            Command::Rereduce { source, values } => {
                Ok(Reply::kept(rereduce(alloc, source, values)?))
            }
            Command::Other => Ok(Reply::kept(bad_line_text(alloc)?)),
        }
    }

    /// Makes the change. Where memory runs out the functions are as they were.
    pub fn change(&mut self, change: Change) -> Result<(), NoMemory>
        ensures ok { OnOk result (self.new ≡ changed self.old change) }
        ensures err { OnErr result (self.new ≡ self.old) }
    {
        match change {
            Change::Nothing => {}
            Change::Clear => self.functions.clear(),
            Change::Add(function) => self.functions.push(function)?,
        }
        Ok(())
    }

    /// The rows that each function gives of the document.
    fn map_document(&self, alloc: Global, document: Members) -> Result<Vec<u8>, NoMemory>
        ensures { IfOk result (λ text.
            IsTextOf (lists_term (rows_of pick self.now document)) text.items) }
    {
        let lists = rows_of_each(alloc, self.functions.as_slice(), &Term::Object(document))?;
        answer_text(alloc, &Term::Array(lists))
    }
}

/// The rows of each function.
fn rows_of_each(
    alloc: Global,
    functions: &[MapFunction],
    document: &Term,
) -> Result<Terms, NoMemory>
    ensures { IfOk result (λ lists. (members : _) → json document.now ≡ object (members_of members)
        → lists ≡ map (λ f. rows_term (pick_map f.source members)) functions.now) }
{
    let mut lists = Terms::with_capacity(alloc, functions.len())?;
    for function in functions {
        lists.push(function.rows(alloc, document)?)?;
    }
    Ok(lists)
}

impl ServerSession for PickSession {
    ghost functions = { pick };

    ghost sources = { λ s. s };

    fn new(alloc: Global) -> Result<PickSession, NoMemory> {
        Ok(PickSession::new(alloc))
    }

    fn answer(&mut self, alloc: Global, line: &[u8]) -> Result<Vec<u8>, NoMemory> {
        let Reply { text, change } = self.reply(alloc, line)?;
        self.change(change)?;
        Ok(text)
    }
}
