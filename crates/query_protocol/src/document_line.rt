//! The line that asks for the rows of a document.

ghost use Rattle.std.specs.Prelude.{◌≡◌, ◌++◌, IfOk, OnOk, OnErr};
ghost use Rattle.json_terms.specs.Json.{string};
ghost use Rattle.json_terms.specs.Seen.{json};
ghost use Rattle.json_terms.specs.Text.{text_of};
ghost use Rattle.view_ports.specs.Commands.{list2};
ghost use Rattle.query_protocol.specs.CommandLines.{command_line, document_of, IsDocument, IsWhole, ReadsBack};

use json_terms::{NoMemory, Term, write_term, write_text};
use std::alloc::Global;
use view_ports::Command;

/// Appends `["map_doc",DOC]` for an object. The one error is want of memory, and `out` is then as it was.
pub fn map_line(alloc: Global, doc: &Term, out: &mut Vec<u8>) -> Result<(), NoMemory>
    requires { IsDocument (json doc.now) }
    ensures ok { OnOk result (out.new.items ≡ out.old.items ++ command_line
        (Command.MapDoc (document_of (json doc.now)))) }
    ensures err { OnErr result (out.new.items ≡ out.old.items) }
    ensures whole { OnOk result (IsWhole (command_line
        (Command.MapDoc (document_of (json doc.now))))) }
    ensures reads { OnOk result (ReadsBack (Command.MapDoc (document_of (json doc.now)))) }
{
    doc.validity();
    let line = pair_text(alloc, "map_doc", doc)?;
    out.extend_from_slice(line.as_slice())?;
    Ok(())
}

/// The text of an array of a name and one more term.
fn pair_text(alloc: Global, name: &str, term: &Term) -> Result<Vec<u8>, NoMemory>
    ensures { IfOk result (λ line. line.items ≡ text_of (list2 (string name.now) (json term.now))) }
{
    let mut line = Vec::new(alloc);
    line.push(b'[')?;
    write_text(alloc, name, &mut line)?;
    line.push(b',')?;
    write_term(alloc, term, &mut line)?;
    line.push(b']')?;
    Ok(line)
}
