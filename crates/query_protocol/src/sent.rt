//! Terms as lines.

ghost use Rattle.std.specs.Prelude.{◌≡◌, ◌≤◌, ◌++◌, OnOk, OnErr};
ghost use Rattle.json_terms.specs.Json.{depth};
ghost use Rattle.json_terms.specs.Reading.{depth_limit};
ghost use Rattle.json_terms.specs.Seen.{json};
ghost use Rattle.view_ports.specs.Commands.{command_term};
ghost use Rattle.query_protocol.specs.CommandLines.{command_line, IsWhole, ReadsBack};

use json_terms::{NoMemory, Term, write_term};
use std::alloc::Global;
use view_ports::Command;

/// Appends the line of the command that a term is.
pub fn append(alloc: Global, term: &Term, out: &mut Vec<u8>) -> Result<(), NoMemory>
    ensures ok { (c : Command) → json term.now ≡ command_term c
        → OnOk result (out.new.items ≡ out.old.items ++ command_line c) }
    ensures err { OnErr result (out.new.items ≡ out.old.items) }
    ensures whole { (c : Command) → json term.now ≡ command_term c → IsWhole (command_line c) }
    ensures reads { (c : Command) → json term.now ≡ command_term c
        → depth (command_term c) ≤ depth_limit → ReadsBack c }
{
    term.validity();
    write_term(alloc, term, out)
}
