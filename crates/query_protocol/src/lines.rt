//! The lines that begin a query server's session.

ghost use Rattle.std.specs.Prelude.{◌≡◌, ◌++◌, IfOk, OnOk, OnErr};
ghost use Rattle.json_terms.specs.Json.{string};
ghost use Rattle.json_terms.specs.Seen.{json};
ghost use Rattle.view_ports.specs.Commands.{command_term, list2};
ghost use Rattle.query_protocol.specs.CommandLines.{command_line, IsWhole, ReadsBack};

use crate::sent::append;
use json_terms::{Chars, Members, NoMemory, Term, Terms};
use std::alloc::Global;
use view_ports::Command;

/// Appends `["reset",{"reduce_limit":false}]`. The one error is want of memory, and `out` is then as it was.
pub fn reset_line(alloc: Global, out: &mut Vec<u8>) -> Result<(), NoMemory>
    ensures ok { OnOk result (out.new.items ≡ out.old.items ++ command_line Command.Reset) }
    ensures err { OnErr result (out.new.items ≡ out.old.items) }
    ensures whole { OnOk result (IsWhole (command_line Command.Reset)) }
    ensures reads { OnOk result (ReadsBack Command.Reset) }
{
    let term = reset_term(alloc)?;
    append(alloc, &term, out)
}

fn reset_term(alloc: Global) -> Result<Term, NoMemory>
    ensures { IfOk result (λ t. json t ≡ command_term Command.Reset) }
{
    let mut options = Members::new(alloc);
    options.push(Chars::from_text(alloc, "reduce_limit")?, Term::False)?;
    pair(alloc, "reset", Term::Object(options))
}

/// Appends `["add_fun",SOURCE]`. The one error is want of memory, and `out` is then as it was.
pub fn add_fun_line(alloc: Global, source: &str, out: &mut Vec<u8>) -> Result<(), NoMemory>
    ensures ok { OnOk result (out.new.items ≡ out.old.items ++ command_line
        (Command.AddFun source.now)) }
    ensures err { OnErr result (out.new.items ≡ out.old.items) }
    ensures whole { OnOk result (IsWhole (command_line (Command.AddFun source.now))) }
    ensures reads { OnOk result (ReadsBack (Command.AddFun source.now)) }
{
    let term = add_fun_term(alloc, source)?;
    append(alloc, &term, out)
}

fn add_fun_term(alloc: Global, source: &str) -> Result<Term, NoMemory>
    ensures { IfOk result (λ t. json t ≡ command_term (Command.AddFun source.now)) }
{
    let source = Chars::from_text(alloc, source)?;
    pair(alloc, "add_fun", Term::Text(source))
}

/// An array of a name and one more term.
fn pair(alloc: Global, name: &str, term: Term) -> Result<Term, NoMemory>
    ensures { IfOk result (λ t. json t ≡ list2 (string name.now) (json term)) }
{
    let mut terms = Terms::with_capacity(alloc, 2)?;
    terms.push(Term::Text(Chars::from_text(alloc, name)?))?;
    terms.push(term)?;
    Ok(Term::Array(terms))
}
