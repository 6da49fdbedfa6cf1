//! The lines that ask for reductions.

ghost use Rattle.std.specs.Prelude.{◌≡◌, ◌≤◌, ◌++◌, IfOk, OnOk, OnErr, map};
ghost use Rattle.json_terms.specs.Json.{array, depth, string, items_of};
ghost use Rattle.json_terms.specs.Reading.{depth_limit};
ghost use Rattle.json_terms.specs.Seen.{json};
ghost use Rattle.view_ports.specs.Commands.{command_term, list1, list2, list3, reduce_row_term};
ghost use Rattle.view_ports.specs.ReduceRow.{reduce_row};
ghost use Rattle.query_protocol.specs.CommandLines.{command_line, IsWhole, ReadsBack};

use crate::sent::append;
use json_terms::{Chars, NoMemory, Row, Term, Terms, copy_term};
use std::alloc::Global;
use view_ports::Command;

/// Appends `["reduce",[SOURCE],[[[KEY,ID],VALUE],...]]`. The line nests 100 deep at most; a server takes
/// it where there is a row. The one error is want of memory, and `out` is then as it was.
pub fn reduce_line(
    alloc: Global,
    source: &str,
    rows: &[Row],
    out: &mut Vec<u8>,
) -> Result<(), NoMemory>
    requires { depth (command_term (Command.Reduce source.now
        (map reduce_row rows.now))) ≤ depth_limit }
    ensures ok { OnOk result (out.new.items ≡ out.old.items ++ command_line
        (Command.Reduce source.now (map reduce_row rows.now))) }
    ensures err { OnErr result (out.new.items ≡ out.old.items) }
    ensures whole { OnOk result (IsWhole (command_line
        (Command.Reduce source.now (map reduce_row rows.now)))) }
    ensures reads { OnOk result (ReadsBack (Command.Reduce source.now (map reduce_row rows.now))) }
{
    let term = reduce_term(alloc, source, rows)?;
    append(alloc, &term, out)
}

fn reduce_term(alloc: Global, source: &str, rows: &[Row]) -> Result<Term, NoMemory>
    ensures { IfOk result (λ t. json t ≡ command_term (Command.Reduce source.now
        (map reduce_row rows.now))) }
{
    let rows = rows_term(alloc, rows)?;
    with_source(alloc, "reduce", source, rows)
}

/// Appends `["rereduce",[SOURCE],[VALUE,...]]`. The line nests 100 deep at most; a server takes it where there is a
/// value. The one error is want of memory, and `out` is then as it was.
pub fn rereduce_line(
    alloc: Global,
    source: &str,
    values: &[Term],
    out: &mut Vec<u8>,
) -> Result<(), NoMemory>
    requires { depth (command_term (Command.Rereduce source.now
        (map json values.now))) ≤ depth_limit }
    ensures ok { OnOk result (out.new.items ≡ out.old.items ++ command_line
        (Command.Rereduce source.now (map json values.now))) }
    ensures err { OnErr result (out.new.items ≡ out.old.items) }
    ensures whole { OnOk result (IsWhole (command_line
        (Command.Rereduce source.now (map json values.now)))) }
    ensures reads { OnOk result (ReadsBack (Command.Rereduce source.now (map json values.now))) }
{
    let term = rereduce_term(alloc, source, values)?;
    append(alloc, &term, out)
}

fn rereduce_term(alloc: Global, source: &str, values: &[Term]) -> Result<Term, NoMemory>
    ensures { IfOk result (λ t. json t ≡ command_term (Command.Rereduce source.now
        (map json values.now))) }
{
    let values = values_term(alloc, values)?;
    with_source(alloc, "rereduce", source, values)
}

/// An array of a name, a source in an array, and one more term.
fn with_source(alloc: Global, name: &str, source: &str, term: Term) -> Result<Term, NoMemory>
    ensures { IfOk result (λ t. json t ≡ list3 (string name.now) (list1 (string source.now))
        (json term)) }
{
    let mut sources = Terms::with_capacity(alloc, 1)?;
    sources.push(Term::Text(Chars::from_text(alloc, source)?))?;
    let mut terms = Terms::with_capacity(alloc, 3)?;
    terms.push(Term::Text(Chars::from_text(alloc, name)?))?;
    terms.push(Term::Array(sources))?;
    terms.push(term)?;
    Ok(Term::Array(terms))
}

fn values_term(alloc: Global, values: &[Term]) -> Result<Term, NoMemory>
    ensures { IfOk result (λ t. json t ≡ array (items_of (map json values.now))) }
{
    let mut terms = Terms::with_capacity(alloc, values.len())?;
    for value in values {
        terms.push(copy_term(alloc, value)?)?;
    }
    Ok(Term::Array(terms))
}

fn rows_term(alloc: Global, rows: &[Row]) -> Result<Term, NoMemory>
    ensures { IfOk result (λ t. json t ≡ array (items_of
        (map reduce_row_term (map reduce_row rows.now)))) }
{
    let mut terms = Terms::with_capacity(alloc, rows.len())?;
    for row in rows {
        terms.push(row_term(alloc, row)?)?;
    }
    Ok(Term::Array(terms))
}

/// `[[KEY,ID],VALUE]`.
fn row_term(alloc: Global, row: &Row) -> Result<Term, NoMemory>
    ensures { IfOk result (λ t. json t ≡ reduce_row_term (reduce_row row.now)) }
{
    let id = Term::Text(row.id.copy(alloc)?);
    let key = pair(alloc, copy_term(alloc, &row.key)?, id)?;
    pair(alloc, key, copy_term(alloc, &row.value)?)
}

fn pair(alloc: Global, first: Term, second: Term) -> Result<Term, NoMemory>
    ensures { IfOk result (λ t. json t ≡ list2 (json first) (json second)) }
{
    let mut terms = Terms::with_capacity(alloc, 2)?;
    terms.push(first)?;
    terms.push(second)?;
    Ok(Term::Array(terms))
}
