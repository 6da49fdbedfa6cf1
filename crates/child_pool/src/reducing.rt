//! Reducing rows, or the values of parts, through a child that was reset.

ghost use Rattle.std.specs.Prelude.{◌≡◌, ◌<◌, None, map, IfErr, IfOk, IfSome};
ghost use Rattle.std.specs.List.{list_all};
ghost use Rattle.json_terms.specs.Seen.{json};
ghost use Rattle.json_terms.specs.Terms.{IsTerm};
ghost use Rattle.view_ports.specs.Functions.{IsWithinBounds};
ghost use Rattle.view_ports.specs.ReduceRow.{reduce_row};
ghost use Rattle.query_protocol.specs.CommandLines.{IsWhole};
ghost use Rattle.child_pool.specs.Ends.{EndsOnce, EndsTwice};
ghost use Rattle.child_pool.specs.Reducing.{AsksValue, IsReduceLine, ReducesOne, is_shallow_row, is_shallow_value, value_said};

use crate::pool_fault::PoolFault;
use crate::prompt::ask;
use crate::session::start_over;
use json_terms::{NoMemory, Row, Term, depth_within};
use query_protocol::{Kind, Reply, reduce_line, rereduce_line};
use std::alloc::Global;
use view_ports::{Command, PART_DEPTH, SLOT_COUNT, Servers};

/// The value of a reply to a reduction, which has one or complains.
fn value_in(reply: Reply) -> Result<Term, PoolFault>
    ensures said { result ≡ value_said reply }
    ensures valid { IfOk result (λ value. IsTerm (json value)) }
    ensures fault { IfErr result (λ fault. fault ≡ PoolFault.Compile) }
{
    match reply {
        Reply::Value(value) => {
            value.validity();
            Ok(value)
        }
        Reply::Compile => Err(PoolFault::Compile),
        Reply::Log => Ok(Term::Null),
        Reply::Yes => Ok(Term::Null),
        Reply::Rows(_rows) => Ok(Term::Null),
    }
}

/// Asks a child that was reset for a value. There is none where a call failed.
fn ask_value<C: Servers>(
    alloc: Global,
    servers: &mut C,
    slot: u32,
    line: &[u8],
) -> Result<Option<Term>, PoolFault>
    requires slot { slot < SLOT_COUNT }
    requires whole { IsWhole line.now }
    ensures went { AsksValue C.Servers servers.old servers.new slot line.now result }
    ensures ends { EndsOnce C.Servers servers.old servers.new None result }
    ensures bounded { IfOk result (λ value. IfSome value (λ value. IsWithinBounds (json value))) }
{
    match ask(alloc, servers, slot, line, Kind::Value) {
        Ok(Some(reply)) => match value_in(reply) {
            Ok(value) => Ok(Some(value)),
            Err(fault) => Err(fault),
        },
        Ok(None) => Ok(None),
        Err(fault) => Err(fault),
    }
}

/// Asks for a value, in two attempts at most. Between them the child is stopped, and the second begins with a fresh child, which
/// is reset.
pub(crate) fn reduce_one<C: Servers>(
    alloc: Global,
    servers: &mut C,
    slot: u32,
    path: &str,
    line: &[u8],
) -> Result<Term, PoolFault>
    requires slot { slot < SLOT_COUNT }
    requires whole { IsWhole line.now }
    ensures went { ReducesOne C.Servers servers.old servers.new slot path.now line.now result }
    ensures ends { EndsTwice C.Servers servers.old servers.new result }
    ensures bounded { IfOk result (λ value. IsWithinBounds (json value)) }
{
    match ask_value(alloc, servers, slot, line) {
        Ok(Some(value)) => return Ok(value),
        Ok(None) => {}
        Err(fault) => return Err(fault),
    }
    servers.stop(slot);
    match start_over(alloc, servers, slot, path, &[], 1) {
        Ok(true) => {}
        Ok(false) => return Err(PoolFault::ServerFault),
        Err(fault) => return Err(fault),
    }
    match ask_value(alloc, servers, slot, line) {
        Ok(Some(value)) => Ok(value),
        Ok(None) => Err(PoolFault::ServerFault),
        Err(fault) => Err(fault),
    }
}

/// The line that asks for the value of rows.
pub(crate) fn rows_line(alloc: Global, source: &str, rows: &[Row]) -> Result<Vec<u8>, NoMemory>
    ensures { IfOk result (λ line. IsReduceLine (Command.Reduce source.now
        (map reduce_row rows.now)) line.items) }
{
    if !are_shallow_rows(rows) {
        return Err(NoMemory);
    }
    let mut line = Vec::new(alloc);
    reduce_line(alloc, source, rows, &mut line)?;
    Ok(line)
}

/// The line that asks for the value of parts.
pub(crate) fn values_line(alloc: Global, source: &str, values: &[Term]) -> Result<Vec<u8>, NoMemory>
    ensures { IfOk result (λ line. IsReduceLine (Command.Rereduce source.now
        (map json values.now)) line.items) }
{
    if !are_shallow_values(values) {
        return Err(NoMemory);
    }
    let mut line = Vec::new(alloc);
    rereduce_line(alloc, source, values, &mut line)?;
    Ok(line)
}

fn are_shallow_rows(rows: &[Row]) -> bool
    ensures { result ≡ list_all is_shallow_row rows.now }
{
    rows.iter()
        .all(|row| is_shallow(&row.key) && is_shallow(&row.value))
}

fn are_shallow_values(values: &[Term]) -> bool
    ensures { result ≡ list_all is_shallow_value values.now }
{
    values.iter().all(|value| is_shallow(value))
}

/// Whether a key or a value nests as deep at most as a server is given.
fn is_shallow(term: &Term) -> bool
    ensures { result ≡ is_shallow_value term.now }
{
    depth_within(term, PART_DEPTH)
}
