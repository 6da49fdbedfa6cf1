//! Mapping a document through a child whose session is ready.

ghost use Rattle.std.specs.Prelude.{◌≡◌, ◌<◌, ◌^◌, None, length, IfOk, IfSome};
ghost use Rattle.view_ports.specs.Commands.{command};
ghost use Rattle.query_protocol.specs.CommandLines.{command_line, IsWhole};
ghost use Rattle.child_pool.specs.Ends.{EndsOnce, EndsTwice};
ghost use Rattle.child_pool.specs.Mapping.{AreBoundedRows, AsksRows, MapsOne};
ghost use Rattle.child_pool.specs.Pools.{rows_said};

use crate::document::Document;
use crate::pool_fault::PoolFault;
use crate::prompt::ask;
use crate::session::start_over;
use json_terms::{Chars, NoMemory, RowLists};
use query_protocol::{Kind, Reply, map_line};
use std::alloc::Global;
use view_ports::{Command, SLOT_COUNT, Servers};

/// The line that asks for a document's rows.
fn document_line(alloc: Global, document: &Document) -> Result<Vec<u8>, NoMemory>
    ensures line { IfOk result (λ line. line.items ≡ command_line (Command.MapDoc document.now)) }
    ensures whole { IfOk result (λ line. IsWhole line.items) }
    ensures reads { IfOk result (λ line. command line.items ≡ Command.MapDoc document.now) }
{
    let term = document.term();
    term.validity();
    let mut line = Vec::new(alloc);
    map_line(alloc, term, &mut line)?;
    Ok(line)
}

/// The rows of a reply, which has some.
fn rows_in(alloc: Global, reply: Reply) -> RowLists
    ensures { result ≡ rows_said reply }
{
    match reply {
        Reply::Rows(rows) => rows,
        Reply::Log => RowLists::new(alloc),
        Reply::Yes => RowLists::new(alloc),
        Reply::Value(_value) => RowLists::new(alloc),
        Reply::Compile => RowLists::new(alloc),
    }
}

/// Asks a child whose session is ready for a document's rows. There are none where a call failed.
fn ask_rows<C: Servers>(
    alloc: Global,
    servers: &mut C,
    slot: u32,
    sources: &[Chars],
    document: &Document,
) -> Result<Option<RowLists>, PoolFault>
    requires slot { slot < SLOT_COUNT }
    requires few { length sources.now < 2 ^ 32 }
    ensures went { AsksRows C.Servers servers.old servers.new slot sources.now document.now result }
    ensures ends { EndsOnce C.Servers servers.old servers.new None result }
    ensures bounded { IfOk result (λ rows. IfSome rows (AreBoundedRows (length sources.now))) }
{
    let line = match document_line(alloc, document) {
        Ok(line) => line,
        Err(NoMemory) => return Err(PoolFault::NoMemory),
    };
    match ask(
        alloc,
        servers,
        slot,
        line.as_slice(),
        Kind::Rows(sources.len() as u32),
    ) {
        Ok(Some(reply)) => Ok(Some(rows_in(alloc, reply))),
        Ok(None) => Ok(None),
        Err(fault) => Err(fault),
    }
}

/// Maps a document, in two attempts at most. Between them the child is stopped, and the second begins with a fresh child.
pub fn map_one<C: Servers>(
    alloc: Global,
    servers: &mut C,
    slot: u32,
    path: &str,
    sources: &[Chars],
    document: &Document,
) -> Result<RowLists, PoolFault>
    requires slot { slot < SLOT_COUNT }
    requires few { length sources.now < 2 ^ 32 }
    ensures went { MapsOne C.Servers servers.old servers.new
        slot path.now sources.now document.now result }
    ensures ends { EndsTwice C.Servers servers.old servers.new result }
    ensures bounded { IfOk result (AreBoundedRows (length sources.now)) }
{
    match ask_rows(alloc, servers, slot, sources, document) {
        Ok(Some(rows)) => return Ok(rows),
        Ok(None) => {}
        Err(fault) => return Err(fault),
    }
    servers.stop(slot);
    match start_over(alloc, servers, slot, path, sources, sources.len() + 1) {
        Ok(true) => {}
        Ok(false) => return Err(PoolFault::ServerFault),
        Err(fault) => return Err(fault),
    }
    match ask_rows(alloc, servers, slot, sources, document) {
        Ok(Some(rows)) => Ok(rows),
        Ok(None) => Err(PoolFault::ServerFault),
        Err(fault) => Err(fault),
    }
}
