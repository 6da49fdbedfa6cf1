//! Calls on query servers, one by one.

use std::alloc::Global;
use std::test::Fail;
use view_ports::{SLOT_COUNT, Servers, ServersFault, cut_line};

/// A call on the child of a slot. `Start` has a path, and `Ask` sends the line and receives the answer.
#[derive(Clone, Copy, Debug)]
pub enum Call {
    Start,
    Send,
    Receive,
    Ask,
    Stop,
}

/// What the call gives: a line, or nothing. It isn't made, and fails, for a slot that there is none of, and for a text of more
/// than one line.
pub fn called<C: Servers>(
    servers: &mut C,
    alloc: Global,
    slot: u32,
    call: Call,
    line: &str,
) -> Result<Vec<u8>, ServersFault> {
    if slot as usize >= SLOT_COUNT || cut_line(line.as_bytes()).is_some() {
        return Err(ServersFault::Failed);
    }
    match call {
        Call::Start => servers.start(alloc, slot, line)?,
        Call::Send => servers.send(alloc, slot, line.as_bytes())?,
        Call::Receive => return servers.receive(alloc, slot),
        Call::Ask => {
            servers.send(alloc, slot, line.as_bytes())?;
            return servers.receive(alloc, slot);
        }
        Call::Stop => servers.stop(slot),
    }
    Ok(Vec::new(alloc))
}

/// The line that a call gave, or its fault.
pub fn shown(alloc: Global, given: Result<Vec<u8>, ServersFault>) -> Result<String, Fail> {
    match given {
        Ok(line) => Ok(String::from_utf8(line)?),
        Err(fault) => Ok(format!(in alloc; "{fault}")?),
    }
}
