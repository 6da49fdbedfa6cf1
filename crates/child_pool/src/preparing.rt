//! Making the children of slots ready.

ghost use Rattle.std.specs.Prelude.{◌<◌};
ghost use Rattle.child_pool.specs.Ends.{EndsTwice};
ghost use Rattle.child_pool.specs.PoolCalls.{ReadiesSlots};
ghost use Rattle.child_pool.specs.StageCalls.{PreparesSlot};

use crate::pool_fault::PoolFault;
use crate::session::tell_all;
use json_terms::Chars;
use std::alloc::Global;
use view_ports::{SLOT_COUNT, Servers};

/// Makes a slot ready: its child is reset and has each source, after two attempts a prompt at most. A `fresh` child is
/// started first; otherwise one that was started by this path is there.
pub fn prepare_slot<C: Servers>(
    alloc: Global,
    servers: &mut C,
    slot: u32,
    path: &str,
    sources: &[Chars],
    fresh: bool,
) -> Result<(), PoolFault>
    requires { slot < SLOT_COUNT }
    ensures went { PreparesSlot C.Servers servers.old servers.new
        slot path.now sources.now fresh result }
    ensures ends { EndsTwice C.Servers servers.old servers.new result }
{
    tell_all(alloc, servers, slot, path, sources, fresh)
}

/// Makes the first slots ready, in rising order. The first `kept` slots have a child that was started by this path; in the
/// others one is started.
pub fn prepare_slots<C: Servers>(
    alloc: Global,
    servers: &mut C,
    slots: u32,
    kept: u32,
    path: &str,
    sources: &[Chars],
) -> Result<(), PoolFault>
    requires { slots < SLOT_COUNT }
    ensures went { ReadiesSlots C.Servers servers.old servers.new
        slots kept path.now sources.now result }
    ensures ends { EndsTwice C.Servers servers.old servers.new result }
{
    for slot in 0..slots {
        match prepare_slot(alloc, servers, slot, path, sources, kept <= slot) {
            Ok(()) => {}
            Err(fault) => return Err(fault),
        }
    }
    Ok(())
}
