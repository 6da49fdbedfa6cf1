//! Documents, one after another.
ghost use Rattle.std.specs.Prelude.{◌<◌, ◌^◌, IfOk, length};
ghost use Rattle.child_pool.specs.Ends.{EndsTwice};
ghost use Rattle.child_pool.specs.Mapping.{AreBounded};
ghost use Rattle.child_pool.specs.PoolCalls.{MapsEach};

use crate::doc_rows::DocRowLists;
use crate::document::Document;
use crate::mapping::map_one;
use crate::pool_fault::PoolFault;
use json_terms::Chars;
use std::alloc::Global;
use view_ports::Servers;

/// The slot of the one child that maps.
const MAP_SLOT: u32 = 0;

/// Maps documents one after another, each in two attempts at most.
pub(super) fn map_each<C: Servers>(
    alloc: Global,
    servers: &mut C,
    path: &str,
    sources: &[Chars],
    documents: &[Document],
) -> Result<DocRowLists, PoolFault>
    requires few { length sources.now < 2 ^ 32 }
    ensures went { MapsEach C.Servers servers.old servers.new
        path.now sources.now documents.now result }
    ensures ends { EndsTwice C.Servers servers.old servers.new result }
    ensures bounded { IfOk result (AreBounded (length sources.now) (length documents.now)) }
{
    let mut lists = DocRowLists::new(alloc);
    for document in documents {
        match map_one(alloc, servers, MAP_SLOT, path, sources, document) {
            Ok(rows) => {
                if lists.push(rows).is_err() {
                    return Err(PoolFault::NoMemory);
                }
            }
            Err(fault) => return Err(fault),
        }
    }
    Ok(lists)
}
