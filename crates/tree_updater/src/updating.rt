//! An update of an index.

ghost use Rattle.std.specs.Prelude.{◌≡◌, ◌<◌, ◌^◌, length};
ghost use Rattle.gate_file.specs.Calls.{Told};
ghost use Rattle.tree_index.specs.Calls.{IsOpen};
ghost use Rattle.tree_index.specs.Index.{views_of};
ghost use Rattle.tree_updater.specs.Sides.{side};
ghost use Rattle.tree_updater.specs.Updates.{Updates};

use crate::fault::UpdateFault;
use crate::writing::write_rows;
use change_mapper::map_changes;
use child_pool::Pool;
use design_docs::Design;
use doc_file::Docs;
use node_file::NodeCache;
use std::alloc::Global;
use std::sync::ledger::Ledger;
use tree_index::Index;
use tree_laws::Steps;
use view_ports::{Folder, Servers};

/// Brings the index of a design up to date: the documents whose last write came after its sequence are mapped, and no others, and
/// their rows are exchanged by one commit. Where nothing was written since, nothing is asked and nothing is written. On the way each
/// reduce that a query server runs is asked for the values of the nodes that change, so that one whose source doesn't compile refuses
/// the update.
///
/// The rows of all these documents are held at once, beside 128 documents.
///
/// `Pool` hands on why the query servers gave up, `Docs` why the documents could not be read, and `Index` why the index could not be
/// read or written; the other error is want of memory. After a fault of the disk in the index the object is not to be used again; after
/// each other refusal it is as at its last commit, and may be updated again. The pool's languages and width never change.
pub fn update<F: Folder, C: Servers, L: Ledger>(
    alloc: Global,
    folder: &mut F,
    cache: &mut NodeCache,
    servers: &mut C,
    pool: &mut Pool,
    docs: &Docs,
    design: &Design,
    index: &mut Index,
    steps: &mut Steps<L>,
) -> Result<(), UpdateFault>
    requires index { Told F.Folder folder.old (λ d. IsOpen index.old d.now) }
    requires number { views_of index.old ≡ length design.now.views }
    ensures { Updates F.Folder C.Servers docs.now design.now
        (side folder.old servers.old pool.old index.old cache.old steps.old)
        (side folder.new servers.new pool.new index.new cache.new steps.new) result }
{
    let newest = docs.info().update_seq;
    let seq = index.seq();
    if seq == newest {
        return Ok(());
    }
    index.roll_back();
    let rows = map_changes(alloc, folder, servers, pool, docs, design, seq)?;
    let rows = rows.as_slice();
    write_rows(
        alloc, folder, cache, servers, pool, design, index, rows, newest, steps,
    )?;
    Ok(())
}
