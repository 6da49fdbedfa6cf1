//! Writing the rows of documents to an index.

ghost use Rattle.std.specs.Prelude.{◌≡◌, length};
ghost use Rattle.gate_file.specs.Calls.{Told};
ghost use Rattle.tree_index.specs.Calls.{IsOpen};
ghost use Rattle.tree_index.specs.Index.{views_of, IsSettled};
ghost use Rattle.tree_updater.specs.Replacing.{ReplacesBy};
ghost use Rattle.tree_updater.specs.Sides.{side};
ghost use Rattle.tree_updater.specs.Writes.{Writes};

use child_pool::{Pool, ReduceSlot, Summers};
use design_docs::Design;
use node_file::NodeCache;
use row_exchange::DocRows;
use std::alloc::Global;
use std::sync::ledger::Ledger;
use tree_index::{Index, IndexFault};
use tree_laws::Steps;
use view_ports::{Folder, Servers};

/// Exchanges the rows of documents in those of the last commit, by one commit at this sequence. A refusal leaves the index as at its
/// last commit, and so it has to be before.
pub fn write_rows<F: Folder, C: Servers, L: Ledger>(
    alloc: Global,
    folder: &mut F,
    cache: &mut NodeCache,
    servers: &mut C,
    pool: &mut Pool,
    design: &Design,
    index: &mut Index,
    rows: &[DocRows],
    seq: u64,
    steps: &mut Steps<L>,
) -> Result<(), IndexFault>
    requires index { Told F.Folder folder.old (λ d. IsOpen index.old d.now) }
    requires number { views_of index.old ≡ length design.now.views }
    requires settled { IsSettled index.old }
    ensures { Writes F.Folder C.Servers design.now rows.now seq
        (side folder.old servers.old pool.old index.old cache.old steps.old)
        (side folder.new servers.new pool.new index.new cache.new steps.new) result }
{
    replace_rows(
        alloc, folder, cache, servers, pool, design, index, rows, steps,
    )?;
    match index.commit(alloc, folder, seq) {
        Ok(()) => Ok(()),
        Err(fault) => {
            index.roll_back();
            Err(fault)
        }
    }
}

/// Exchanges the rows of documents, with values by the reduces of the design's views.
fn replace_rows<F: Folder, C: Servers, L: Ledger>(
    alloc: Global,
    folder: &mut F,
    cache: &mut NodeCache,
    servers: &mut C,
    pool: &mut Pool,
    design: &Design,
    index: &mut Index,
    rows: &[DocRows],
    steps: &mut Steps<L>,
) -> Result<(), IndexFault>
    requires index { Told F.Folder folder.old (λ d. IsOpen index.old d.now) }
    ensures { ReplacesBy F.Folder C.Servers design.now rows.now
        (side folder.old servers.old pool.old index.old cache.old steps.old)
        (side folder.new servers.new pool.new index.new cache.new steps.new) result }
{
    let mut summers = Summers {
        slot: ReduceSlot::over(pool, servers),
        design,
        view: 0,
    };
    index.replace(alloc, folder, cache, &mut summers, rows, steps)
}
