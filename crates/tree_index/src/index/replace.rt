//! Exchanging the rows of documents.

ghost use Rattle.std.specs.Prelude.{◌<◌, ◌^◌, length};
ghost use Rattle.gate_file.specs.Calls.{KeepsIn, Told};
ghost use Rattle.index_trees.specs.Trees.{AreSizes};
ghost use Rattle.tree_index.specs.Calls.{IsOpen};
ghost use Rattle.tree_index.specs.InFile.{ExchangesIn};
ghost use Rattle.tree_index.specs.Replaces.{HasItsCause, Replaces, TakesSteps};

use super::Index;
use crate::fault::{IndexFault, of_trees};
use child_pool::{PoolFault, Summers};
use gate_file::{GateFault, GateFile};
use index_trees::{IndexTrees, exchange};
use node_file::{FileNodes, NodeCache};
use row_exchange::DocRows;
use std::alloc::Global;
use std::sync::ledger::Ledger;
use tree_laws::{Steps, TreeFault};
use view_ports::{Folder, Servers};

impl Index {
    /// Takes the old rows of these documents out of each view, and puts the new ones in. The next commit makes it; until then the
    /// index has the rows of the last one, and a crash leaves it so. No document is to be named twice, and each is to have a list
    /// for each view.
    ///
    /// Nodes are put at the end of the file. An edit is a row or an entry of the back-index that is removed, added or replaced, and
    /// `h` the greatest height of the trees before and after: it takes `8 * (h + 1)` steps and puts `4 * (h + 1)` nodes at most for
    /// each edit, and `2 * h` steps for each document. A step makes two reads at most.
    ///
    /// A file is `Damaged` where no node that fits stands at a place of a tree, which never comes over an index that holds rows.
    /// `Full` comes where a node would make the file too long. `Summer` hands on why a reduce gave up; `NoMemory` comes where memory
    /// runs out, a row is out of the bounds of an item, or a view would have more than 2^40 rows. After these the index is as it was,
    /// with what was exchanged before; what was put stays in the file, and nothing names it. `DiskFault` comes where the folder
    /// failed, and after it the object is not to be used again.
    pub fn replace<F: Folder, C: Servers, L: Ledger>(
        &mut self,
        alloc: Global,
        folder: &mut F,
        cache: &mut NodeCache,
        summers: &mut Summers<'_, '_, C>,
        changes: &[DocRows],
        steps: &mut Steps<L>,
    ) -> Result<(), IndexFault>
        requires open { Told F.Folder folder.old (λ d. IsOpen self.old d.now) }
        ensures rows { Replaces F.Folder C.Servers changes.now self.old self.new folder.old folder.new summers.old summers.new result }
        ensures causes { HasItsCause F.Folder C.Servers changes.now self.old self.new folder.old folder.new summers.old summers.new cache.old cache.new result }
        ensures costs { TakesSteps F.Folder C.Servers changes.now self.old self.new folder.old folder.new summers.old summers.new cache.old cache.new steps.old steps.new result }
    {
        let name = self.file.name();
        let trees = &self.next;
        match exchange_in(
            alloc,
            cache,
            folder,
            &mut self.file,
            summers,
            trees,
            changes,
            steps,
        ) {
            Ok(next) => {
                self.next = next;
                self.shown = self.shown.exchanged(changes);
                Ok(())
            }
            Err(fault) => Err(of_trees(name, fault)),
        }
    }
}

/// The trees with the rows of these documents exchanged, in a file.
fn exchange_in<F: Folder, C: Servers, L: Ledger>(
    alloc: Global,
    cache: &mut NodeCache,
    folder: &mut F,
    file: &mut GateFile,
    summers: &mut Summers<'_, '_, C>,
    trees: &IndexTrees,
    changes: &[DocRows],
    steps: &mut Steps<L>,
) -> Result<IndexTrees, TreeFault<GateFault, PoolFault>>
    requires ready { Told F.Folder folder.old (KeepsIn file.old) }
    requires sizes { AreSizes trees.now }
    requires few { length trees.now.views.items < 2 ^ 16 }
    ensures { ExchangesIn F.Folder C.Servers trees.now changes.now cache.old cache.new folder.old folder.new file.old file.new summers.old summers.new steps.old steps.new result }
{
    let mut nodes = FileNodes::over(cache, folder, file);
    exchange(alloc, &mut nodes, summers, trees, changes, steps)
}
