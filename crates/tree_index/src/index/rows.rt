//! Reading the rows of a view.

ghost use Rattle.std.specs.Prelude.{◌<◌};
ghost use Rattle.tree_index.specs.Index.{views_of};
ghost use Rattle.tree_index.specs.RowsRead.{ReadsRows};
ghost use Rattle.tree_index.specs.Walks.{listed};

use super::Index;
use crate::fault::{IndexFault, of_walk};
use crate::walk::walk_rows;
use json_terms::Row;
use node_file::{NodeCache, PastNodes};
use raw_collation::sort_rows;
use std::alloc::Global;
use std::sync::ledger::Ledger;
use tree_laws::Steps;
use view_ports::Folder;

impl Index {
    /// The rows of a view, in order, as of the last commit, each with a key and a value such as a reply may hold. For a tree of `n`
    /// rows and height `h` it takes `(n + 1) * h` steps at most, each of two reads at most.
    ///
    /// They are sorted once more, since nothing of a file says that the rows of one leaf come before those of the next.
    ///
    /// The file is `Damaged` where no node that fits stands at a place of the tree, which never comes over an index that holds
    /// rows. `DiskFault` comes where the folder failed. The other error is want of memory.
    pub fn rows<F: Folder, L: Ledger>(
        &self,
        alloc: Global,
        folder: &mut F,
        cache: &mut NodeCache,
        view: u32,
        steps: &mut Steps<L>,
    ) -> Result<Vec<Row>, IndexFault>
        requires { view < views_of self.now }
        ensures { ReadsRows F.Folder self.now view folder.old folder.new cache.old cache.new steps.old steps.new (listed result) }
    {
        let name = self.file.name();
        let tree = self.tree(view);
        let mut nodes = PastNodes::over(cache, folder, name);
        match walk_rows(alloc, &mut nodes, tree, steps) {
            Ok(mut rows) => {
                sort_rows(&mut rows);
                Ok(rows)
            }
            Err(fault) => Err(of_walk(name, fault)),
        }
    }
}
