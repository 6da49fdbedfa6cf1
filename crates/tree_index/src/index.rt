//! The index of a signature's views.

mod commit;
mod open;
mod remove;
mod replace;
mod roll_back;
mod rows;

ghost use Rattle.std.specs.Prelude.{◌≡◌, ◌<◌, ◌^◌, IsTrue, length};
ghost use Rattle.tree_index.specs.Sizes.{are_sizes};

use crate::shown::Shown;
use gate_file::GateFile;
use index_trees::IndexTrees;
use tree_laws::Tree;
use view_ports::FileName;

/// The index of a signature's views: the trees of the last commit, and those that the next one makes.
#[derive(Drop)]
pub struct Index {
    file: GateFile,
    /// The sequence of the last commit.
    seq: u64,
    last: IndexTrees,
    next: IndexTrees,
    shown: Shown,
    ghost few: { length last.views.items < 2 ^ 16 },
    ghost same: { length next.views.items ≡ length last.views.items },
    ghost last_sizes: { IsTrue (are_sizes last.views.items last.back) },
    ghost next_sizes: { IsTrue (are_sizes next.views.items next.back) },
}

impl Index {
    ghost use Rattle.gate_file.specs.GateFile.{name_of};
    ghost use Rattle.tree_laws.specs.Trees.{IsTreeSize};
    ghost use Rattle.tree_index.specs.Index.{file_of, seq_of, views_of};
    ghost use Rattle.tree_index.specs.RowsRead.{tree_of};

    /// The update sequence of the last commit, 0 where there was none. It takes no memory.
    pub fn seq(&self) -> u64
        ensures { result ≡ seq_of self.now }
    {
        self.seq
    }

    /// The tree of a view as of the last commit. It takes no memory.
    pub fn tree(&self, view: u32) -> Tree
        requires { view < views_of self.now }
        ensures is { result ≡ tree_of self.now view }
        ensures size { IsTreeSize result }
    {
        self.last.views.as_slice()[view as usize]
    }

    /// How many views it has. It takes no memory.
    pub fn views(&self) -> usize
        ensures { result ≡ views_of self.now }
    {
        self.last.views.len()
    }

    /// The name of the file that holds the index. It takes no memory.
    pub fn name(&self) -> FileName
        ensures { result ≡ name_of (file_of self.now) }
    {
        self.file.name()
    }
}
