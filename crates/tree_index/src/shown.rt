//! The rows that an index shows, for proofs alone.

ghost use Rattle.std.specs.Borrow.{ftrue};
ghost use Rattle.std.specs.Coded.{coded_list};
ghost use Rattle.std.specs.Prelude.{◌≡◌, List};
ghost use Rattle.json_terms.specs.contracts.term.Row as kept_row;
ghost use Rattle.json_terms.specs.declared.term.Row.{Row};
ghost use Rattle.gate_file.specs.GateFile.{name_of};
ghost use Rattle.row_exchange.specs.Replaced.{replaced_views};
ghost use Rattle.tree_index.specs.Told.{rows_told};

use gate_file::GateFile;
use index_trees::IndexTrees;
use row_exchange::DocRows;
use std::marker::Model;
use view_ports::Folder;

/// The rows of each view as of the last commit, and as the next one makes them. Only proofs read them: they take no memory, and
/// nothing is done here when the program runs.
#[derive(Debug, Drop)]
pub(crate) struct Shown {
    pub ghost last: { List (List Row) } by { coded_list (coded_list kept_row.the_row.coded) },
    pub ghost next: { List (List Row) } by { coded_list (coded_list kept_row.the_row.coded) },
}

impl Model for Shown {
    ghost also_owns = { λ _. ftrue };
}

impl Shown {
    /// The rows of these trees in a file, as its folder tells them.
    pub(crate) fn told<F: Folder>(_folder: &F, _file: &GateFile, _trees: &IndexTrees) -> Shown
        ensures { result ≡ record {
          last = rows_told F.Folder _folder.now (name_of _file.now) _trees.now.views.items;
          next = rows_told F.Folder _folder.now (name_of _file.now) _trees.now.views.items;
        } }
    {
        Shown {}
    }

    /// The rows of these documents are exchanged in the next ones.
    pub(crate) fn exchanged(&self, _changes: &[DocRows]) -> Shown
        ensures { result ≡ record { last = self.now.last; next = replaced_views _changes.now self.now.next } }
    {
        Shown {}
    }

    /// The next rows are those of the last commit.
    pub(crate) fn committed(&self) -> Shown
        ensures { result ≡ record { last = self.now.next; next = self.now.next } }
    {
        Shown {}
    }

    /// The last rows are those of the next commit.
    pub(crate) fn rolled_back(&self) -> Shown
        ensures { result ≡ record { last = self.now.last; next = self.now.last } }
    {
        Shown {}
    }
}
