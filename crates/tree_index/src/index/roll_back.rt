//! Going back to the last commit.

ghost use Rattle.std.specs.Prelude.{◌≡◌};
ghost use Rattle.tree_index.specs.Index.{file_of, IsSame, IsSettled};

use super::Index;
use crate::trees::set_trees;

impl Index {
    /// Takes back all exchanges since the last commit, without taking memory. What was put into the file for them stays there, and
    /// nothing names it.
    pub fn roll_back(&mut self)
        ensures same { IsSame self.old self.new }
        ensures file { file_of self.new ≡ file_of self.old }
        ensures settled { IsSettled self.new }
    {
        set_trees(&mut self.next, &self.last);
        self.shown = self.shown.rolled_back();
    }
}
