//! A tree whose numbers are those of a tree.

ghost use Rattle.std.specs.Prelude.{◌≡◌};
ghost use Rattle.tree_laws.specs.SummerTrees.{IsTreeSize};

use std::marker::Model;
use tree_laws::Tree;

/// A tree that a call may be given.
#[derive(Drop)]
pub struct SizedTree {
    tree: Tree,
}

impl Model for SizedTree {
    ghost use Rattle.tree_laws.specs.declared.tree.Tree.{Tree};
    ghost use Rattle.tree_laws.specs.SummerTrees.{IsTreeSize};

    ghost Value = { Tree };

    ghost view = { λ sized. sized.tree };

    ghost invariant = { λ sized. IsTreeSize sized.tree };
}

impl SizedTree {
    /// A tree without items.
    pub fn empty() -> SizedTree {
        SizedTree {
            tree: Tree {
                root: 0,
                height: 0,
                count: 0,
            },
        }
    }

    pub fn of(tree: Tree) -> SizedTree
        requires { IsTreeSize tree }
        ensures { result ≡ tree }
    {
        SizedTree { tree }
    }

    pub fn tree(&self) -> Tree
        ensures same { result ≡ self.now }
        ensures size { IsTreeSize result }
    {
        self.tree
    }
}
