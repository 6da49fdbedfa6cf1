//! Trees by their roots, and why a call on one gives up.

ghost use Rattle.std.specs.Prelude.{◌≡◌};
ghost use Rattle.tree_laws.specs.declared.tree.TreeFault.TheVariants.{NoMemory as OutOfMemory};

use json_terms::NoMemory;

/// A tree in a store.
#[derive(Clone, Copy, Debug, PartialEq, Eq)]
pub struct Tree {
    /// The place of the root. It says nothing where there are no items.
    pub root: u64,
    /// How many nodes stand on the way from the root to an item, both ends counted. It is 0 where there are no items.
    pub height: u32,
    /// How many items there are.
    pub count: u64,
}

/// How many entries a node has to have: 32 at most in each case.
#[derive(Clone, Copy, Debug, PartialEq, Eq)]
pub enum Fill {
    /// It is the root, and has 1 at least as a leaf and 2 as an inner node.
    Root,
    /// It stands below the root, and has 8 at least.
    Below,
}

/// Why a call on a tree gave up.
#[derive(Debug, Drop)]
pub enum TreeFault<S, M> {
    /// The store answered this fault.
    Store(S),
    /// What stands at this place of the store is no node that fits there.
    BadNode(u64),
    /// The summer answered this fault.
    Summer(M),
    /// Memory ran out.
    NoMemory,
}

impl<S, M> From<NoMemory> for TreeFault<S, M> {
    ghost from_gives = { λ _ e. e ≡ OutOfMemory };

    fn from(_error: NoMemory) -> TreeFault<S, M> {
        TreeFault::NoMemory
    }
}
