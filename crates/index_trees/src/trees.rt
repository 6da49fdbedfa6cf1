//! The trees of an index.

use tree_laws::Tree;

/// The trees of an index, in a store of nodes.
#[derive(Drop)]
pub struct IndexTrees {
    /// The rows of each view, in order.
    pub views: Vec<Tree>,
    /// The back-index: where the rows of each document stand.
    pub back: Tree,
}
