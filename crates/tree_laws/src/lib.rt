//! What B+trees keep, what they keep of it in their inner nodes, and where: items, values of lists of items that can be joined,
//! and stores of nodes.
//!
//! `Item` is implemented by what stands in a leaf, `Summer` by what gives the value of a list of items: a reduce, a count, or
//! nothing, `Bound` by a place between items, and `NodeSource` and `NodeStore` by what keeps nodes in bytes. Each implementor
//! meets the clauses and laws here, and trees are proved over any of them.
//!
//! `encode_node` and `decode_node` are the bytes of a node, `fetch_node` gets one that fits its place, and `specs/Trees.antt` says
//! what a tree holds.
#![tactic(auto)]

mod bound;
mod decode;
mod encode;
mod fetch;
mod item;
mod laws;
mod log;
mod memory;
mod node;
mod reader;
mod steps;
mod store;
mod summer;
mod tree;

pub use bound::Bound;
pub use decode::decode_node;
pub use encode::encode_node;
pub use fetch::fetch_node;
pub use item::{Item, ItemFault};
pub use laws::{
    bare_trees_have_sizes, bare_trees_stay, nodes_are_prefix_free, nodes_are_spelled_once,
    nodes_of_bare_trees_are_fetched, nodes_of_bare_trees_fit, nodes_of_trees_are_fetched,
    nodes_of_trees_fit, places_of_bare_trees_have_nodes, places_of_trees_have_nodes,
    sums_of_trees_fit, trees_are_bare, trees_have_sizes, trees_pass, trees_stay,
};
pub use log::NodeLog;
pub use memory::{MemoryFault, MemoryNodes};
pub use node::{Child, Children, Items, Node, SumBytes};
pub use steps::Steps;
pub use store::{NodeSource, NodeStore};
pub use summer::Summer;
pub use tree::{Fill, Tree, TreeFault};
