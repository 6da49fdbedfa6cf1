//! Nodes of trees in a gate file.
//!
//! A record is its length in 8 bytes, the low byte first, and its bytes. `put_node` adds one at the end of a file, `get_node`
//! reads the one at a place, `FileNodes` makes of a file a store of nodes, and `PastNodes` reads those of a file by its name.
//! `node_at` of specs/Records.antt says what stands at each place of a file's bytes.
#![tactic(auto)]

mod cache;
mod file_nodes;
mod laws;
mod nodes;
mod past_nodes;
mod record;

pub use cache::NodeCache;
pub use file_nodes::FileNodes;
pub use laws::{
    nodes_stay_behind_roots, nodes_stay_in_longer_files, past_nodes_are_the_files,
    put_nodes_are_read,
};
pub use nodes::{get_node, put_node};
pub use past_nodes::PastNodes;
