//! The rows of an index as trees in a store of nodes: one for each view, and one that says where the rows of each document stand.
#![tactic(auto)]

mod back_edits;
mod exchanging;
mod laws;
mod old_places;
mod row_edits;
mod trees;

pub use exchanging::exchange;
pub use laws::{
    edits_of_batches_add_up, empty_trees_have_sizes, empty_trees_hold_nothing, trees_have_sizes,
    trees_keep_rows_within_bounds, trees_rise, trees_stay, trees_tell_rows,
};
pub use trees::IndexTrees;
