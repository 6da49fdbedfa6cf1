//! B+trees that are never changed in place: a batch of edits answers a new tree, and the old one stays.
//!
//! `apply` takes edits in the order of their items, removals and insertions mixed, and goes once over the nodes that they touch.
//! `specs/Applied.antt` says what edits leave of a list of items.
//!
//! `Builder` makes a tree of items that come in order, packed as tightly as `specs/Packed.antt` says.
#![tactic(auto)]

mod apply_edits;
mod batch;
mod builder;
mod edit;
mod fetch;
mod leaf;
mod parts;
mod place;
mod put;
mod root;
mod row;
mod tell;

pub use apply_edits::apply;
pub use builder::{
    Builder, builders_pass, builders_stay, new_builders_are_empty, packed_trees_have_their_size,
};
pub use edit::{Edit, edits_are_made};
