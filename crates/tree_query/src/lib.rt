//! What is asked of B+trees in a store: how many items stand before a bound, the value of a range of items, and the items of a
//! range one after another.
#![tactic(auto)]

mod count;
mod fetch;
mod range;
mod walk;

pub use count::count_before;
pub use range::reduce_range;
pub use walk::{Walk, walks_stay};
