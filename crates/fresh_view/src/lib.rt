//! The answer to a query of a view without an index and without a query server: the map source is a program of `pick`, which is
//! compiled and run on every document that views map.
#![tactic(auto)]

mod afresh;
mod fault;
mod laws;
mod rows;

pub use afresh::answer_afresh;
pub use fault::AfreshFault;
pub use laws::fresh_rows_are_the_views;
