//! The request lines of a load: a design document with one view, numbered documents, changes of every third of them, and
//! the requests that ask for the view and for the counts.
//!
//! Document k has the id `doc` and k in six digits, a `group` and an `amount`, both from the k-th number of a generator
//! that begins with a number of the caller.
#![tactic(auto)]

mod documents;
mod lines;
mod numbers;

pub use documents::load_map;
pub use lines::{first_lines, info_line, second_lines, view_line};
