//! The answer of a query of a view whose values are had from a summer: a reduce whose values of lists of rows can be joined.
//!
//! `view_model` prints the answer. A group whose value is asked for is cut in parts, as a tree's leaves hold rows, and its value is
//! that of the parts joined.
#![tactic(auto)]

mod answers;
mod parts;
mod print_value;
mod summed;

pub use answers::answer;
pub use print_value::PrintValue;
pub use view_model::{AnswerFault, Reply};
