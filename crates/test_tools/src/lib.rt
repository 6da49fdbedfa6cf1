//! What tests of several crates have in common: texts, calls on query servers, and what a stop may leave.
#![tactic(auto)]

mod server_calls;
mod stops;
mod texts;

pub use server_calls::{Call, called, shown};
pub use stops::may_be_left;
pub use texts::{nested, same_text, text_of};
