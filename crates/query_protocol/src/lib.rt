//! The lines of the Query Server protocol (CouchDB documentation, "Query Server Protocol"): those that a query server is
//! sent, byte for byte, and what its replies mean.
#![tactic(auto)]

mod document_line;
mod fault;
mod lines;
mod parts;
mod reduce_lines;
mod reply;
mod results;
mod rows;
mod sent;

pub use document_line::map_line;
pub use fault::ReplyFault;
pub use lines::{add_fun_line, reset_line};
pub use parts::is_within_bounds;
pub use reduce_lines::{reduce_line, rereduce_line};
pub use reply::{Kind, Reply, read_reply};
