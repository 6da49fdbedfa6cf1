//! The query server of the language `pick`, of which map functions are programs and reduce functions are names: its
//! sessions, alone, as servers in the process, and over the lines of a source.
#![tactic(auto)]

mod change;
mod dialogue;
mod laws;
mod map_function;
mod pick_session;
mod replies;
mod serve;
mod session;

pub use laws::programs_follow_the_grammar;
pub use pick_session::{PickServers, PickSession};
pub use serve::serve_lines;
pub use session::Session;
pub use view_ports::LINE_LIMIT;
