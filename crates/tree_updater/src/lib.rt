//! Bringing an index over trees up to date: the documents that were written since its sequence are mapped, and their rows exchanged
//! in its trees by one commit.
#![tactic(auto)]

mod fault;
mod updating;
mod writing;

pub use fault::UpdateFault;
pub use updating::update;
