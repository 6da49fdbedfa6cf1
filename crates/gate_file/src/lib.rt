//! Files whose commits are all or nothing, on a disk that may stop at any moment. A commit opens a
//! gate: one byte, written after all that stands behind it was synced.
#![tactic(auto)]

mod fault;
mod gate;
mod root;
mod slot;
mod steps;

pub use fault::GateFault;
pub use gate::GateFile;
pub use root::{MAX_COMMITS, MAX_LENGTH, Root};
