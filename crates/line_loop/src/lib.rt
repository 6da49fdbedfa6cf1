//! The loop of a program that reads lines and answers each: pieces are read from a source, lines are cut from them, a
//! responder answers them one after another, and what it answers is written to a sink.
#![tactic(auto)]

mod lines;
mod loop_end;
mod reading;
mod responder;

pub use loop_end::LoopEnd;
pub use reading::answer_lines;
pub use responder::Responder;
