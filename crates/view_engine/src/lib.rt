//! The view engine: one request line, done or refused.
#![tactic(auto)]

mod answer;
mod cleanup;
mod design;
mod engine;
mod fault_line;
mod forms;
mod halt;
mod laws;
mod line;
mod reads;
mod refusal;
mod request;
mod writes;

pub use engine::Engine;
pub use fault_line::no_memory_line;
pub use halt::StepFault;
pub use laws::{
    folders_hold_worlds, functions_may_be_told, live_documents_have_their_last_write,
    replies_are_fresh, requests_have_one_outcome, worlds_go_on, worlds_stay_sound,
    writes_are_accepted_in_turn,
};
pub use line::{REQUEST_LIMIT, read_request};
pub use refusal::Refusal;
pub use request::{Request, ViewName};
