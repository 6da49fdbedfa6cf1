//! What tests of trees have in common, with a summer that notes its calls (`NotingSummer`): a contract over it can say that it was
//! asked for the value of each leaf that was put.
#![tactic(auto)]

mod before;
mod chance;
mod edits;
mod noting;
mod rows;
mod sized;
mod sum_log;

pub use before::BeforeItem;
pub use chance::Chance;
pub use edits::edited;
pub use noting::NotingSummer;
pub use rows::{item_of, text_item};
pub use sized::SizedTree;
