//! The pool of query servers: sessions are made ready, documents are mapped, rows are reduced, and each prompt has two attempts.
#![tactic(auto)]

mod child_sum;
mod child_summer;
mod doc_rows;
mod document;
mod heard;
mod languages;
mod laws;
mod mapping;
mod pool;
mod pool_fault;
mod preparing;
mod prompt;
mod reduce_slot;
mod reducing;
mod session;
mod shown_line;
mod summers;
mod view_sum;

pub use child_sum::ChildSum;
pub use child_summer::ChildSummer;
pub use doc_rows::DocRowLists;
pub use document::Document;
pub use languages::language_word;
pub use laws::{honest_paths_are_refused_rightly, updates_go_in_pages};
pub use pool::Pool;
pub use pool_fault::PoolFault;
pub use reduce_slot::ReduceSlot;
pub use summers::Summers;
pub use view_sum::{ViewSum, print_view_sum, view_sum_is_line};
