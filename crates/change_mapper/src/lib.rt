//! The rows of what was written since a sequence: the last writes are read page by page, and the documents that they left mapped.
#![tactic(auto)]

mod changed;
mod fault;
mod mapping;

pub use fault::MappingFault;
pub use mapping::map_changes;
pub use row_exchange::DocRows;
