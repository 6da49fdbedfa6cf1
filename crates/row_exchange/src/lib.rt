//! The rows of documents that were written, as an index takes them: what an exchange of the rows of documents makes of the rows of
//! views, and that such exchanges are updates.
#![tactic(auto)]

mod doc_rows;
mod document_rows;
mod laws;

pub use doc_rows::DocRows;
pub use document_rows::{add_rows, new_rows};
pub use laws::{replacements_are_updates, replacements_go_in_batches};
