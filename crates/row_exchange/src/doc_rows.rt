//! The rows of one document.

use json_terms::{Chars, RowLists};

/// What the map functions of a design emitted for one document: a list for each view. A document that is gone has no rows.
#[derive(Drop)]
pub struct DocRows {
    pub id: Chars,
    pub rows: RowLists,
}
