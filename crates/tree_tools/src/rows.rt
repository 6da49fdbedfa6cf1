//! Rows by numbers.

use builtin_reduces::RowItem;
use json_terms::{Chars, NoMemory, Row, Term};
use std::alloc::Global;

/// The row with this key and this value.
pub fn item_of(alloc: Global, key: i64, value: i64) -> Result<RowItem, NoMemory> {
    kept(alloc, key, Term::Int(value))
}

/// The row with this key and this text as its value.
pub fn text_item(alloc: Global, key: i64, value: &str) -> Result<RowItem, NoMemory> {
    kept(alloc, key, Term::Text(Chars::from_text(alloc, value)?))
}

fn kept(alloc: Global, key: i64, value: Term) -> Result<RowItem, NoMemory> {
    let row = Row {
        key: Term::Int(key),
        id: Chars::from_text(alloc, "")?,
        place: 0,
        value,
    };
    match RowItem::new(alloc, row)? {
        Some(item) => Ok(item),
        None => Err(NoMemory),
    }
}
