//! The rows that are inserted.

use crate::words::{Order, Task};
use builtin_reduces::RowItem;
use json_terms::NoMemory;
use reduce_tree::Edit;
use std::alloc::Global;
use tree_laws::Item;
use tree_tools::text_item;

/// The value of each row, with which it has 100 bytes.
const VALUE: &str =
    "a value of seventy-eight bytes, so that a row has a hundred with its key, its id..";

/// The key that comes at a place. No two places below 2^32 have the same.
pub fn key_at(order: Order, place: u32) -> i64 {
    match order {
        Order::Rising => place as i64,
        Order::Random | Order::Sort => mixed(place) as i64,
    }
}

/// A number that looks like chance: a mere multiple would spread the rows of a batch evenly over the tree. No two places have the
/// same, since each step can be undone.
fn mixed(place: u32) -> u32 {
    let folded = (place ^ (place >> 16)).wrapping_mul(0x7feb_352d);
    let folded = (folded ^ (folded >> 15)).wrapping_mul(0x846c_a68b);
    folded ^ (folded >> 16)
}

/// The keys of so many places, sorted.
pub fn sorted_keys(
    alloc: Global,
    order: Order,
    first: u32,
    count: u32,
) -> Result<Vec<i64>, NoMemory> {
    let mut keys = Vec::new(alloc);
    for place in 0..count {
        keys.push(key_at(order, first.wrapping_add(place)))?;
    }
    keys.sort_unstable();
    Ok(keys)
}

/// The row that comes at a place.
pub fn row_at(alloc: Global, order: Order, place: u32) -> Result<RowItem, NoMemory> {
    text_item(alloc, key_at(order, place), VALUE)
}

/// An insertion of each of these keys.
pub fn insertions(alloc: Global, keys: &[i64]) -> Result<Vec<Edit<RowItem>>, NoMemory> {
    let mut edits = Vec::new(alloc);
    for key in keys {
        edits.push(Edit::Insert(text_item(alloc, *key, VALUE)?))?;
    }
    Ok(edits)
}

/// Sorts the rows and spells each once, which any way of keeping them has to do. It answers the number of bytes.
pub fn sort_and_spell(alloc: Global, task: &Task) -> Result<usize, NoMemory> {
    let keys = sorted_keys(alloc, task.order, 0, task.items)?;
    let mut bytes = Vec::new(alloc);
    for key in &keys {
        text_item(alloc, *key, VALUE)?.encode(alloc, &mut bytes)?;
    }
    Ok(bytes.len())
}
