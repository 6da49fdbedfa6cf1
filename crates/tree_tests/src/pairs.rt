//! Pairs of numbers as rows, and what edits leave of them.

use builtin_reduces::RowItem;
use reduce_tree::Edit;
use std::alloc::Global;
use std::collections::BTreeMap;
use std::test::Fail;
use tree_tools::item_of;

/// The edits in order: a key with a value is inserted, and one without is removed.
pub fn edits_of(
    alloc: Global,
    changes: &BTreeMap<i64, Option<i64>>,
) -> Result<Vec<Edit<RowItem>>, Fail> {
    let mut edits = Vec::new(alloc);
    for (key, value) in changes.iter() {
        match value {
            Some(value) => edits.push(Edit::Insert(item_of(alloc, *key, *value)?))?,
            None => edits.push(Edit::Remove(item_of(alloc, *key, 0)?))?,
        }
    }
    Ok(edits)
}

/// Makes the changes in a map, and answers how many keys were inserted.
pub fn change(
    pairs: &mut BTreeMap<i64, i64>,
    changes: &BTreeMap<i64, Option<i64>>,
) -> Result<u64, Fail> {
    let mut inserted: u64 = 0;
    for (key, value) in changes.iter() {
        match value {
            Some(value) => {
                pairs.insert(*key, *value)?;
                inserted = inserted.saturating_add(1);
            }
            None => {
                pairs.remove(key);
            }
        }
    }
    Ok(inserted)
}
