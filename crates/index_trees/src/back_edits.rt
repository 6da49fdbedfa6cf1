//! The edits of the back-index, for documents that were written.

ghost use Rattle.std.specs.Prelude.{◌≡◌, ◌++◌, map, IfOk, IsPermutation, IsSorted, OnOk};
ghost use Rattle.json_terms.specs.Emitted.{key_value};
ghost use Rattle.raw_collation.specs.Sorting.{sorted_rows};
ghost use Rattle.view_model.specs.Rows.{rows_from};
ghost use Rattle.reduce_tree.specs.Applied.{edit_key};
ghost use Rattle.index_items.specs.BackIndex.{back_row};
ghost use Rattle.index_items.specs.BackItem.{entry_cmp};
ghost use Rattle.index_trees.specs.Edits.{back_edits, entry_edits, new_places};

use index_items::{BackItem, BackRow, BackRows};
use json_terms::{Chars, Emission, Emissions, NoMemory, Row};
use raw_collation::sort_rows;
use reduce_tree::Edit;
use row_exchange::{DocRows, add_rows};
use std::alloc::Global;
use std::cmp::Ordering;
use tree_laws::Item;

/// The edits of the back-index, in order: the entry of each document with new rows is inserted, and that of one with only old rows is
/// removed. Where an entry is out of the bounds of an item, the error is want of memory too.
pub(crate) fn back_edits(
    alloc: Global,
    changes: &[DocRows],
    olds: &[BackRows],
) -> Result<Vec<Edit<BackItem>>, NoMemory>
    ensures edits { IfOk result (λ edits. IsPermutation (back_edits changes.now olds.now) edits.items) }
    ensures sorted { IfOk result (λ edits. IsSorted (λ a b. entry_cmp (edit_key a) (edit_key b)) edits.items) }
{
    let mut edits = Vec::new(alloc);
    for (change, old) in changes.iter().zip(olds) {
        add_edit(alloc, change, old.as_slice(), &mut edits)?;
    }
    edits.sort_unstable_by(compare);
    Ok(edits)
}

/// Edits go by the ids of their entries.
fn compare(a: &Edit<BackItem>, b: &Edit<BackItem>) -> Ordering
    ensures { result ≡ entry_cmp (edit_key a.now) (edit_key b.now) }
{
    a.key().cmp_item(b.key())
}

/// Adds the edit of one document, where it has old rows or new ones.
fn add_edit(
    alloc: Global,
    change: &DocRows,
    old: &[BackRow],
    edits: &mut Vec<Edit<BackItem>>,
) -> Result<(), NoMemory>
    ensures { OnOk result (edits.new.items ≡ edits.old.items
        ++ entry_edits change.now.id (new_places 0 change.now.id change.now.rows) old.now) }
{
    let places = new_places(alloc, change.id.as_str(), change.rows.as_slice())?;
    if !places.is_empty() {
        edits.push(Edit::Insert(item(alloc, &change.id, places)?))?;
    } else if !old.is_empty() {
        edits.push(Edit::Remove(item(alloc, &change.id, places)?))?;
    }
    Ok(())
}

/// The item of a document, where it is within the bounds of one.
fn item(alloc: Global, id: &Chars, rows: Vec<BackRow>) -> Result<BackItem, NoMemory>
    ensures { IfOk result (λ item. item ≡ record { id = id.now; rows = rows.items }) }
{
    match BackItem::new(alloc, id.copy(alloc)?, BackRows::from_vec(rows))? {
        Some(item) => Ok(item),
        None => Err(NoMemory),
    }
}

/// Where the new rows of a document stand, view by view. There are 65,536 views at most.
fn new_places(alloc: Global, id: &str, lists: &[Emissions]) -> Result<Vec<BackRow>, NoMemory>
    ensures { IfOk result (λ places. places.items ≡ new_places 0 id.now lists.now) }
{
    let mut places = Vec::new(alloc);
    for (view, emissions) in lists.iter().enumerate() {
        let Ok(view) = u16::try_from(view) else {
            return Err(NoMemory);
        };
        add_places(alloc, view, id, emissions.as_slice(), &mut places)?;
    }
    Ok(places)
}

/// Adds those in one view, in the order of its rows.
fn add_places(
    alloc: Global,
    view: u16,
    id: &str,
    emissions: &[Emission],
    places: &mut Vec<BackRow>,
) -> Result<(), NoMemory>
    ensures { OnOk result (places.new.items ≡ places.old.items
        ++ map (back_row view) (sorted_rows (rows_from 0 id.now (map key_value emissions.now)))) }
{
    let mut rows = Vec::new(alloc);
    add_rows(alloc, id, emissions, &mut rows)?;
    sort_rows(&mut rows);
    let mut new = places_of(alloc, view, rows)?;
    places.append(&mut new)?;
    Ok(())
}

/// Where these rows of a view stand.
fn places_of(alloc: Global, view: u16, rows: Vec<Row>) -> Result<Vec<BackRow>, NoMemory>
    ensures { IfOk result (λ places. places.items ≡ map (back_row view) rows.items) }
{
    let places: Vec<BackRow> = rows
        .into_iter()
        .map(|row| BackRow {
            view,
            key: row.key,
            place: row.place,
        })
        .collect(alloc)?;
    Ok(places)
}
