//! The edits of the tree of a view, for documents that were written.

ghost use Rattle.std.specs.Prelude.{◌≡◌, ◌++◌, ◌&&◌, ℕ, List, filter, map, nat_eq, not, IfOk, IsPermutation, IsSorted, OnOk, slice_index_or, []};
ghost use Rattle.json_terms.specs.Emitted.{key_value};
ghost use Rattle.view_model.specs.Rows.{rows_from};
ghost use Rattle.reduce_tree.specs.Applied.{edit_key};
ghost use Rattle.reduce_tree.specs.declared.edit.Edit.TheVariants.{Insert, Remove};
ghost use Rattle.builtin_reduces.specs.Kept.{item_cmp};
ghost use Rattle.index_trees.specs.Edits.{is_replaced, row_at, row_edits, view_edits};

use builtin_reduces::RowItem;
use index_items::{BackRow, BackRows};
use json_terms::{Chars, Emission, NoMemory, Row, Term, copy_term};
use raw_collation::raw_cmp;
use reduce_tree::Edit;
use row_exchange::DocRows;
use std::alloc::Global;
use std::cmp::Ordering;
use tree_laws::Item;

/// The edits of a view's tree, in order: the new rows of each document are inserted, and those of its old ones are removed that no new
/// one replaces. Where a row is out of the bounds of an item, the error is want of memory too.
pub(crate) fn row_edits(
    alloc: Global,
    view: u16,
    changes: &[DocRows],
    olds: &[BackRows],
) -> Result<Vec<Edit<RowItem>>, NoMemory>
    ensures edits { IfOk result (λ edits. IsPermutation (view_edits view changes.now olds.now) edits.items) }
    ensures sorted { IfOk result (λ edits. IsSorted (λ a b. item_cmp (edit_key a) (edit_key b)) edits.items) }
{
    let mut edits = Vec::new(alloc);
    for (change, old) in changes.iter().zip(olds) {
        add_edits(alloc, view, change, old.as_slice(), &mut edits)?;
    }
    edits.sort_unstable_by(compare);
    Ok(edits)
}

/// Edits go by the order of the rows that they name.
fn compare(a: &Edit<RowItem>, b: &Edit<RowItem>) -> Ordering
    ensures { result ≡ item_cmp (edit_key a.now) (edit_key b.now) }
{
    a.key().cmp_item(b.key())
}

/// Adds those of one document.
fn add_edits(
    alloc: Global,
    view: u16,
    change: &DocRows,
    old: &[BackRow],
    edits: &mut Vec<Edit<RowItem>>,
) -> Result<(), NoMemory>
    ensures { OnOk result (edits.new.items ≡ edits.old.items ++ row_edits view change.now old.now) }
{
    let emissions = emissions_of(change, view);
    let id = change.id.as_str();
    add_insertions(alloc, id, emissions, edits)?;
    add_removals(alloc, view, id, emissions, old, edits)
}

/// What the map function of a view emitted.
fn emissions_of(change: &DocRows, view: u16) -> &[Emission]
    ensures { map key_value result.now ≡ slice_index_or change.now.rows view [] }
{
    match change.rows.as_slice().get(view as usize) {
        Some(emissions) => emissions.as_slice(),
        None => &[],
    }
}

/// Adds the edits that insert the rows of these emissions.
fn add_insertions(
    alloc: Global,
    id: &str,
    emissions: &[Emission],
    edits: &mut Vec<Edit<RowItem>>,
) -> Result<(), NoMemory>
    ensures { OnOk result (edits.new.items ≡ edits.old.items
        ++ map Insert (rows_from 0 id.now (map key_value emissions.now))) }
{
    for (place, emission) in emissions.iter().enumerate() {
        let Ok(place) = u32::try_from(place) else {
            return Err(NoMemory);
        };
        let row = Row {
            key: copy_term(alloc, &emission.key)?,
            id: Chars::from_text(alloc, id)?,
            place,
            value: copy_term(alloc, &emission.value)?,
        };
        edits.push(Edit::Insert(item(alloc, row)?))?;
    }
    Ok(())
}

/// Adds the edits that remove the old rows in the view, where no row of these emissions replaces them.
fn add_removals(
    alloc: Global,
    view: u16,
    id: &str,
    emissions: &[Emission],
    old: &[BackRow],
    edits: &mut Vec<Edit<RowItem>>,
) -> Result<(), NoMemory>
    ensures { OnOk result (edits.new.items ≡ edits.old.items ++ map (λ here. Remove (row_at id.now here))
        (filter (λ here. nat_eq here.view view && not (is_replaced (rows_from 0 id.now (map key_value emissions.now)) here)) old.now)) }
{
    for here in old {
        if here.view == view && !is_replaced(emissions, here) {
            let row = Row {
                key: copy_term(alloc, &here.key)?,
                id: Chars::from_text(alloc, id)?,
                place: here.place,
                value: Term::Null,
            };
            edits.push(Edit::Remove(item(alloc, row)?))?;
        }
    }
    Ok(())
}

/// Whether the row of one of these emissions takes the place of the one that stands there: that with its number could alone.
fn is_replaced(emissions: &[Emission], here: &BackRow) -> bool
    ensures { (id : List ℕ) → result ≡ is_replaced (rows_from 0 id (map key_value emissions.now)) here.now }
{
    match emissions.get(here.place as usize) {
        Some(emission) => raw_cmp(&emission.key, &here.key).is_eq(),
        None => false,
    }
}

/// The row as an item, where it is within the bounds of one.
fn item(alloc: Global, row: Row) -> Result<RowItem, NoMemory>
    ensures { IfOk result (λ item. item ≡ row) }
{
    match RowItem::new(alloc, row)? {
        Some(item) => Ok(item),
        None => Err(NoMemory),
    }
}
