//! Rows as what a tree keeps.

ghost use Rattle.std.specs.Prelude.{◌≡◌, ◌↔◌, IfOk, IfSome, IsTrue, Ok, None};
ghost use Rattle.builtin_reduces.specs.Kept.{IsKept, item_cmp};

use crate::item_bytes::{put_row, read_row};
use json_terms::{NoMemory, Row, copy_term};
use query_protocol::is_within_bounds;
use raw_collation::raw_cmp;
use std::alloc::Global;
use std::cmp::Ordering;
use std::marker::Model;
use tree_laws::{Item, ItemFault};

/// How many bytes the id of an item has at most.
const ID_LIMIT: usize = 524_288;

/// A row as what a tree keeps, seen by contracts as the row. Its key and its value are within the bounds of what a query
/// server may send, and its id has 524,288 bytes at most.
///
/// Items go by key, then by the id of their document in byte order, then by place. In bytes an item is the spelling of its
/// key, its id behind its length in 4 bytes, its place in 4 bytes, and the spelling of its value. The low byte of a number
/// comes first.
#[derive(Drop)]
pub struct RowItem {
    pub row: Row,
}

impl Model for RowItem {
    ghost use Rattle.json_terms.specs.declared.term.Row.{Row};
    ghost use Rattle.json_terms.specs.contracts.term.Row as kept_row;

    ghost Value = { Row };

    ghost coded = { kept_row.the_row.coded };

    ghost use Rattle.builtin_reduces.specs.Kept.{IsKept};

    ghost view = { λ item. item.row };

    ghost invariant = { λ item. IsKept item.row };
}

impl RowItem {
    /// The row as an item, where it is within the bounds. The one error is want of memory.
    pub fn new(alloc: Global, row: Row) -> Result<Option<RowItem>, NoMemory>
        ensures some { IfOk result (λ found. IfSome found (λ item. item ≡ row)) }
        ensures kept { IfOk result (λ found. IfSome found IsKept) }
        ensures none { result ≡ Ok None → IsKept row → ⊥ }
    {
        if is_kept(alloc, &row)? {
            Ok(Some(RowItem { row }))
        } else {
            Ok(None)
        }
    }
}

/// Whether the row is within the bounds.
fn is_kept(alloc: Global, row: &Row) -> Result<bool, NoMemory>
    ensures { IfOk result (λ kept. IsTrue kept ↔ IsKept row.now) }
{
    row.key.validity();
    row.value.validity();
    let _place = row.place;
    let short = row.id.as_str().len() <= ID_LIMIT;
    Ok(short && is_within_bounds(alloc, &row.key)? && is_within_bounds(alloc, &row.value)?)
}

impl Item for RowItem {
    ghost use Rattle.builtin_reduces.specs.Kept.{IsKept, item_cmp, item_bytes};
    ghost use Rattle.builtin_reduces.specs.ItemLaws.{item_cmp_total, items_spelled_once};

    ghost order = { item_cmp };

    ghost spelled = { item_bytes };

    ghost fits = { IsKept };

    fn cmp_item(&self, other: &RowItem) -> Ordering {
        compare_places(&self.row, &other.row)
    }

    fn copy_item(&self, alloc: Global) -> Result<RowItem, NoMemory> {
        Ok(RowItem {
            row: copy_row(alloc, &self.row)?,
        })
    }

    fn validity(&self) {
        let _row = &self.row;
    }

    fn encode(&self, alloc: Global, out: &mut Vec<u8>) -> Result<(), NoMemory> {
        let mut bytes = Vec::new(alloc);
        put_row(alloc, &self.row, &mut bytes)?;
        out.extend_from_slice(bytes.as_slice())?;
        Ok(())
    }

    fn decode(alloc: Global, bytes: &[u8]) -> Result<Result<RowItem, ItemFault>, NoMemory> {
        let Some(row) = read_row(alloc, bytes)? else {
            return Ok(Err(ItemFault));
        };
        match RowItem::new(alloc, row)? {
            Some(item) => Ok(Ok(item)),
            None => Ok(Err(ItemFault)),
        }
    }

    ghost is_total = { item_cmp_total };

    ghost one_spelling = { items_spelled_once };
}

fn compare_places(a: &Row, b: &Row) -> Ordering
    ensures { result ≡ item_cmp a.now b.now }
{
    let keys = raw_cmp(&a.key, &b.key);
    if keys.is_ne() {
        return keys;
    }
    let ids = a.id.as_str().cmp(b.id.as_str());
    if ids.is_ne() {
        return ids;
    }
    a.place.cmp(&b.place)
}

/// An equal row. The one error is want of memory.
pub fn copy_row(alloc: Global, row: &Row) -> Result<Row, NoMemory>
    ensures { IfOk result (λ copy. copy ≡ row.now) }
{
    Ok(Row {
        key: copy_term(alloc, &row.key)?,
        id: row.id.copy(alloc)?,
        place: row.place,
        value: copy_term(alloc, &row.value)?,
    })
}
