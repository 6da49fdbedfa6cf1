//! The items of the back-index.

ghost use Rattle.std.specs.Prelude.{◌≡◌, ◌↔◌, IfOk, IfSome, IsTrue, Ok, None};
ghost use Rattle.index_items.specs.BackItem.{IsId, IsKeptEntry};

use crate::back_bytes::{put_entry, read_id, read_rows};
use crate::back_row::{BackRows, are_kept, copy_rows};
use json_terms::{Chars, NoMemory};
use std::alloc::Global;
use std::cmp::Ordering;
use std::marker::Model;
use tree_laws::{Item, ItemFault};

/// How many bytes the id of an item has at most.
pub(crate) const ID_LIMIT: usize = 524_288;

/// Where the rows of a document stand, as what a tree keeps. Its id has 524,288 bytes at most, each key is within the bounds of
/// what a query server may send, and there are fewer than 2^32 rows.
///
/// Items go by id in byte order. In bytes an item is its id behind its length in 4 bytes, the number of its rows in 4 bytes, and
/// of each row its view in 2 bytes, the spelling of its key, and its place in 4 bytes. The low byte of a number comes first.
#[derive(Drop)]
pub struct BackItem {
    pub id: Chars,
    pub rows: BackRows,
}

impl Model for BackItem {
    ghost use Rattle.index_items.specs.BackItem.{BackEntry, IsKeptEntry, entry_code};

    ghost Value = { BackEntry };

    ghost coded = { entry_code };

    ghost view = { λ item. record { id = item.id; rows = item.rows } };

    ghost invariant = { λ item. IsKeptEntry (record { id = item.id; rows = item.rows }) };
}

impl BackItem {
    /// The item of these rows, where it is within the bounds. The one error is want of memory.
    pub fn new(alloc: Global, id: Chars, rows: BackRows) -> Result<Option<BackItem>, NoMemory>
        ensures some { IfOk result
            (λ found. IfSome found (λ item. item ≡ record { id = id; rows = rows })) }
        ensures kept { IfOk result (λ found. IfSome found IsKeptEntry) }
        ensures none { result ≡ Ok None → IsKeptEntry (record { id = id; rows = rows }) → ⊥ }
    {
        if is_id(&id) && are_kept(alloc, rows.as_slice())? {
            Ok(Some(BackItem { id, rows }))
        } else {
            Ok(None)
        }
    }
}

fn is_id(id: &Chars) -> bool
    ensures { IsTrue result ↔ IsId id.now }
{
    id.as_str().len() <= ID_LIMIT
}

impl Item for BackItem {
    ghost use Rattle.index_items.specs.BackItem.{IsKeptEntry, entry_cmp, entry_bytes};
    ghost use Rattle.index_items.specs.BackLaws.{entry_cmp_total, entries_spelled_once};

    ghost order = { entry_cmp };

    ghost spelled = { entry_bytes };

    ghost fits = { IsKeptEntry };

    fn cmp_item(&self, other: &BackItem) -> Ordering {
        self.id.as_str().cmp(other.id.as_str())
    }

    fn copy_item(&self, alloc: Global) -> Result<BackItem, NoMemory> {
        Ok(BackItem {
            id: self.id.copy(alloc)?,
            rows: copy_rows(alloc, self.rows.as_slice())?,
        })
    }

    fn validity(&self) {
        let _id = &self.id;
    }

    fn encode(&self, alloc: Global, out: &mut Vec<u8>) -> Result<(), NoMemory> {
        let mut bytes = Vec::new(alloc);
        put_entry(alloc, self.id.as_str(), self.rows.as_slice(), &mut bytes)?;
        out.extend_from_slice(bytes.as_slice())?;
        Ok(())
    }

    fn decode(alloc: Global, bytes: &[u8]) -> Result<Result<BackItem, ItemFault>, NoMemory> {
        let Some((id, rest)) = read_id(alloc, bytes)? else {
            return Ok(Err(ItemFault));
        };
        let Some((rows, rest)) = read_rows(alloc, rest)? else {
            return Ok(Err(ItemFault));
        };
        if !rest.is_empty() {
            return Ok(Err(ItemFault));
        }
        Ok(Ok(BackItem { id, rows }))
    }

    ghost is_total = { entry_cmp_total };

    ghost one_spelling = { entries_spelled_once };
}
