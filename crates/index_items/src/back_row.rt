//! Where the rows of a document stand.

ghost use Rattle.std.specs.Prelude.{◌≡◌, ◌↔◌, IfOk, IsTrue};
ghost use Rattle.index_items.specs.BackRows.{AreKeptRows, IsKeptRow};

use json_terms::{NoMemory, Term, copy_term};
use query_protocol::is_within_bounds;
use std::alloc::Global;
use std::marker::Model;

/// Where a row of a document stands.
#[derive(Drop)]
pub struct BackRow {
    /// The number of its view, among those of the index.
    pub view: u16,
    /// Its key.
    pub key: Term,
    /// Its place among the rows that the document gives to the view.
    pub place: u32,
}

/// Where the rows of a document stand, in order, seen as a list.
#[derive(Drop)]
pub struct BackRows {
    list: Vec<BackRow>,
}

impl Model for BackRows {
    ghost use Rattle.std.specs.Prelude.{List};
    ghost use Rattle.std.specs.Coded.{coded_list};
    ghost use Rattle.index_items.specs.declared.back_row.BackRow.{BackRow};
    ghost use Rattle.index_items.specs.contracts.back_row.BackRow as kept_row;

    ghost Value = { List BackRow };

    ghost coded = { coded_list kept_row.the_row.coded };

    ghost view = { λ rows. rows.list.items };
}

impl BackRows {
    /// The rows of a list, which takes no memory.
    pub fn from_vec(list: Vec<BackRow>) -> BackRows
        ensures { result ≡ list.items }
    {
        BackRows { list }
    }

    /// The rows as a list of their own, which takes no memory.
    pub fn into_vec(self) -> Vec<BackRow>
        ensures { result.items ≡ self }
    {
        let BackRows { list } = self;
        list
    }

    /// The rows.
    pub fn as_slice(&self) -> &[BackRow]
        ensures { result.now ≡ self.now }
    {
        self.list.as_slice()
    }
}

/// Whether the rows are within the bounds of an item. The one error is want of memory.
pub(crate) fn are_kept(alloc: Global, rows: &[BackRow]) -> Result<bool, NoMemory>
    ensures { IfOk result (λ kept. IsTrue kept ↔ AreKeptRows rows.now) }
{
    if rows.len() > u32::MAX as usize {
        return Ok(false);
    }
    for row in rows {
        if !is_kept(alloc, row)? {
            return Ok(false);
        }
    }
    Ok(true)
}

fn is_kept(alloc: Global, row: &BackRow) -> Result<bool, NoMemory>
    ensures { IfOk result (λ kept. IsTrue kept ↔ IsKeptRow row.now) }
{
    row.key.validity();
    let _view = row.view;
    let _place = row.place;
    is_within_bounds(alloc, &row.key)
}

/// Equal rows. The one error is want of memory.
pub(crate) fn copy_rows(alloc: Global, rows: &[BackRow]) -> Result<BackRows, NoMemory>
    ensures { IfOk result (λ copies. copies ≡ rows.now) }
{
    let mut list = Vec::new(alloc);
    for row in rows {
        list.push(copy_row(alloc, row)?)?;
    }
    Ok(BackRows::from_vec(list))
}

fn copy_row(alloc: Global, row: &BackRow) -> Result<BackRow, NoMemory>
    ensures { IfOk result (λ copy. copy ≡ row.now) }
{
    Ok(BackRow {
        view: row.view,
        key: copy_term(alloc, &row.key)?,
        place: row.place,
    })
}
