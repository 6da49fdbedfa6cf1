//! The new rows of documents.

ghost use Rattle.std.specs.Prelude.{◌≡◌, ◌<◌, ◌++◌, [], map, IfOk, IsTrue, OnOk, slice_index_or};
ghost use Rattle.std.specs.List.{list_all};
ghost use Rattle.json_terms.specs.Emitted.{key_value};
ghost use Rattle.view_model.specs.Rows.{rows_from};
ghost use Rattle.row_exchange.specs.Replaced.{is_change, new_rows};
ghost use Rattle.row_exchange.specs.Rows.{is_row};

use crate::doc_rows::DocRows;
use json_terms::{Chars, Emission, NoMemory, Row, RowLists, copy_term};
use std::alloc::Global;

/// The new rows of one view, document by document in the order of the changes. The one error is want of memory.
pub fn new_rows(alloc: Global, changes: &[DocRows], view: usize) -> Result<Vec<Row>, NoMemory>
    ensures { IfOk result (λ rows. rows.items ≡ new_rows changes.now view) }
{
    let mut rows = Vec::new(alloc);
    for change in changes {
        add_document(alloc, change.id.as_str(), &change.rows, view, &mut rows)?;
    }
    Ok(rows)
}

/// Adds the rows that one map function emitted for a document.
fn add_document(
    alloc: Global,
    id: &str,
    lists: &RowLists,
    function: usize,
    rows: &mut Vec<Row>,
) -> Result<(), NoMemory>
    ensures { OnOk result (rows.new.items ≡ rows.old.items ++ rows_from 0 id.now
        (slice_index_or lists.now function [])) }
{
    match lists.as_slice().get(function) {
        Some(emissions) => add_rows(alloc, id, emissions.as_slice(), rows),
        None => Ok(()),
    }
}

/// Adds the rows of a document, numbered by place, of which there are fewer than 2^32. The one error is want of memory.
pub fn add_rows(
    alloc: Global,
    id: &str,
    emissions: &[Emission],
    rows: &mut Vec<Row>,
) -> Result<(), NoMemory>
    ensures { OnOk result (rows.new.items ≡ rows.old.items ++ rows_from 0 id.now
        (map key_value emissions.now)) }
{
    for (place, emission) in emissions.iter().enumerate() {
        let Ok(place) = u32::try_from(place) else {
            return Err(NoMemory);
        };
        rows.push(Row {
            key: copy_term(alloc, &emission.key)?,
            id: Chars::from_text(alloc, id)?,
            place,
            value: copy_term(alloc, &emission.value)?,
        })?;
    }
    Ok(())
}
