//! The documents that were written since a sequence, and their rows.

ghost use Rattle.std.specs.Prelude.{◌≡◌, ◌++◌, ℕ, List, [], All, IfOk, OnOk, map, replicate};
ghost use Rattle.doc_file.specs.Changes.{numbered, HasDocument};
ghost use Rattle.design_docs.specs.History.{Write};
ghost use Rattle.row_exchange.specs.Changed.{changed_rows};
ghost use Rattle.change_mapper.specs.Changed.{written_by, AreChangedOf};

use child_pool::{DocRowLists, Document};
use design_docs::is_design_id;
use doc_file::{Change, Changes};
use json_terms::{Chars, Emissions, NoMemory, RowLists};
use row_exchange::DocRows;
use std::alloc::Global;

/// The last write of an id: whether it left a document that views map.
#[derive(Drop)]
pub struct Written {
    pub id: Chars,
    pub is_mapped: bool,
}

/// The last writes since a sequence, in the order of their numbers, and the documents that views map of them.
#[derive(Drop)]
pub struct Changed {
    pub written: Vec<Written>,
    pub documents: Vec<Document>,
}

/// What these changes leave to be mapped.
pub fn changed_of(alloc: Global, changes: Changes) -> Result<Changed, NoMemory>
    requires { All HasDocument changes }
    ensures { IfOk result (AreChangedOf (map numbered changes)) }
{
    let mut written = Vec::new(alloc);
    let mut documents = Vec::new(alloc);
    for change in changes.into_vec() {
        let Change { seq: _, id, doc } = change;
        match doc {
            Some(document) if !is_design_id(id.as_str()) => {
                written.push(Written {
                    id,
                    is_mapped: true,
                })?;
                documents.push(Document::new(document))?;
            }
            _ => written.push(Written {
                id,
                is_mapped: false,
            })?,
        }
    }
    Ok(Changed { written, documents })
}

/// Adds the rows of each document that was written: the next of these lists for one that was mapped, and else none in each of so many
/// views.
pub fn add_rows(
    alloc: Global,
    written: Vec<Written>,
    lists: DocRowLists,
    views: usize,
    rows: &mut Vec<DocRows>,
) -> Result<(), NoMemory>
    ensures { (changes : List (ℕ × Write)) → written.items ≡ map written_by changes →
        OnOk result (rows.new.items ≡ rows.old.items ++ changed_rows views changes lists) }
{
    let mut lists = lists.into_vec().into_iter();
    for Written { id, is_mapped } in written {
        let own = if is_mapped {
            lists.next().unwrap_or(RowLists::new(alloc))
        } else {
            no_rows(alloc, views)?
        };
        rows.push(DocRows { id, rows: own })?;
    }
    Ok(())
}

/// No rows in each of so many views.
fn no_rows(alloc: Global, views: usize) -> Result<RowLists, NoMemory>
    ensures { IfOk result (λ rows. rows ≡ replicate views []) }
{
    let mut rows = RowLists::new(alloc);
    for _view in 0..views {
        rows.push(Emissions::new(alloc))?;
    }
    Ok(rows)
}
