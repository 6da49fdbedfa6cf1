//! The rows of a document, read from an answer.

ghost use Rattle.std.specs.Prelude.{◌≡◌, IfOk, List, map, option_map, option_and_then};
ghost use Rattle.json_terms.specs.Emitted.{key_value};
ghost use Rattle.json_terms.specs.Json.{Json, items_of};
ghost use Rattle.json_terms.specs.Kinds.{items_in, two_in};
ghost use Rattle.json_terms.specs.Seen.{json};
ghost use Rattle.query_protocol.specs.Replies as spec;

use crate::parts::{is_within_bounds, two_of};
use json_terms::{Emission, Emissions, NoMemory, RowLists, Term, copy_term};
use std::alloc::Global;

/// The rows of each function, in an array of so many arrays of `[KEY,VALUE]`.
pub fn lists_in(alloc: Global, count: u32, term: &Term) -> Result<Option<RowLists>, NoMemory>
    ensures { IfOk result (λ lists. lists ≡ spec.lists_in count (json term.now)) }
{
    let Some(terms) = term.as_array() else {
        return Ok(None);
    };
    match lists_of(alloc, terms)? {
        Some(lists) => {
            if lists.len() == count as usize {
                Ok(Some(lists))
            } else {
                Ok(None)
            }
        }
        None => Ok(None),
    }
}

fn lists_of(alloc: Global, terms: &[Term]) -> Result<Option<RowLists>, NoMemory>
    ensures { IfOk result (λ lists. lists ≡ spec.lists_of_items (items_of (map json terms.now))) }
{
    let mut lists = RowLists::new(alloc);
    for term in terms {
        let Some(rows) = rows_in(alloc, term)? else {
            return Ok(None);
        };
        lists.push(rows)?;
    }
    Ok(Some(lists))
}

/// The rows in an array of `[KEY,VALUE]`.
fn rows_in(alloc: Global, term: &Term) -> Result<Option<Emissions>, NoMemory>
    ensures { IfOk result (λ rows. rows ≡ spec.rows_in (json term.now)) }
{
    let Some(terms) = term.as_array() else {
        return Ok(None);
    };
    rows_of(alloc, terms)
}

fn rows_of(alloc: Global, terms: &[Term]) -> Result<Option<Emissions>, NoMemory>
    ensures { IfOk result (λ rows. rows ≡ spec.rows_of_items (items_of (map json terms.now))) }
{
    let mut rows = Emissions::new(alloc);
    for term in terms {
        let Some(row) = row_in(alloc, term)? else {
            return Ok(None);
        };
        let Emission { key, value } = row;
        rows.push(key, value)?;
    }
    Ok(Some(rows))
}

/// `[KEY,VALUE]` within the bounds.
fn row_in(alloc: Global, term: &Term) -> Result<Option<Emission>, NoMemory>
    ensures { IfOk result (λ row. option_map key_value row ≡ spec.row_in (json term.now)) }
{
    let Some((key, value)) = two_of(term) else {
        return Ok(None);
    };
    if !is_within_bounds(alloc, key)? || !is_within_bounds(alloc, value)? {
        return Ok(None);
    }
    Ok(Some(Emission {
        key: copy_term(alloc, key)?,
        value: copy_term(alloc, value)?,
    }))
}
