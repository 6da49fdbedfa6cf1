//! The rows that a reduce function is given.

ghost use Rattle.std.specs.Prelude.{◌≡◌, List, IfOk, map, option_map, option_and_then};
ghost use Rattle.json_terms.specs.Json.{items_of};
ghost use Rattle.json_terms.specs.Kinds.{two_in, items_in};
ghost use Rattle.json_terms.specs.Seen.{json};
ghost use Rattle.view_ports.specs.ReduceRow.{reduce_row, json2_now};
ghost use Rattle.view_ports.specs.Commands as spec;

use json_terms::{NoMemory, Row, Term, copy_term};
use std::alloc::Global;
use std::marker::Model;

/// Rows for a reduce function, seen by contracts as the list of keys with ids, and values. Their places are 0.
#[derive(Drop)]
pub struct ReduceRows {
    rows: Vec<Row>,
}

impl Model for ReduceRows {
    ghost use Rattle.std.specs.Prelude.{List, map};
    ghost use Rattle.std.specs.Coded.{coded_list, coded×, coded_ℕ};
    ghost use Rattle.json_terms.specs.Json.{Json};
    ghost use Rattle.json_terms.specs.Code.{coded_json};
    ghost use Rattle.view_ports.specs.ReduceRow.{ReduceRow, reduce_row};

    ghost Value = { List ReduceRow };

    ghost coded = { coded_list (coded× (coded× coded_json (coded_list coded_ℕ)) coded_json) };

    ghost view = { λ r. map reduce_row r.rows.items };
}

impl ReduceRows {
    /// The rows in an array of `[[KEY,ID],VALUE]` elements, or none where the array is empty or another element stands
    /// in it. The one error is want of memory.
    pub fn read(alloc: Global, term: &Term) -> Result<Option<ReduceRows>, NoMemory>
        ensures { IfOk result (λ rows. rows ≡ spec.rows_in (json term.now)) }
    {
        let Term::Array(terms) = term else {
            return Ok(None);
        };
        let Some(rows) = read_rows(alloc, terms.as_slice())? else {
            return Ok(None);
        };
        if rows.is_empty() {
            return Ok(None);
        }
        Ok(Some(ReduceRows { rows }))
    }

    pub fn as_slice(&self) -> &[Row]
        ensures { map reduce_row result.now ≡ self.now }
    {
        self.rows.as_slice()
    }
}

fn read_rows(alloc: Global, terms: &[Term]) -> Result<Option<Vec<Row>>, NoMemory>
    ensures { IfOk result (λ rows. option_map (λ rows.
        map reduce_row rows.items) rows ≡ spec.reduce_rows_of (items_of (map json terms.now))) }
{
    let mut rows = Vec::with_capacity(alloc, terms.len())?;
    for term in terms {
        let Some(row) = read_row(alloc, term)? else {
            return Ok(None);
        };
        rows.push(row)?;
    }
    Ok(Some(rows))
}

fn read_row(alloc: Global, term: &Term) -> Result<Option<Row>, NoMemory>
    ensures { IfOk result (λ row. option_map reduce_row row ≡ spec.reduce_row_in (json term.now)) }
{
    let Some((key, value)) = two_of(term) else {
        return Ok(None);
    };
    let Some((key, Term::Text(id))) = two_of(key) else {
        return Ok(None);
    };
    Ok(Some(Row {
        key: copy_term(alloc, key)?,
        id: id.copy(alloc)?,
        place: 0,
        value: copy_term(alloc, value)?,
    }))
}

/// The elements of an array of two.
fn two_of(term: &Term) -> Option<(&Term, &Term)>
    ensures { option_map json2_now result ≡ option_and_then two_in (items_in (json term.now)) }
{
    let Term::Array(terms) = term else {
        return None;
    };
    let terms = terms.as_slice();
    if terms.len() != 2 {
        return None;
    }
    Some((&terms[0], &terms[1]))
}
