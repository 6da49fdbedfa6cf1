//! Parts of an answer.

ghost use Rattle.std.specs.Prelude.{◌≡◌, IfOk, option_map, option_and_then};
ghost use Rattle.json_terms.specs.Json.{items_of};
ghost use Rattle.json_terms.specs.Kinds.{items_in, one_in, two_in};
ghost use Rattle.json_terms.specs.Seen.{json};
ghost use Rattle.view_ports.specs.ReduceRow.{json2_now};
ghost use Rattle.query_protocol.specs.Replies as spec;

use json_terms::{NoMemory, Term, depth_within, write_term};
use std::alloc::Global;
use view_ports::{PART_DEPTH, PART_LIMIT};

/// Whether a key, a value or a result is within the bounds: its text has 1,048,576 bytes at most, and its depth is 96 at most.
pub fn is_within_bounds(alloc: Global, term: &Term) -> Result<bool, NoMemory>
    ensures { IfOk result (λ within. within ≡ spec.is_within_bounds (json term.now)) }
{
    let mut text = Vec::new(alloc);
    write_term(alloc, term, &mut text)?;
    Ok(text.len() <= PART_LIMIT && depth_within(term, PART_DEPTH))
}

/// The element of an array of one.
pub fn one_of(term: &Term) -> Option<&Term>
    ensures { option_map (λ t. json t.now) result ≡ option_and_then one_in
        (items_in (json term.now)) }
{
    let Some(terms) = term.as_array() else {
        return None;
    };
    if terms.len() != 1 {
        return None;
    }
    Some(&terms[0])
}

/// The elements of an array of two.
pub fn two_of(term: &Term) -> Option<(&Term, &Term)>
    ensures { option_map json2_now result ≡ option_and_then two_in (items_in (json term.now)) }
{
    let Some(terms) = term.as_array() else {
        return None;
    };
    if terms.len() != 2 {
        return None;
    }
    Some((&terms[0], &terms[1]))
}
