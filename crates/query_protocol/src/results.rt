//! The result of a reduction, read from an answer.

ghost use Rattle.std.specs.Prelude.{◌≡◌, IfOk, option_map};
ghost use Rattle.json_terms.specs.Seen.{json};
ghost use Rattle.query_protocol.specs.Replies as spec;

use crate::parts::{is_within_bounds, one_of, two_of};
use crate::reply::is_yes;
use json_terms::{NoMemory, Term, copy_term};
use std::alloc::Global;

/// The result in `[true,[RESULT]]`, within the bounds.
pub fn result_in(alloc: Global, term: &Term) -> Result<Option<Term>, NoMemory>
    ensures { IfOk result (λ value. option_map json value ≡ spec.result_in (json term.now)) }
{
    let Some((yes, results)) = two_of(term) else {
        return Ok(None);
    };
    if !is_yes(yes) {
        return Ok(None);
    }
    let Some(value) = one_of(results) else {
        return Ok(None);
    };
    if !is_within_bounds(alloc, value)? {
        return Ok(None);
    }
    Ok(Some(copy_term(alloc, value)?))
}
