//! Whether a row is in the range of a query. Nothing here takes memory.

ghost use Rattle.std.specs.Prelude.{◌≡◌};
ghost use Rattle.json_terms.specs.Seen.{json};
ghost use Rattle.query_args.specs.Range as spec;

use crate::query::{Edge, Query};
use json_terms::{Chars, Term};
use raw_collation::raw_cmp;
use std::cmp::Ordering;

/// Whether a row with this key, of the document with this id, is in the range of a query.
pub fn in_range(query: &Query, key: &Term, id: &str) -> bool
    ensures { result ≡ spec.in_range query.now (json key.now) id.now }
{
    passes_start(query, key, id) && passes_end(query, key, id)
}

/// Whether the row is at the start of the range or past it, as the list is walked.
pub fn passes_start(query: &Query, key: &Term, id: &str) -> bool
    ensures { result ≡ spec.passes_start query.now (json key.now) id.now }
{
    match &query.start {
        None => true,
        Some(start) => is_past(query.descending, start, key, id),
    }
}

/// Whether the row isn't past the end of the range, as the list is walked.
pub fn passes_end(query: &Query, key: &Term, id: &str) -> bool
    ensures { result ≡ spec.passes_end query.now (json key.now) id.now }
{
    match &query.end {
        None => true,
        Some(end) => is_short(query.descending, end, key, id),
    }
}

fn is_past(descending: bool, start: &Edge, key: &Term, id: &str) -> bool
    ensures { result ≡ spec.is_past_start descending (Some start.now) (json key.now) id.now }
{
    match walked(descending, raw_cmp(key, &start.key)) {
        Ordering::Less => false,
        Ordering::Equal => is_from(descending, &start.id, id),
        Ordering::Greater => true,
    }
}

fn is_short(descending: bool, end: &Edge, key: &Term, id: &str) -> bool
    ensures { result ≡ spec.is_short_of_end descending (Some end.now) (json key.now) id.now }
{
    match walked(descending, raw_cmp(key, &end.key)) {
        Ordering::Less => true,
        Ordering::Equal if end.inclusive => is_up_to(descending, &end.id, id),
        Ordering::Equal => is_before(descending, &end.id, id),
        Ordering::Greater => false,
    }
}

fn is_from(descending: bool, first: &Option<Chars>, id: &str) -> bool
    ensures { result ≡ spec.is_from descending first.now id.now }
{
    match first {
        None => true,
        Some(first) => walked(descending, first.as_str().cmp(id)).is_le(),
    }
}

fn is_up_to(descending: bool, last: &Option<Chars>, id: &str) -> bool
    ensures { result ≡ spec.is_up_to descending last.now id.now }
{
    match last {
        None => true,
        Some(last) => walked(descending, id.cmp(last.as_str())).is_le(),
    }
}

fn is_before(descending: bool, last: &Option<Chars>, id: &str) -> bool
    ensures { result ≡ spec.is_before descending last.now id.now }
{
    match last {
        None => false,
        Some(last) => walked(descending, id.cmp(last.as_str())).is_lt(),
    }
}

/// An order as it is met, walking backwards or not.
fn walked(descending: bool, order: Ordering) -> Ordering
    ensures { result ≡ spec.walked descending order }
{
    if descending { order.reverse() } else { order }
}
