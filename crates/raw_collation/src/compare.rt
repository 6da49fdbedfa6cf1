//! The order of terms and of rows. Nothing here takes memory.

ghost use Rattle.std.specs.Prelude.{◌≡◌, map};
ghost use Rattle.json_terms.specs.Json.{items_of, members_of};
ghost use Rattle.json_terms.specs.Seen.{json, pair_of};
ghost use Rattle.raw_collation.specs.Collation.{kind, json_cmp, items_cmp, members_cmp, rows_cmp};

use json_terms::{Member, Row, Term};
use std::cmp::Ordering;

/// Compares two terms by the raw collation of CouchDB's documentation: numbers, `false`, `null`, `true`, objects,
/// arrays, texts, in this order.
///
/// Numbers compare by value, texts by their bytes, and arrays element by element. Objects compare member by member,
/// by name and then by value, which is this project's own definition. A proper prefix comes first.
#[cycle(compare)]
pub fn raw_cmp(a: &Term, b: &Term) -> Ordering
    ensures { result ≡ json_cmp (json a.now) (json b.now) }
{
    match (a, b) {
        (Term::Int(x), Term::Int(y)) => x.cmp(y),
        (Term::Object(x), Term::Object(y)) => compare_members(x.as_slice(), y.as_slice()),
        (Term::Array(x), Term::Array(y)) => compare_items(x.as_slice(), y.as_slice()),
        (Term::Text(x), Term::Text(y)) => x.as_str().cmp(y.as_str()),
        _ => kind_of(a).cmp(&kind_of(b)),
    }
}

#[cycle(compare)]
pub(crate) fn compare_items(xs: &[Term], ys: &[Term]) -> Ordering
    ensures { result ≡ items_cmp (items_of (map json xs.now)) (items_of (map json ys.now)) }
{
    for (x, y) in xs.iter().zip(ys) {
        let order = raw_cmp(x, y);
        if order.is_ne() {
            return order;
        }
    }
    xs.len().cmp(&ys.len())
}

#[cycle(compare)]
fn compare_members(ms: &[Member], ns: &[Member]) -> Ordering
    ensures { result ≡ members_cmp (members_of (map pair_of ms.now))
        (members_of (map pair_of ns.now)) }
{
    for (m, n) in ms.iter().zip(ns) {
        let names = m.name.as_str().cmp(n.name.as_str());
        if names.is_ne() {
            return names;
        }
        let values = raw_cmp(&m.value, &n.value);
        if values.is_ne() {
            return values;
        }
    }
    ms.len().cmp(&ns.len())
}

fn kind_of(term: &Term) -> u8
    ensures { result ≡ kind (json term.now) }
{
    match term {
        Term::Int(_) => 0,
        Term::False => 1,
        Term::Null => 2,
        Term::True => 3,
        Term::Object(_) => 4,
        Term::Array(_) => 5,
        Term::Text(_) => 6,
    }
}

/// Compares two rows by key, then by the id of their document in byte order, then by place. The value comes last, so
/// that only equal rows are `Equal`.
pub fn row_cmp(a: &Row, b: &Row) -> Ordering
    ensures { result ≡ rows_cmp a.now b.now }
{
    let keys = raw_cmp(&a.key, &b.key);
    if keys.is_ne() {
        return keys;
    }
    let ids = a.id.as_str().cmp(b.id.as_str());
    if ids.is_ne() {
        return ids;
    }
    let places = a.place.cmp(&b.place);
    if places.is_ne() {
        return places;
    }
    raw_cmp(&a.value, &b.value)
}
