//! By how much of their keys rows are grouped (CouchDB's view API, `group` and `group_level`).

ghost use Rattle.std.specs.Prelude.{◌≡◌, ◌↔◌, IsTrue, IfOk, map, take};
ghost use Rattle.json_terms.specs.Json.{items_of};
ghost use Rattle.json_terms.specs.Seen.{json};
ghost use Rattle.raw_collation.specs.Collation.{items_cmp};
ghost use Rattle.raw_collation.specs.Groups.{first_items, by_first, group_of};

use crate::compare::{compare_items, raw_cmp};
use json_terms::{NoMemory, Term, Terms, copy_term};
use std::alloc::Global;

/// By how much of their keys rows are grouped.
#[derive(Clone, Copy, Debug, PartialEq, Eq)]
pub enum Level {
    /// By nothing: all rows are one group.
    All,
    /// By this many first elements of a key that is an array, and by any other key whole.
    First(u32),
    /// By the whole key.
    Whole,
}

/// Whether the rows of two keys are of one group. It takes no memory.
pub fn same_group(level: Level, a: &Term, b: &Term) -> bool
    ensures { IsTrue result ↔ (group_of level (json a.now) ≡ group_of level (json b.now)) }
{
    match level {
        Level::All => true,
        Level::First(count) => match (a, b) {
            (Term::Array(xs), Term::Array(ys)) => {
                same_items(
                    first_of(count, xs.as_slice()),
                    first_of(count, ys.as_slice()),
                )
            }
            _ => same_terms(a, b),
        },
        Level::Whole => same_terms(a, b),
    }
}

fn same_terms(a: &Term, b: &Term) -> bool
    ensures { IsTrue result ↔ (json a.now ≡ json b.now) }
{
    raw_cmp(a, b).is_eq()
}

fn same_items(xs: &[Term], ys: &[Term]) -> bool
    ensures { IsTrue result ↔ (items_of (map json xs.now) ≡ items_of (map json ys.now)) }
{
    compare_items(xs, ys).is_eq()
}

/// The key of the group that a key's row is of: `null` where all rows are one group, the first elements of an array, or
/// the key itself. The one error is want of memory.
pub fn group_key(alloc: Global, level: Level, key: &Term) -> Result<Term, NoMemory>
    ensures { IfOk result (λ group. json group ≡ group_of level (json key.now)) }
{
    match (level, key) {
        (Level::All, _) => Ok(Term::Null),
        (Level::First(count), Term::Array(terms)) => {
            let first = copy_items(alloc, first_of(count, terms.as_slice()))?;
            Ok(Term::Array(first))
        }
        _ => copy_term(alloc, key),
    }
}

// so many terms from the front, or all where there are fewer
fn first_of(count: u32, terms: &[Term]) -> &[Term]
    ensures { items_of (map json result.now) ≡ first_items count (items_of (map json terms.now)) }
{
    let count = count as usize;
    if count < terms.len() {
        &terms[..count]
    } else {
        terms
    }
}

fn copy_items(alloc: Global, terms: &[Term]) -> Result<Terms, NoMemory>
    ensures { IfOk result (λ ts. ts ≡ map json terms.now) }
{
    let mut copies = Terms::with_capacity(alloc, terms.len())?;
    for term in terms {
        copies.push(copy_term(alloc, term)?)?;
    }
    Ok(copies)
}
