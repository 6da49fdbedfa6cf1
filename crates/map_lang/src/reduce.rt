//! The five reduces.

ghost use Rattle.std.specs.Prelude.{◌≡◌, ◌≢◌, ◌<◌, ◌-◌, ◌^◌, min, map, length, [], IfOk, sum_by, slice_index_or};
ghost use Rattle.json_terms.specs.Seen.{json};
ghost use Rattle.map_lang.specs.Reduce.{reduce_named, reduce_of, rereduce_of, least, greatest, counted};

use json_terms::{NoMemory, Row, Term, copy_term};
use raw_collation::raw_cmp;
use std::alloc::Global;

/// What is made of the rows of a group.
#[derive(Clone, Copy, Debug, PartialEq, Eq)]
pub enum PickReduce {
    /// The number of rows, which ends at 2^63 - 1.
    Rows,
    /// The least value in raw order.
    Min,
    /// The greatest value in raw order.
    Max,
    /// The value of the first row.
    First,
    /// The value of the last row.
    Last,
}

/// The reduce that a source names: `rows`, `min`, `max`, `first` or `last`, and nothing else.
pub fn parse_reduce(source: &str) -> Option<PickReduce>
    ensures { result ≡ reduce_named source.now }
{
    if source == "rows" {
        Some(PickReduce::Rows)
    } else if source == "min" {
        Some(PickReduce::Min)
    } else if source == "max" {
        Some(PickReduce::Max)
    } else if source == "first" {
        Some(PickReduce::First)
    } else if source == "last" {
        Some(PickReduce::Last)
    } else {
        None
    }
}

/// Reduces the values of rows, of which there is one at least. The one error is want of memory.
pub fn run_reduce(alloc: Global, how: PickReduce, rows: &[Row]) -> Result<Term, NoMemory>
    requires { rows.now ≢ [] }
    ensures { IfOk result (λ term. json term ≡ reduce_of how
        (map (λ row. json row.value) rows.now)) }
{
    match how {
        PickReduce::Rows => Ok(Term::Int((rows.len() as u64).min(MOST) as i64)),
        PickReduce::Min => copy_term(alloc, &rows[least_of(rows)].value),
        PickReduce::Max => copy_term(alloc, &rows[greatest_of(rows)].value),
        PickReduce::First => copy_term(alloc, &rows[0].value),
        PickReduce::Last => copy_term(alloc, &rows[rows.len() - 1].value),
    }
}

/// Reduces the results of parts, of which there is one at least, in the order of the parts. The one error is want of
/// memory.
pub fn run_rereduce(alloc: Global, how: PickReduce, values: &[Term]) -> Result<Term, NoMemory>
    requires { values.now ≢ [] }
    ensures { IfOk result (λ term. json term ≡ rereduce_of how (map json values.now)) }
{
    match how {
        PickReduce::Rows => Ok(Term::Int(counted_together(values) as i64)),
        PickReduce::Min => copy_term(alloc, &values[least_of(values)]),
        PickReduce::Max => copy_term(alloc, &values[greatest_of(values)]),
        PickReduce::First => copy_term(alloc, &values[0]),
        PickReduce::Last => copy_term(alloc, &values[values.len() - 1]),
    }
}

// What holds a value: a row, or a value itself.
trait Valued {
    ghost use Rattle.json_terms.specs.Json.{Json};

    ghost value_of: { Self → Json };

    fn value(&self) -> &Term
        ensures { json result.now ≡ value_of self.now };
}

impl Valued for Row {
    ghost value_of = { λ row. json row.value };

    fn value(&self) -> &Term {
        &self.value
    }
}

impl Valued for Term {
    ghost value_of = { json };

    fn value(&self) -> &Term {
        self
    }
}

// The place of the first of the least values.
fn least_of<V: Valued>(holders: &[V]) -> usize
    requires { holders.now ≢ [] }
    ensures within { result < length holders.now }
    ensures least { (holder : V) → V.value_of (slice_index_or holders.now result holder) ≡ least
        (map V.value_of holders.now) }
{
    let mut best = 0;
    for place in 1..holders.len() {
        if raw_cmp(holders[best].value(), holders[place].value()).is_gt() {
            best = place;
        }
    }
    best
}

// The place of the first of the greatest values.
fn greatest_of<V: Valued>(holders: &[V]) -> usize
    requires { holders.now ≢ [] }
    ensures within { result < length holders.now }
    ensures greatest { (holder : V)
        → V.value_of (slice_index_or holders.now result holder) ≡ greatest
        (map V.value_of holders.now) }
{
    let mut best = 0;
    for place in 1..holders.len() {
        if raw_cmp(holders[place].value(), holders[best].value()).is_gt() {
            best = place;
        }
    }
    best
}

// The sum of the counts, which ends at the greatest `i64`.
fn counted_together(values: &[Term]) -> u64
    ensures { result ≡ min (sum_by counted (map json values.now)) (2 ^ 63 - 1) }
{
    let mut total: u64 = 0;
    for value in values {
        total = (total + count_of(value)).min(MOST);
    }
    total
}

// The number that a part gives, and 0 where it gives no number of 0 or more.
fn count_of(value: &Term) -> u64
    ensures value { result ≡ counted (json value.now) }
    ensures small { result < 2 ^ 63 }
{
    match value {
        Term::Int(number) if *number >= 0 => *number as u64,
        _ => 0,
    }
}

// The greatest number of rows that is told.
const MOST: u64 = 9_223_372_036_854_775_807;
