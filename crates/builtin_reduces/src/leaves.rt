//! The value of a group of rows.

ghost use Rattle.std.specs.Prelude.{◌≡◌, ◌≢◌, ◌∷◌, [], map, IfOk, IsOk, Option, Some, None, option_map};
ghost use Rattle.json_terms.specs.Seen.{json};
ghost use Rattle.builtin_reduces.specs.Seen.{values};
ghost use Rattle.builtin_reduces.specs.Added.{IsFree, add_two, places_or_refused};
ghost use Rattle.builtin_reduces.specs.SumFits.{FitsUnder};
ghost use Rattle.builtin_reduces.specs.Values.{value_of, each, number_in};

use crate::item::RowItem;
use crate::joins::{add, value_of_none};
use crate::stats::stats_of_one;
use crate::sum::{BuiltinSum, Sums};
use design_docs::Builtin;
use json_terms::{NoMemory, Row, Term};
use std::alloc::Global;

/// The value of a group of rows, from the values of the rows. The one error is want of memory, and `_count` and `_stats` take
/// none.
pub fn leaf(alloc: Global, kind: Builtin, rows: &[Row]) -> Result<BuiltinSum, NoMemory>
    ensures value { IfOk result (λ sum. sum ≡ value_of kind (values rows.now)) }
    ensures free { kind ≢ Builtin.Sum → IsOk result }
{
    let mut total = value_of_none(kind);
    for row in rows {
        row.value.validity();
        total = add_value(alloc, kind, total, &row.value)?;
    }
    Ok(total)
}

/// The same of rows that a tree keeps.
pub(crate) fn leaf_of_items(
    alloc: Global,
    kind: Builtin,
    items: &[RowItem],
) -> Result<BuiltinSum, NoMemory>
    ensures value { IfOk result (λ sum. sum ≡ value_of kind (values items.now)) }
    ensures fits { IfOk result (FitsUnder kind) }
    ensures free { kind ≢ Builtin.Sum → IsOk result }
{
    let mut total = value_of_none(kind);
    for item in items {
        let row = &item.row;
        row.value.validity();
        total = add_value(alloc, kind, total, &row.value)?;
    }
    Ok(total)
}

/// The value of a group with one row more.
fn add_value(
    alloc: Global,
    kind: Builtin,
    total: BuiltinSum,
    value: &Term,
) -> Result<BuiltinSum, NoMemory>
    ensures value { IfOk result (λ sum. sum ≡ add_two total (value_of kind (json value.now ∷ []))) }
    ensures free { kind ≢ Builtin.Sum → IsFree total → IsOk result }
{
    let part = value_of_one(alloc, kind, value)?;
    add(alloc, total, &part)
}

/// The value of one row.
fn value_of_one(alloc: Global, kind: Builtin, value: &Term) -> Result<BuiltinSum, NoMemory>
    ensures value { IfOk result (λ sum. sum ≡ value_of kind (json value.now ∷ [])) }
    ensures free { kind ≢ Builtin.Sum → IsOk result }
{
    match kind {
        Builtin::Count => Ok(BuiltinSum::Count(1)),
        Builtin::Sum => sum_or_refused(alloc, value),
        Builtin::Stats => Ok(stats_or_refused(value)),
    }
}

/// The value of one row under `_sum`.
fn sum_or_refused(alloc: Global, value: &Term) -> Result<BuiltinSum, NoMemory>
    ensures { IfOk result (λ sum. sum ≡ value_of Builtin.Sum (json value.now ∷ [])) }
{
    match value {
        Term::Int(number) => Ok(BuiltinSum::Number(i128::from(*number))),
        Term::Array(terms) => array_or_refused(alloc, terms.as_slice()),
        _ => Ok(BuiltinSum::Refused),
    }
}

fn array_or_refused(alloc: Global, terms: &[Term]) -> Result<BuiltinSum, NoMemory>
    ensures { IfOk result (λ sum. sum ≡ places_or_refused (each number_in (map json terms.now))) }
{
    let Some(mut numbers) = numbers_of(alloc, terms)? else {
        return Ok(BuiltinSum::Refused);
    };
    if numbers.is_empty() {
        numbers.push(0)?;
    }
    Ok(BuiltinSum::Numbers(Sums::new(numbers)))
}

/// The numbers that terms are, where they all are numbers.
fn numbers_of(alloc: Global, terms: &[Term]) -> Result<Option<Vec<i128>>, NoMemory>
    ensures { IfOk result (λ numbers. option_map (λ v. v.items) numbers ≡ each number_in
        (map json terms.now)) }
{
    let mut numbers = Vec::with_capacity(alloc, terms.len())?;
    for term in terms {
        let Term::Int(number) = term else {
            return Ok(None);
        };
        numbers.push(i128::from(*number))?;
    }
    Ok(Some(numbers))
}

/// The value of one row under `_stats`.
fn stats_or_refused(value: &Term) -> BuiltinSum
    ensures { result ≡ value_of Builtin.Stats (json value.now ∷ []) }
{
    match value {
        Term::Int(number) => BuiltinSum::Stats(stats_of_one(*number)),
        _ => BuiltinSum::Refused,
    }
}
