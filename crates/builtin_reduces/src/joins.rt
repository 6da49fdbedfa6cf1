//! The value of several groups of rows as one.

ghost use Rattle.std.specs.Prelude.{◌≡◌, ◌≢◌, [], All, IfOk, IsOk};
ghost use Rattle.builtin_reduces.specs.Added.{IsFree, add_two, count_with, number_with, numbers_with, stats_with, overflow_with};
ghost use Rattle.builtin_reduces.specs.Joined.{IsJoined};
ghost use Rattle.builtin_reduces.specs.SumFits.{FitsUnder};
ghost use Rattle.builtin_reduces.specs.Values.{value_of};

use crate::stats::{check, merge, stats_of_none};
use crate::sum::{BuiltinSum, Stats, Sums};
use design_docs::Builtin;
use json_terms::NoMemory;
use std::alloc::Global;

/// The value of several groups of rows as one, from the values of the groups. The one error is want of memory, and `_count`
/// and `_stats` take none.
pub fn join(alloc: Global, kind: Builtin, parts: &[BuiltinSum]) -> Result<BuiltinSum, NoMemory>
    ensures value { IfOk result (IsJoined kind parts.now) }
    ensures fits { All (FitsUnder kind) parts.now → IfOk result (FitsUnder kind) }
    ensures free { kind ≢ Builtin.Sum → IsOk result }
{
    let mut total = value_of_none(kind);
    for part in parts {
        total = add(alloc, total, part)?;
    }
    Ok(total)
}

/// The value of no rows.
pub(crate) fn value_of_none(kind: Builtin) -> BuiltinSum
    ensures { result ≡ value_of kind [] }
{
    match kind {
        Builtin::Count => BuiltinSum::Count(0),
        Builtin::Sum => BuiltinSum::Number(0),
        Builtin::Stats => BuiltinSum::Stats(stats_of_none()),
    }
}

/// The value of two groups as one. Values of two kinds give one that is refused. Only sums of numbers take memory.
pub(crate) fn add(
    alloc: Global,
    total: BuiltinSum,
    part: &BuiltinSum,
) -> Result<BuiltinSum, NoMemory>
    ensures value { IfOk result (λ sum. sum ≡ add_two total part.now) }
    ensures free { IsFree total → IsOk result }
{
    match total {
        BuiltinSum::Count(count) => Ok(add_to_count(count, part)),
        BuiltinSum::Number(number) => add_to_number(alloc, number, part),
        BuiltinSum::Numbers(sums) => add_to_numbers(sums, part),
        BuiltinSum::Stats(stats) => Ok(add_to_stats(stats, part)),
        BuiltinSum::Refused => Ok(BuiltinSum::Refused),
        BuiltinSum::Overflow => Ok(add_to_overflow(part)),
    }
}

fn add_to_count(count: u64, part: &BuiltinSum) -> BuiltinSum
    ensures { result ≡ count_with count part.now }
{
    match part {
        BuiltinSum::Count(other) => BuiltinSum::Count(count.saturating_add(*other)),
        _ => BuiltinSum::Refused,
    }
}

fn add_to_number(alloc: Global, number: i128, part: &BuiltinSum) -> Result<BuiltinSum, NoMemory>
    ensures { IfOk result (λ sum. sum ≡ number_with number part.now) }
{
    match part {
        BuiltinSum::Number(other) => Ok(BuiltinSum::Number(number.saturating_add(*other))),
        BuiltinSum::Numbers(others) => {
            let mut sums = Sums::of_one(alloc, number)?;
            sums.add(others.as_slice())?;
            Ok(BuiltinSum::Numbers(sums))
        }
        _ => Ok(BuiltinSum::Refused),
    }
}

fn add_to_numbers(mut sums: Sums, part: &BuiltinSum) -> Result<BuiltinSum, NoMemory>
    ensures { IfOk result (λ sum. sum ≡ numbers_with sums part.now) }
{
    match part {
        BuiltinSum::Number(other) => sums.add(&[*other])?,
        BuiltinSum::Numbers(others) => sums.add(others.as_slice())?,
        _ => return Ok(BuiltinSum::Refused),
    }
    Ok(BuiltinSum::Numbers(sums))
}

fn add_to_stats(stats: Stats, part: &BuiltinSum) -> BuiltinSum
    ensures { result ≡ stats_with stats part.now }
{
    match part {
        BuiltinSum::Stats(other) => check(merge(stats, *other)),
        BuiltinSum::Overflow => BuiltinSum::Overflow,
        _ => BuiltinSum::Refused,
    }
}

fn add_to_overflow(part: &BuiltinSum) -> BuiltinSum
    ensures { result ≡ overflow_with part.now }
{
    match part {
        BuiltinSum::Stats(_) | BuiltinSum::Overflow => BuiltinSum::Overflow,
        _ => BuiltinSum::Refused,
    }
}
