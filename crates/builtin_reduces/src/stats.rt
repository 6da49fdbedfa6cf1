//! What `_stats` tells of the numbers of two groups together.

ghost use Rattle.std.specs.Prelude.{◌≡◌, ◌∷◌, []};
ghost use Rattle.builtin_reduces.specs.Added.{merged, both, checked};
ghost use Rattle.builtin_reduces.specs.Values.{stats_of};

use crate::sum::{BuiltinSum, Stats};

/// What no numbers tell.
pub(crate) fn stats_of_none() -> Stats
    ensures { stats_of [] ≡ BuiltinSum.Stats result }
{
    Stats {
        sum: 0,
        count: 0,
        min: 0,
        max: 0,
        sumsqr: 0,
    }
}

/// What one number tells.
pub(crate) fn stats_of_one(number: i64) -> Stats
    ensures { stats_of (number ∷ []) ≡ BuiltinSum.Stats result }
{
    let size = u128::from(number.unsigned_abs());
    Stats {
        sum: i128::from(number),
        count: 1,
        min: number,
        max: number,
        sumsqr: size * size,
    }
}

/// What two groups tell together. A sum that doesn't fit becomes the number nearest to it that does.
pub(crate) fn merge(a: Stats, b: Stats) -> Stats
    ensures { result ≡ merged a b }
{
    if a.count == 0 {
        return b;
    }
    if b.count == 0 {
        return a;
    }
    merge_two(a, b)
}

/// What two groups of one row or more tell together.
fn merge_two(a: Stats, b: Stats) -> Stats
    ensures { result ≡ both a b }
{
    Stats {
        sum: a.sum.saturating_add(b.sum),
        count: a.count.saturating_add(b.count),
        min: a.min.min(b.min),
        max: a.max.max(b.max),
        sumsqr: a.sumsqr.saturating_add(b.sumsqr),
    }
}

/// The value, where the sum of the squares isn't too great.
pub(crate) fn check(stats: Stats) -> BuiltinSum
    ensures { result ≡ checked stats }
{
    if stats.sumsqr < u128::MAX {
        BuiltinSum::Stats(stats)
    } else {
        BuiltinSum::Overflow
    }
}
