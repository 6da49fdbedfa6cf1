//! A built-in reduce as the values of lists of rows.

ghost use Rattle.std.specs.Prelude.{◌≡◌, ◌↔◌, IsTrue};
ghost use Rattle.builtin_reduces.specs.BuiltinMeaning.{FailsSumming, builtin_meaning, kind_of};
ghost use Rattle.builtin_reduces.specs.SumFits.{FitsUnder, IsUnder};

use crate::item::RowItem;
use crate::joins::join;
use crate::leaves::leaf_of_items;
use crate::sum::BuiltinSum;
use crate::sum_bytes::{put_sum, read_sum};
use design_docs::Builtin;
use json_terms::NoMemory;
use std::alloc::Global;
use tree_laws::{ItemFault, Summer};

/// A built-in reduce as the values of lists of rows, in a tree whose items are rows.
///
/// In bytes a value is a byte for its kind and behind it its numbers: 0 a count, 1 a number, 2 a list of numbers behind its
/// length in 4 bytes, 3 what `_stats` tells (the sum, how many there are, the least, the greatest, and the sum of the
/// squares), 4 a value that is refused, 5 one that is too great. Each number has 16 bytes, in two's complement where it may
/// be negative. The low byte comes first.
///
/// Only what the reduce may give has bytes: `_count` gives a count; `_sum` a number, or a list of one number at least and
/// 524,287 at most; `_stats` what it tells, where the sum of the squares is less than 2^128 - 1, or a value that is too great.
/// The latter two also give one that is refused. `leaf` answers no other value, nor does `join` of parts that have bytes. For
/// any other value `encode_sum` answers want of memory, and for its bytes `decode_sum` answers `ItemFault`.
///
/// `leaf` and `join` take memory under `_sum` alone. No call changes the summer, even one that answers want of memory.
#[derive(Clone, Copy, Debug)]
pub struct BuiltinSummer {
    kind: Builtin,
}

impl BuiltinSummer {
    pub fn new(kind: Builtin) -> BuiltinSummer
        ensures kind { kind_of result ≡ kind }
        ensures meaning { ⟦<BuiltinSummer as Summer>⟧.meaning result ≡ builtin_meaning kind }
    {
        BuiltinSummer { kind }
    }
}

impl Summer for BuiltinSummer {
    ghost use Rattle.builtin_reduces.specs.SummerLaws.{same_are_steps, same_keeps, same_stays_caused, sums_spelled_once_under, sums_are_short};
    ghost use Rattle.tree_laws.specs.Meaning.{nothing_noted};

    type Unit = RowItem;

    type Sum = BuiltinSum;

    type Fault = NoMemory;

    ghost meaning = { λ summer. builtin_meaning (kind_of summer) };

    ghost lawful = { λ summer. Unit {0} };

    ghost usable = { λ summer. Unit {0} };

    ghost fits = { λ summer. FitsUnder (kind_of summer) };

    ghost goes = { λ a b. b ≡ a };

    ghost fails = { λ a b fault. FailsSumming a b };

    ghost asked = { λ a b items. Unit {0} };

    ghost gave = { λ a b sum. Unit {0} };

    fn leaf(&mut self, alloc: Global, items: &[RowItem]) -> Result<BuiltinSum, NoMemory> {
        leaf_of_items(alloc, self.kind, items)
    }

    fn join(&mut self, alloc: Global, parts: &[BuiltinSum]) -> Result<BuiltinSum, NoMemory> {
        join(alloc, self.kind, parts)
    }

    fn encode_sum(
        &self,
        alloc: Global,
        sum: &BuiltinSum,
        out: &mut Vec<u8>,
    ) -> Result<(), NoMemory> {
        if !is_under(self.kind, sum) {
            return Err(NoMemory);
        }
        let mut bytes = Vec::new(alloc);
        put_sum(sum, &mut bytes)?;
        out.extend_from_slice(bytes.as_slice())?;
        Ok(())
    }

    fn decode_sum(
        &self,
        alloc: Global,
        bytes: &[u8],
    ) -> Result<Result<BuiltinSum, ItemFault>, NoMemory> {
        let Some(sum) = read_sum(alloc, bytes)? else {
            return Ok(Err(ItemFault));
        };
        if is_under(self.kind, &sum) {
            Ok(Ok(sum))
        } else {
            Ok(Err(ItemFault))
        }
    }

    ghost are_steps = { same_are_steps };

    ghost keeps = { same_keeps _ _ _ _ };

    ghost stays_caused = { same_stays_caused (λ a b fault. FailsSumming a b) };

    ghost stays_asked = { nothing_noted _ _ };

    ghost stays_given = { nothing_noted _ _ };

    ghost one_spelling = { λ summer. sums_spelled_once_under (kind_of summer) };

    ghost is_short = { λ summer. sums_are_short (kind_of summer) };
}

/// Whether the reduce gives values of this kind.
fn is_under(kind: Builtin, sum: &BuiltinSum) -> bool
    ensures { IsTrue result ↔ IsUnder kind sum.now }
{
    match sum {
        BuiltinSum::Count(_) => kind == Builtin::Count,
        BuiltinSum::Number(_) | BuiltinSum::Numbers(_) => kind == Builtin::Sum,
        BuiltinSum::Stats(_) | BuiltinSum::Overflow => kind == Builtin::Stats,
        BuiltinSum::Refused => kind != Builtin::Count,
    }
}
