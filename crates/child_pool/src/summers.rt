//! The reduces of a design's views as the values of lists of rows.

ghost use Rattle.std.specs.Prelude.{◌≡◌, All, IfOk, map};
ghost use Rattle.builtin_reduces.specs.SumFits.{FitsUnder};
ghost use Rattle.child_pool.specs.ViewSums.{FitsView, JoinsBuiltins};

use crate::child_sum::ChildSum;
use crate::child_summer::reduce_at;
use crate::pool_fault::PoolFault;
use crate::reduce_slot::ReduceSlot;
use crate::view_sum::{ViewSum, decode_view_sum, encode_view_sum};
use builtin_reduces::{BuiltinSum, BuiltinSummer, RowItem, join};
use design_docs::{Builtin, Design, Reduce};
use json_terms::{NoMemory, copy_term};
use std::alloc::Global;
use tree_laws::{ItemFault, Summer};
use view_ports::Servers;

/// The reduces of a design's views as the values of lists of rows, one view at a time: a built-in reduce as that, one that a
/// query server runs through the children of a pool, and nothing for a view without one.
///
/// The child is reset before it is asked first, whatever the view. Rows and values are cut in parts of 32 a line. A refusal stops
/// all children of the pool, and nothing more is asked then: the further calls for reduces by a query server answer want of memory.
#[derive(Drop)]
pub struct Summers<'a, 'd, C: Servers> {
    /// The slot whose child reduces.
    pub slot: ReduceSlot<'a, C>,
    /// The design that has the views.
    pub design: &'d Design,
    /// The view to which they are turned.
    pub view: u32,
}

impl<'a, 'd, C: Servers> Summers<'a, 'd, C> {
    /// Turns to a view of the design. Where the design has no such view there is no reduce.
    pub fn summer(&mut self, view: u32) -> &mut Summers<'a, 'd, C>
        ensures same { result.ghost_name ≡ self.entry.ghost_name }
        ensures slot { result.now.slot ≡ self.old.slot }
        ensures design { result.now.design ≡ self.old.design }
        ensures view { result.now.view ≡ view }
    {
        self.view = view;
        self
    }
}

impl<'a, 'd, C: Servers> Summer for Summers<'a, 'd, C> {
    ghost use Rattle.child_pool.specs.SummerLaws.{fits, lawful, means, summers_keep, summers_stay_caused, summers_steps, usable};
    ghost use Rattle.child_pool.specs.Summers.{SummersFail, SummersGo, reduce_of};
    ghost use Rattle.child_pool.specs.ViewSumLaws.{view_sums_are_short, view_sums_spelled_once};
    ghost use Rattle.tree_laws.specs.Meaning.{nothing_noted};

    type Unit = RowItem;

    type Sum = ViewSum;

    type Fault = PoolFault;

    ghost meaning = { means C.Servers };

    ghost lawful = { lawful C.Servers };

    ghost usable = { usable C.Servers };

    ghost fits = { fits C.Servers };

    ghost goes = { λ a b. SummersGo C.Servers a b };

    ghost fails = { λ a b fault. SummersFail C.Servers a b fault };

    ghost asked = { λ a b items. Unit {0} };

    ghost gave = { λ a b sum. Unit {0} };

    fn leaf(&mut self, alloc: Global, items: &[RowItem]) -> Result<ViewSum, PoolFault> {
        match reduce_at(self.design, self.view) {
            Some(Reduce::Source(source)) => {
                let language = self.design.language.as_str();
                match self.slot.reduce(alloc, language, source.as_str(), items) {
                    Ok(value) => Ok(ViewSum::Child(ChildSum::of(value))),
                    Err(fault) => Err(fault),
                }
            }
            Some(Reduce::Builtin(kind)) => match BuiltinSummer::new(*kind).leaf(alloc, items) {
                Ok(sum) => Ok(ViewSum::Builtin(sum)),
                Err(NoMemory) => Err(PoolFault::NoMemory),
            },
            Some(Reduce::Absent) | None => Ok(ViewSum::Nothing),
        }
    }

    fn join(&mut self, alloc: Global, parts: &[ViewSum]) -> Result<ViewSum, PoolFault> {
        match reduce_at(self.design, self.view) {
            Some(Reduce::Source(source)) => {
                let language = self.design.language.as_str();
                let Ok(values) = children_of(alloc, parts) else {
                    return Err(self.slot.spend());
                };
                match self
                    .slot
                    .rereduce(alloc, language, source.as_str(), values.as_slice())
                {
                    Ok(value) => Ok(ViewSum::Child(ChildSum::of(value))),
                    Err(fault) => Err(fault),
                }
            }
            Some(Reduce::Builtin(kind)) => match join_builtins(alloc, *kind, parts) {
                Ok(sum) => Ok(ViewSum::Builtin(sum)),
                Err(NoMemory) => Err(PoolFault::NoMemory),
            },
            Some(Reduce::Absent) | None => Ok(ViewSum::Nothing),
        }
    }

    fn encode_sum(&self, alloc: Global, sum: &ViewSum, out: &mut Vec<u8>) -> Result<(), NoMemory> {
        encode_view_sum(alloc, self.design, self.view, sum, out)
    }

    fn decode_sum(
        &self,
        alloc: Global,
        bytes: &[u8],
    ) -> Result<Result<ViewSum, ItemFault>, NoMemory> {
        decode_view_sum(alloc, self.design, self.view, bytes)
    }

    ghost are_steps = { summers_steps C.Servers };

    ghost keeps = { summers_keep C.Servers };

    ghost stays_caused = { summers_stay_caused C.Servers };

    ghost stays_asked = { nothing_noted _ _ };

    ghost stays_given = { nothing_noted _ _ };

    ghost one_spelling = { λ summers. view_sums_spelled_once (reduce_of C.Servers summers) };

    ghost is_short = { λ summers. view_sums_are_short (reduce_of C.Servers summers) };
}

/// The values of a built-in reduce joined. Where one is of another kind, the error is want of memory too.
fn join_builtins(alloc: Global, kind: Builtin, parts: &[ViewSum]) -> Result<BuiltinSum, NoMemory>
    ensures value { IfOk result (JoinsBuiltins kind parts.now) }
    ensures fits { All (FitsView (Reduce.Builtin kind)) parts.now → IfOk result (FitsUnder kind) }
{
    let sums = builtins_of(alloc, parts)?;
    join(alloc, kind, sums.as_slice())
}

/// Copies of the values of a built-in reduce. Where one is of another kind, the error is want of memory too.
fn builtins_of(alloc: Global, parts: &[ViewSum]) -> Result<Vec<BuiltinSum>, NoMemory>
    ensures { IfOk result (λ sums. map ViewSum.Builtin sums.items ≡ parts.now) }
{
    let mut sums = Vec::new(alloc);
    for part in parts {
        let ViewSum::Builtin(sum) = part else {
            return Err(NoMemory);
        };
        sums.push(sum.copy(alloc)?)?;
    }
    Ok(sums)
}

/// Copies of the values of children. Where one is no such value, the error is want of memory too.
fn children_of(alloc: Global, parts: &[ViewSum]) -> Result<Vec<ChildSum>, NoMemory>
    ensures { IfOk result (λ sums. map ViewSum.Child sums.items ≡ parts.now) }
{
    let mut sums = Vec::new(alloc);
    for part in parts {
        let ViewSum::Child(sum) = part else {
            return Err(NoMemory);
        };
        sums.push(ChildSum::of(copy_term(alloc, &sum.term)?))?;
    }
    Ok(sums)
}
