//! A reduce by a query server as the values of lists of rows.

ghost use Rattle.std.specs.Prelude.{◌≡◌, ◌≢◌, [], option_map};
ghost use Rattle.child_pool.specs.ReduceTalk.{or_absent, reduce_in, reduce_source};

use crate::child_sum::ChildSum;
use crate::pool::Pool;
use crate::pool_fault::PoolFault;
use crate::reduce_slot::ReduceSlot;
use builtin_reduces::RowItem;
use design_docs::{Design, Reduce};
use json_terms::NoMemory;
use std::alloc::Global;
use tree_laws::{ItemFault, Summer};
use view_ports::Servers;

/// A reduce by a query server as the values of lists of rows, in a tree whose items are rows.
///
/// The child is reset before it is asked first. Rows and values are cut in parts of 32 a line. A refusal stops all children of
/// the pool, and nothing more is asked then: the further calls answer want of memory. In bytes a value is the spelling of its
/// term.
#[derive(Drop)]
pub struct ChildSummer<'a, C: Servers> {
    slot: ReduceSlot<'a, C>,
    language: &'a str,
    source: &'a str,
}

impl<'a, C: Servers> ChildSummer<'a, C> {
    ghost use Rattle.child_pool.specs.Summers.{IsSlotOver};

    /// The reduce of a view of a design, which a query server runs, through the children of a pool.
    pub fn over(
        pool: &'a mut Pool,
        servers: &'a mut C,
        design: &'a Design,
        view: u32,
    ) -> ChildSummer<'a, C>
        requires { reduce_source (reduce_in design.now.views view) ≢ [] }
        ensures slot { IsSlotOver pool.entry servers.entry result.slot }
        ensures language { result.language.now ≡ design.now.language }
        ensures source { reduce_in design.now.views view ≡ Reduce.Source result.source.now }
    {
        match reduce_at(design, view) {
            Some(Reduce::Source(source)) => ChildSummer {
                slot: ReduceSlot::over(pool, servers),
                language: design.language.as_str(),
                source: source.as_str(),
            },
            _ => unreachable!(),
        }
    }
}

impl<'a, C: Servers> Summer for ChildSummer<'a, C> {
    ghost use Rattle.child_pool.specs.ChildSumLaws.{child_sums_are_short, child_sums_spelled_once};
    ghost use Rattle.child_pool.specs.SummerLaws.{child_keeps, child_lawful, child_stays_caused, child_steps, child_usable, meaning_of};
    ghost use Rattle.child_pool.specs.Summers.{ChildFails, ChildGoes};
    ghost use Rattle.view_ports.specs.Functions.{IsWithinBounds};
    ghost use Rattle.tree_laws.specs.Meaning.{nothing_noted};

    type Unit = RowItem;

    type Sum = ChildSum;

    type Fault = PoolFault;

    ghost meaning = { meaning_of C.Servers };

    ghost lawful = { child_lawful C.Servers };

    ghost usable = { child_usable C.Servers };

    ghost fits = { λ summer sum. IsWithinBounds sum };

    ghost goes = { λ a b. ChildGoes C.Servers a b };

    ghost fails = { λ a b fault. ChildFails C.Servers a b fault };

    ghost asked = { λ a b items. Unit {0} };

    ghost gave = { λ a b sum. Unit {0} };

    fn leaf(&mut self, alloc: Global, items: &[RowItem]) -> Result<ChildSum, PoolFault> {
        match self.slot.reduce(alloc, self.language, self.source, items) {
            Ok(value) => Ok(ChildSum::of(value)),
            Err(fault) => Err(fault),
        }
    }

    fn join(&mut self, alloc: Global, parts: &[ChildSum]) -> Result<ChildSum, PoolFault> {
        match self.slot.rereduce(alloc, self.language, self.source, parts) {
            Ok(value) => Ok(ChildSum::of(value)),
            Err(fault) => Err(fault),
        }
    }

    fn encode_sum(&self, alloc: Global, sum: &ChildSum, out: &mut Vec<u8>) -> Result<(), NoMemory> {
        sum.put(alloc, out)
    }

    fn decode_sum(
        &self,
        alloc: Global,
        bytes: &[u8],
    ) -> Result<Result<ChildSum, ItemFault>, NoMemory> {
        ChildSum::read(alloc, bytes)
    }

    ghost are_steps = { child_steps C.Servers };

    ghost keeps = { child_keeps C.Servers };

    ghost stays_caused = { child_stays_caused C.Servers };

    ghost stays_asked = { nothing_noted _ _ };

    ghost stays_given = { nothing_noted _ _ };

    ghost one_spelling = { λ summer. child_sums_spelled_once };

    ghost is_short = { λ summer. child_sums_are_short };
}

/// The reduce of a view of a design, where it has such a view.
pub(crate) fn reduce_at(design: &Design, view: u32) -> Option<&Reduce>
    ensures { or_absent (option_map (λ reduce. reduce.now) result) ≡ reduce_in design.now.views view }
{
    let view = design.views.as_slice().get(view as usize)?;
    Some(&view.reduce)
}
