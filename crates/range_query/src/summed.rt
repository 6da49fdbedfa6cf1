//! The values of groups that a summer gives.

ghost use Rattle.std.specs.Prelude.{◌≡◌};

use crate::parts::group_sum;
use crate::print_value::PrintValue;
use builtin_reduces::RowItem;
use json_terms::Row;
use std::alloc::Global;
use tree_laws::Summer;
use view_model::{AnswerFault, GroupValues, Reply};

/// The values of groups that a summer gives.
#[derive(Drop)]
pub(crate) struct SummedValues<'a, M> {
    summer: &'a mut M,
}

impl<'a, M> SummedValues<'a, M> {
    pub(crate) fn new(summer: &'a mut M) -> SummedValues<'a, M>
        ensures same_reference { result.summer.ghost_name ≡ summer.entry.ghost_name }
        ensures same { result.summer.now ≡ summer.old }
    {
        SummedValues { summer }
    }
}

impl<'a, M: Summer<Unit = RowItem>> GroupValues for SummedValues<'a, M>
where
    M::Sum: PrintValue,
{
    ghost use Rattle.range_query.specs.Summed.{IsSummedText};
    ghost use Rattle.range_query.specs.Through.{Through, are_steps_through, keeps_through, stays_caused_through};

    type Fault = M::Fault;

    ghost is_value = { λ values. IsSummedText M.Sum.text (M.fits values.summer.now) (M.lawful values.summer.now) (M.meaning values.summer.now) };

    ghost goes = { Through (λ values. values.summer.ghost_name) (λ values. values.summer.now) M.goes };

    ghost fails = { λ a b fault. Through (λ values. values.summer.ghost_name) (λ values. values.summer.now) (λ x y. M.fails x y fault) a b };

    fn print(
        &mut self,
        alloc: Global,
        group: &[Row],
        reply: &mut Reply,
    ) -> Result<(), AnswerFault<M::Fault>> {
        let sum = group_sum(alloc, &mut *self.summer, group)?;
        sum.print_value(alloc, reply)?;
        Ok(())
    }

    ghost are_steps = { are_steps_through _ _ _ M.are_steps };

    ghost keeps = { keeps_through _ _ _ M.Sum.text _ _ _ _ M.keeps };

    ghost stays_caused = { stays_caused_through _ _ _ _ M.stays_caused };
}
