//! The answer of a query of a view whose values a summer gives.

ghost use Rattle.std.specs.Prelude.{◌≡◌, [], false, IsSorted, IfErr, OnOk};
ghost use Rattle.raw_collation.specs.Collation.{rows_cmp};
ghost use Rattle.view_model.specs.Adding.{AddsAnswer};
ghost use Rattle.view_model.specs.Groups.{picked_groups};
ghost use Rattle.view_model.specs.GroupValues.{IsCaused};
ghost use Rattle.view_model.specs.Written.{KeepsBefore};
ghost use Rattle.range_query.specs.Summed.{IsSummedText};

use crate::print_value::PrintValue;
use crate::summed::SummedValues;
use builtin_reduces::RowItem;
use json_terms::Row;
use query_args::Query;
use std::alloc::Global;
use tree_laws::Summer;
use view_model::{AnswerFault, Reply};

/// Prints the answer to a query of a view that has these rows and whose index is at this sequence. Only where the query is reduced is
/// the summer asked, and only for the values of the groups that it picks. Where a row of these is out of the bounds of what a tree
/// keeps, the fault is want of memory.
pub fn answer<M: Summer<Unit = RowItem>>(
    alloc: Global,
    rows: &[Row],
    summer: &mut M,
    seq: u64,
    query: &Query,
    reply: &mut Reply,
) -> Result<(), AnswerFault<M::Fault>>
where
    M::Sum: PrintValue,
    requires { IsSorted rows_cmp rows.now }
    ensures ok { OnOk result
        (AddsAnswer
        (IsSummedText M.Sum.text (M.fits summer.old) (M.lawful summer.old) (M.meaning summer.old))
        query.now seq rows.now reply.old reply.new) }
    ensures before { KeepsBefore reply.old reply.new }
    ensures goes { OnOk result (M.goes summer.old summer.new) }
    ensures cause { IfErr result (IsCaused (M.goes summer.old summer.new) (M.fails summer.old summer.new)) }
    ensures unasked { query.now.reduced ≡ false → summer.new ≡ summer.old }
    ensures idle { picked_groups query.now rows.now ≡ [] → summer.new ≡ summer.old }
{
    let mut values = SummedValues::new(summer);
    view_model::answer(alloc, rows, &mut values, seq, query, reply)
}
