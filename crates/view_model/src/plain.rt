//! The answer from rows in any order, by a built-in reduce or none.

ghost use Rattle.std.specs.Prelude.{◌≡◌, ◌++◌, true, false, IfOk, IfSome, IsSome, OnErr, OnOk};
ghost use Rattle.raw_collation.specs.Sorting.{sorted_rows};
ghost use Rattle.view_model.specs.Answer as print;
ghost use Rattle.view_model.specs.Values.{builtin_text};

use crate::answers::answer;
use crate::group_values::{AnswerFault, GroupValues};
use crate::reply::Reply;
use builtin_reduces::{copy_row, leaf, sum_is_line};
use design_docs::Builtin;
use json_terms::{NoMemory, Row};
use query_args::Query;
use raw_collation::sort_rows;
use std::alloc::Global;

/// The values of groups by a built-in reduce.
#[derive(Clone, Copy)]
struct PlainValues {
    kind: Builtin,
}

impl GroupValues for PlainValues {
    ghost use Rattle.builtin_reduces.specs.SummerLaws.{same_are_steps, same_stays_caused};
    ghost use Rattle.view_model.specs.SameValues.{same_keeps_values};

    type Fault = NoMemory;

    ghost is_value = { λ values group text. text ≡ builtin_text values.kind group };

    ghost goes = { λ a b. b ≡ a };

    ghost fails = { λ a b fault. Unit {0} };

    fn print(
        &mut self,
        alloc: Global,
        group: &[Row],
        reply: &mut Reply,
    ) -> Result<(), AnswerFault<NoMemory>> {
        let sum = leaf(alloc, self.kind, group)?;
        sum_is_line(&sum);
        reply.put_sum(alloc, &sum)?;
        Ok(())
    }

    ghost are_steps = { same_are_steps };

    ghost keeps = { same_keeps_values _ };

    ghost stays_caused = { same_stays_caused (λ a b fault. Unit {0}) };
}

/// Appends the answer to a query of a view that has these rows, in any order, and whose index is at this sequence. The values of its
/// groups are those of this reduce; of a view that has none no query is reduced. Where memory runs out `out` is as it was.
pub fn plain_answer(
    alloc: Global,
    rows: &[Row],
    reduce: Option<Builtin>,
    query: &Query,
    seq: u64,
    out: &mut Vec<u8>,
) -> Result<(), NoMemory>
    requires { query.now.reduced ≡ true → IsSome reduce }
    ensures by_reduce { OnOk result (IfSome reduce (λ kind. out.new.items ≡ out.old.items
        ++ print.answer (builtin_text kind) query.now seq (sorted_rows rows.now))) }
    ensures whole { OnOk result (query.now.reduced ≡ false → out.new.items ≡ out.old.items
        ++ print.rows_answer query.now seq (sorted_rows rows.now)) }
    ensures err { OnErr result (out.new.items ≡ out.old.items) }
{
    let mut sorted = copy_rows(alloc, rows)?;
    sort_rows(&mut sorted);
    let mut values = PlainValues {
        kind: reduce.unwrap_or(Builtin::Count),
    };
    let mut reply = Reply::behind(alloc, out);
    let printed = answer(
        alloc,
        sorted.as_slice(),
        &mut values,
        seq,
        query,
        &mut reply,
    );
    reply.close(printed.map_err(|_fault| NoMemory), out)
}

fn copy_rows(alloc: Global, rows: &[Row]) -> Result<Vec<Row>, NoMemory>
    ensures { IfOk result (λ copies. copies.items ≡ rows.now) }
{
    let mut copies = Vec::with_capacity(alloc, rows.len())?;
    for row in rows {
        copies.push(copy_row(alloc, row)?)?;
    }
    Ok(copies)
}
