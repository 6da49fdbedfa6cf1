//! The value of a group of rows, from the values of its parts.

ghost use Rattle.std.specs.Prelude.{◌≡◌, ◌<◌, ◌≤◌, All, IfErr, IfOk, OnOk, length};
ghost use Rattle.builtin_reduces.specs.Kept.{IsKept};
ghost use Rattle.view_model.specs.GroupValues.{IsCaused};
ghost use Rattle.range_query.specs.Summed.{ArePartSums, IsGroupSum};

use builtin_reduces::{RowItem, copy_row};
use json_terms::{NoMemory, Row};
use std::alloc::Global;
use tree_laws::Summer;
use view_model::AnswerFault;

/// So many rows are a part at most.
const PART: usize = 32;

/// The value of a group of rows.
pub(crate) fn group_sum<M: Summer<Unit = RowItem>>(
    alloc: Global,
    summer: &mut M,
    group: &[Row],
) -> Result<M::Sum, AnswerFault<M::Fault>>
    requires { 0 < length group.now }
    ensures value { IfOk result (IsGroupSum (M.lawful summer.old) (M.meaning summer.old) group.now) }
    ensures fits { IfOk result (M.fits summer.old) }
    ensures goes { OnOk result (M.goes summer.old summer.new) }
    ensures cause { IfErr result (IsCaused (M.goes summer.old summer.new) (M.fails summer.old summer.new)) }
{
    if group.len() <= PART {
        return part_sum(alloc, summer, group);
    }
    let sums = part_sums(alloc, summer, group)?;
    match summer.join(alloc, sums.as_slice()) {
        Ok(sum) => Ok(sum),
        Err(fault) => Err(AnswerFault::Values(fault)),
    }
}

/// The values of the parts of a group.
fn part_sums<M: Summer<Unit = RowItem>>(
    alloc: Global,
    summer: &mut M,
    group: &[Row],
) -> Result<Vec<M::Sum>, AnswerFault<M::Fault>>
    ensures value { IfOk result (λ sums.
        ArePartSums (M.lawful summer.old) (M.meaning summer.old) group.now sums.items) }
    ensures fits { IfOk result (λ sums. All (M.fits summer.old) sums.items) }
    ensures kept { OnOk result (All IsKept group.now) }
    ensures goes { OnOk result (M.goes summer.old summer.new) }
    ensures cause { IfErr result (IsCaused (M.goes summer.old summer.new) (M.fails summer.old summer.new)) }
{
    let mut sums = Vec::new(alloc);
    let mut left = group;
    while !left.is_empty() {
        let (part, rest) = left.split_at(left.len().min(PART));
        let sum = part_sum(alloc, summer, part)?;
        if sums.push(sum).is_err() {
            return Err(AnswerFault::NoMemory);
        }
        left = rest;
    }
    Ok(sums)
}

/// The value of one part.
fn part_sum<M: Summer<Unit = RowItem>>(
    alloc: Global,
    summer: &mut M,
    part: &[Row],
) -> Result<M::Sum, AnswerFault<M::Fault>>
    requires { 0 < length part.now }
    ensures value { IfOk result (IsGroupSum (M.lawful summer.old) (M.meaning summer.old) part.now) }
    ensures fits { IfOk result (M.fits summer.old) }
    ensures kept { OnOk result (All IsKept part.now) }
    ensures goes { OnOk result (M.goes summer.old summer.new) }
    ensures cause { IfErr result (IsCaused (M.goes summer.old summer.new) (M.fails summer.old summer.new)) }
{
    let items = items_of(alloc, part)?;
    match summer.leaf(alloc, items.as_slice()) {
        Ok(sum) => Ok(sum),
        Err(fault) => Err(AnswerFault::Values(fault)),
    }
}

/// Copies of rows, as what a tree keeps. Where one is out of the bounds of that, the error is want of memory too.
fn items_of(alloc: Global, rows: &[Row]) -> Result<Vec<RowItem>, NoMemory>
    ensures same { IfOk result (λ items. items.items ≡ rows.now) }
    ensures kept { OnOk result (All IsKept rows.now) }
{
    let mut items = Vec::with_capacity(alloc, rows.len())?;
    for row in rows {
        match RowItem::new(alloc, copy_row(alloc, row)?)? {
            Some(item) => items.push(item)?,
            None => return Err(NoMemory),
        }
    }
    Ok(items)
}
