//! Single edits, edits that change nothing, and edits that fail.

ghost use Rattle.std.specs.Prelude.{◌≡◌, ◌<◌};

use crate::case::{Case, changes_by_chance, has_pairs};
use crate::pairs::edits_of;
use builtin_reduces::BuiltinSummer;
use design_docs::Builtin;
use std::alloc::Global;
use std::collections::BTreeMap;
use std::marker::Brand;
use std::sync::ledger::{Blank, Ledger};
use std::test::Fail;
use tree_laws::{MemoryFault, Steps, TreeFault};
use tree_tools::{Chance, edited};

/// So many keys from `first` on in steps of `step`, inserted with their numbers as values, or removed.
fn changes_of(
    alloc: Global,
    count: i64,
    first: i64,
    step: i64,
    inserts: bool,
) -> Result<BTreeMap<i64, Option<i64>>, Fail> {
    let mut changes = BTreeMap::new(alloc);
    for place in 0..count {
        let key = first.saturating_add(place.saturating_mul(step));
        changes.insert(key, if inserts { Some(place) } else { None })?;
    }
    Ok(changes)
}

/// A tree of 1,100 rows has height 3 or 4, and one edit of it puts 20 nodes and takes 40 steps at most.
fn edit_1100<L: Ledger>(alloc: Global, blank: Blank) -> Result<(), Fail>
    requires name { blank.name ≡ L.name }
    requires parts { blank.parts ≡ L.parts }
    requires some { 0 < L.parts }
{
    let mut steps = Steps::<L>::new(blank);
    for (batches, size) in [(1, 1_100), (11, 100), (110, 10)] {
        let mut case = Case::new(alloc, Builtin::Count, Vec::new(alloc));
        for batch in 0..batches {
            let first = i64::from(batch).wrapping_mul(2);
            let step = i64::from(batches).wrapping_mul(2);
            case.change(
                alloc,
                &changes_of(alloc, i64::from(size), first, step, true)?,
                &mut steps,
            )?;
        }
        let tree = case.tree.tree();
        if tree.count != 1_100 || tree.height < 3 || tree.height > 4 {
            return Err(Fail::from("another height"));
        }
        for place in 0..60 {
            let key = i64::from(place).wrapping_mul(37);
            let changes = changes_of(alloc, 1, key, 1, key % 3 > 0)?;
            let taken = case.change(alloc, &changes, &mut steps)?;
            if taken.puts > 20 || taken.puts.saturating_add(taken.reads) > 40 {
                return Err(Fail::from("too many nodes or steps"));
            }
            case.is_right(alloc, &mut steps)?;
        }
    }
    Ok(())
}

#[test]
fn one_edit_of_many_rows(rt: HostRuntime) -> Result<(), Fail> {
    edit_1100::<Brand>(rt.alloc(), Blank::new(1))
}

/// How many rows a tree has from which what isn't there is removed, and then all that is.
const COUNTS: &[i64] = &[0, 1, 7, 8, 31, 32, 33, 39, 40, 64, 65, 1_024, 1_025, 2_500];

fn remove_absent<L: Ledger>(alloc: Global, blank: Blank) -> Result<(), Fail>
    requires name { blank.name ≡ L.name }
    requires parts { blank.parts ≡ L.parts }
    requires some { 0 < L.parts }
{
    let mut steps = Steps::<L>::new(blank);
    for count in COUNTS {
        let mut case = Case::new(alloc, Builtin::Stats, Vec::new(alloc));
        case.change(alloc, &changes_of(alloc, *count, 0, 2, true)?, &mut steps)?;
        case.is_right(alloc, &mut steps)?;
        let tree = case.tree.tree();
        for odd in [-1, 1, count.wrapping_mul(2)] {
            let absent = changes_of(alloc, count.saturating_add(1), odd | 1, 2, false)?;
            let taken = case.change(alloc, &absent, &mut steps)?;
            if taken.puts > 0 || case.tree.tree() != tree {
                return Err(Fail::from("what isn't there was removed"));
            }
        }
        case.change(alloc, &changes_of(alloc, *count, 0, 2, false)?, &mut steps)?;
        if case.tree.tree().count != 0 || case.tree.tree().height != 0 {
            return Err(Fail::from("something is left"));
        }
    }
    Ok(())
}

#[test]
fn removals_of_none_and_of_all(rt: HostRuntime) -> Result<(), Fail> {
    remove_absent::<Brand>(rt.alloc(), Blank::new(1))
}

/// Makes a batch in a tree of 300 rows whose store fails at its call with this number behind those that build the tree. It answers
/// whether the batch was made. Where it wasn't, the old tree has its rows.
fn fail_at<L: Ledger>(alloc: Global, call: u64, steps: &mut Steps<L>) -> Result<bool, Fail> {
    let mut built = Case::new(alloc, Builtin::Sum, Vec::new(alloc));
    built.change(alloc, &changes_of(alloc, 300, 0, 2, true)?, steps)?;
    let calls = built.store.reads().saturating_add(built.store.len() as u64);
    let fail = Vec::from_slice(alloc, &[calls.saturating_add(call)])?;
    let mut case = Case::new(alloc, Builtin::Sum, fail);
    case.change(alloc, &changes_of(alloc, 300, 0, 2, true)?, steps)?;
    let tree = case.tree.tree();
    let changes = changes_by_chance(alloc, &mut Chance::new(9), 40, 0, 600, 5)?;
    let edits = edits_of(alloc, &changes)?;
    let mut summer = BuiltinSummer::new(Builtin::Sum);
    match edited(
        alloc,
        &mut case.store,
        &mut summer,
        &case.tree,
        &edits,
        steps,
    ) {
        Ok(_) => return Ok(true),
        Err(TreeFault::Store(MemoryFault::Failed)) => {}
        Err(_) => return Err(Fail::from("another fault")),
    }
    has_pairs(
        alloc,
        &mut case.store,
        Builtin::Sum,
        tree,
        &built.pairs,
        steps,
    )?;
    Ok(false)
}

fn fail_in_turn<L: Ledger>(alloc: Global, blank: Blank) -> Result<u64, Fail>
    requires name { blank.name ≡ L.name }
    requires parts { blank.parts ≡ L.parts }
    requires some { 0 < L.parts }
{
    let mut steps = Steps::<L>::new(blank);
    for call in 0..200 {
        if fail_at(alloc, call, &mut steps)? {
            return Ok(call);
        }
    }
    Err(Fail::from("no batch was made"))
}

#[test]
fn each_call_of_the_store_fails_in_turn(rt: HostRuntime) -> Result<(), Fail> {
    let calls = fail_in_turn::<Brand>(rt.alloc(), Blank::new(1))?;
    assert!(rt; calls > 10 && calls < 100, "{calls}");
    Ok(())
}
