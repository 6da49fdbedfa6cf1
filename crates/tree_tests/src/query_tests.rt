//! Counts, values and items of ranges of trees, at the places where nodes end and at places by chance.

ghost use Rattle.std.specs.Prelude.{◌≡◌, ◌<◌};

use crate::case::{Case, changes_by_chance};
use crate::items::pair_of;
use builtin_reduces::{BuiltinSum, BuiltinSummer, RowItem};
use design_docs::Builtin;
use std::alloc::Global;
use std::collections::BTreeMap;
use std::marker::Brand;
use std::sync::ledger::{Blank, Ledger};
use std::test::Fail;
use tree_laws::{MemoryNodes, Steps};
use tree_query::{Walk, count_before, reduce_range, walks_stay};
use tree_tools::{BeforeItem, Chance, SizedTree, item_of};

/// How many rows there are, and where ranges begin and end.
const SIZES: &[u64] = &[
    0, 1, 7, 8, 9, 31, 32, 33, 39, 40, 63, 64, 65, 1_023, 1_024, 1_025,
];

/// The pairs of a tree in order, and the sums of their values up to each.
#[derive(Drop)]
struct Listed {
    pairs: Vec<(i64, i64)>,
    sums: Vec<i128>,
}

fn list_pairs(alloc: Global, pairs: &BTreeMap<i64, i64>) -> Result<Listed, Fail> {
    let mut list = Vec::new(alloc);
    let mut sums = Vec::new(alloc);
    let mut sum: i128 = 0;
    sums.push(sum)?;
    for (key, value) in pairs.iter() {
        list.push((*key, *value))?;
        sum = sum.saturating_add(*value as i128);
        sums.push(sum)?;
    }
    Ok(Listed { pairs: list, sums })
}

fn sum_at(listed: &Listed, place: u64) -> i128 {
    listed.sums.get(place as usize).copied().unwrap_or(0)
}

/// How many reads the store had since `before`.
fn reads_since(store: &MemoryNodes, before: u64) -> u64 {
    store.reads().saturating_sub(before)
}

/// The value of the range is the sum of its values, and is none where it is empty.
fn reduces<L: Ledger>(
    alloc: Global,
    store: &mut MemoryNodes,
    tree: &SizedTree,
    listed: &Listed,
    from: u64,
    to: u64,
    steps: &mut Steps<L>,
) -> Result<(), Fail> {
    let tree = tree.tree();
    if from > to || to > tree.count {
        return Err(Fail::from("no range"));
    }
    let before = store.reads();
    let mut summer = BuiltinSummer::new(Builtin::Sum);
    let sum = match reduce_range(alloc, store, tree, &mut summer, from, to, steps) {
        Ok(sum) => sum,
        Err(_) => return Err(Fail::from("no value")),
    };
    let want = sum_at(listed, to).saturating_sub(sum_at(listed, from));
    let right = match sum {
        None => from == to,
        Some(BuiltinSum::Number(sum)) => from < to && sum == want,
        Some(_) => false,
    };
    if !right || reads_since(store, before) > 2 * tree.height as u64 {
        let text = format!(in alloc; "the value of {from} to {to} of {}", tree.count)?;
        return Err(Fail::from(text));
    }
    Ok(())
}

/// A walk over the range has its items, upward or downward, and gets each node once.
fn walks<L: Ledger>(
    alloc: Global,
    store: &mut MemoryNodes,
    tree: &SizedTree,
    listed: &Listed,
    from: u64,
    to: u64,
    descending: bool,
    steps: &mut Steps<L>,
) -> Result<(), Fail> {
    let tree = tree.tree();
    if from > to || to > tree.count {
        return Err(Fail::from("no range"));
    }
    let before = store.reads();
    let mut walk = match Walk::start(alloc, store, tree, from, to, descending, steps) {
        Ok(walk) => walk,
        Err(_) => return Err(Fail::from("no walk")),
    };
    for number in 0..to.saturating_sub(from) {
        let place = if descending {
            to.saturating_sub(number).saturating_sub(1)
        } else {
            from.saturating_add(number)
        };
        let item: Option<RowItem> = match walk.next(alloc, store, steps) {
            Ok(item) => item,
            Err(_) => return Err(Fail::from("a walk that ends early")),
        };
        let pair = item.as_ref().and_then(pair_of);
        if pair.is_none() || pair != listed.pairs.get(place as usize).copied() {
            let text = format!(in alloc; "item {place} of a walk from {from} to {to}")?;
            return Err(Fail::from(text));
        }
    }
    let ended: Option<RowItem> = match walk.next(alloc, store, steps) {
        Ok(item) => item,
        Err(_) => return Err(Fail::from("a walk without an end")),
    };
    let most = (to.saturating_sub(from) / 4).saturating_add(2 * tree.height as u64);
    if ended.is_some() || reads_since(store, before) > most {
        return Err(Fail::from("a walk that goes on, or gets a node twice"));
    }
    Ok(())
}

/// How many rows stand before a key.
fn counts<L: Ledger>(
    alloc: Global,
    store: &mut MemoryNodes,
    tree: &SizedTree,
    listed: &Listed,
    key: i64,
    steps: &mut Steps<L>,
) -> Result<(), Fail> {
    let tree = tree.tree();
    let before = store.reads();
    let bound = BeforeItem::new(item_of(alloc, key, 0)?);
    let count = match count_before(alloc, store, tree, &bound, steps) {
        Ok(count) => count,
        Err(_) => return Err(Fail::from("no count")),
    };
    let want = listed.pairs.iter().filter(|pair| pair.0 < key).count();
    if count != want as u64 || reads_since(store, before) > tree.height as u64 {
        let text = format!(in alloc; "{count} rows before {key}, and not {want}")?;
        return Err(Fail::from(text));
    }
    Ok(())
}

/// Every range that begins and ends at one of the sizes.
fn ask_all<L: Ledger>(
    alloc: Global,
    case: &mut Case,
    listed: &Listed,
    steps: &mut Steps<L>,
) -> Result<(), Fail> {
    let size = case.tree.tree().count;
    for from in SIZES {
        for to in SIZES {
            if from <= to && *to <= size {
                let (store, tree) = (&mut case.store, &case.tree);
                reduces(alloc, store, tree, listed, *from, *to, steps)?;
                let near = (*to).min(from.saturating_add(70));
                walks(alloc, store, tree, listed, *from, near, false, steps)?;
                walks(alloc, store, tree, listed, *from, near, true, steps)?;
            }
        }
        let key = i64::try_from(*from).unwrap_or(0).wrapping_mul(2);
        for key in [key.wrapping_sub(1), key, key.wrapping_add(1)] {
            counts(alloc, &mut case.store, &case.tree, listed, key, steps)?;
        }
    }
    Ok(())
}

fn ask_sizes<L: Ledger>(alloc: Global, blank: Blank) -> Result<(), Fail>
    requires name { blank.name ≡ L.name }
    requires parts { blank.parts ≡ L.parts }
    requires some { 0 < L.parts }
{
    walks_stay::<RowItem>();
    let mut steps = Steps::<L>::new(blank);
    for size in SIZES {
        let mut changes = BTreeMap::new(alloc);
        for place in 0..i64::try_from(*size).unwrap_or(0) {
            changes.insert(place.wrapping_mul(2), Some(place & 7))?;
        }
        let mut case = Case::new(alloc, Builtin::Sum, Vec::new(alloc));
        case.change(alloc, &changes, &mut steps)?;
        let listed = list_pairs(alloc, &case.pairs)?;
        ask_all(alloc, &mut case, &listed, &mut steps)?;
        walks(
            alloc,
            &mut case.store,
            &case.tree,
            &listed,
            0,
            *size,
            true,
            &mut steps,
        )?;
    }
    Ok(())
}

#[test]
fn ranges_at_the_ends_of_nodes(rt: HostRuntime) -> Result<(), Fail> {
    ask_sizes::<Brand>(rt.alloc(), Blank::new(1))
}

/// How many ranges are asked of trees of three levels that were built by batches by chance.
const RANGES: u64 = 10_000;

fn ask_by_chance<L: Ledger>(alloc: Global, blank: Blank) -> Result<(), Fail>
    requires name { blank.name ≡ L.name }
    requires parts { blank.parts ≡ L.parts }
    requires some { 0 < L.parts }
{
    let mut steps = Steps::<L>::new(blank);
    let mut chance = Chance::new(3);
    let mut case = Case::new(alloc, Builtin::Sum, Vec::new(alloc));
    for _ in 0..40 {
        let changes = changes_by_chance(alloc, &mut chance, 150, 0, 9_000, 8)?;
        case.change(alloc, &changes, &mut steps)?;
    }
    let listed = list_pairs(alloc, &case.pairs)?;
    let size = case.tree.tree().count;
    for number in 0..RANGES {
        let one = chance.below(size.saturating_add(1));
        let other = chance.below(size.saturating_add(1));
        let (from, to) = (one.min(other), one.max(other));
        let (store, tree) = (&mut case.store, &case.tree);
        reduces(alloc, store, tree, &listed, from, to, &mut steps)?;
        if number % 20 == 0 {
            let near = to.min(from.saturating_add(chance.below(120)));
            walks(
                alloc,
                store,
                tree,
                &listed,
                from,
                near,
                number % 40 == 0,
                &mut steps,
            )?;
            counts(alloc, store, tree, &listed, chance.key(9_001), &mut steps)?;
        }
    }
    Ok(())
}

#[test]
fn ranges_by_chance(rt: HostRuntime) -> Result<(), Fail> {
    ask_by_chance::<Brand>(rt.alloc(), Blank::new(1))
}
