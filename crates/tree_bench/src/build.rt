//! Building a tree in batches, and replacing its rows one by one.

ghost use Rattle.std.specs.Prelude.{OnOk};

use crate::rows::{insertions, key_at, sorted_keys};
use crate::words::Task;
use builtin_reduces::BuiltinSummer;
use json_terms::NoMemory;
use std::alloc::Global;
use std::sync::ledger::Ledger;
use tree_laws::{NodeStore, Steps, TreeFault};
use tree_tools::{Chance, SizedTree, edited};

/// A tree of so many rows, inserted by batches.
pub fn build<S: NodeStore, L: Ledger>(
    alloc: Global,
    task: &Task,
    store: &mut S,
    summer: &mut BuiltinSummer,
    steps: &mut Steps<L>,
) -> Result<SizedTree, TreeFault<S::Fault, NoMemory>>
    requires { S.is_ready store.old }
    ensures ready { OnOk result (S.is_ready store.new) }
    ensures goes { OnOk result (S.goes store.old store.new) }
{
    let mut tree = SizedTree::empty();
    let batch = task.batch.max(1);
    for number in 0..task.items.div_ceil(batch) {
        let first = number.saturating_mul(batch);
        let count = task.items.saturating_sub(first).min(batch);
        let keys = sorted_keys(alloc, task.order, first, count)?;
        let edits = insertions(alloc, &keys)?;
        tree = edited(alloc, store, summer, &tree, &edits, steps)?;
    }
    Ok(tree)
}

/// Replaces rows by chance, one by one.
pub fn replace<S: NodeStore, L: Ledger>(
    alloc: Global,
    task: &Task,
    store: &mut S,
    summer: &mut BuiltinSummer,
    tree: SizedTree,
    steps: &mut Steps<L>,
) -> Result<SizedTree, TreeFault<S::Fault, NoMemory>>
    requires { S.is_ready store.old }
    ensures ready { OnOk result (S.is_ready store.new) }
    ensures goes { OnOk result (S.goes store.old store.new) }
{
    let mut tree = tree;
    let mut chance = Chance::new(1);
    for _ in 0..task.edits {
        let place = u32::try_from(chance.below(task.items as u64)).unwrap_or(0);
        let edits = insertions(alloc, &[key_at(task.order, place)])?;
        tree = edited(alloc, store, summer, &tree, &edits, steps)?;
    }
    Ok(tree)
}
