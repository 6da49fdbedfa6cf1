//! Asking a tree for counts, values and rows by chance.

ghost use Rattle.std.specs.Prelude.{OnOk};

use crate::count::count_nodes;
use crate::rows::row_at;
use crate::words::{Question, Task};
use builtin_reduces::{BuiltinSummer, RowItem};
use json_terms::NoMemory;
use std::alloc::Global;
use std::sync::ledger::Ledger;
use tree_laws::{NodeSource, Steps, TreeFault};
use tree_query::{Walk, count_before, reduce_range};
use tree_tools::{BeforeItem, Chance, SizedTree};

/// Asks the task's question as often as it says, and adds up the answers.
pub fn ask<S: NodeSource, L: Ledger>(
    alloc: Global,
    task: &Task,
    store: &mut S,
    summer: &mut BuiltinSummer,
    tree: &SizedTree,
    steps: &mut Steps<L>,
) -> Result<u64, TreeFault<S::Fault, NoMemory>>
    requires { S.is_ready store.old }
    ensures { OnOk result (S.is_ready store.new) }
{
    let mut chance = Chance::new(2);
    let mut sum: u64 = 0;
    for _ in 0..task.times {
        let answer = match task.question {
            Question::Count => count(alloc, task, store, tree, &mut chance, steps)?,
            Question::Reduce => reduce(alloc, store, summer, tree, &mut chance, steps)?,
            Question::Walk => walk(alloc, store, tree, steps)?,
            Question::Decode => decode(alloc, store, tree, steps)?,
        };
        sum = sum.wrapping_add(answer);
    }
    Ok(sum)
}

/// How many rows stand before one of them.
fn count<S: NodeSource, L: Ledger>(
    alloc: Global,
    task: &Task,
    store: &mut S,
    tree: &SizedTree,
    chance: &mut Chance,
    steps: &mut Steps<L>,
) -> Result<u64, TreeFault<S::Fault, NoMemory>>
    requires { S.is_ready store.old }
    ensures { OnOk result (S.is_ready store.new) }
{
    let place = u32::try_from(chance.below(task.items as u64)).unwrap_or(0);
    let bound = BeforeItem::new(row_at(alloc, task.order, place)?);
    let answer = count_before(alloc, store, tree.tree(), &bound, steps)?;
    Ok(answer)
}

/// Whether a range of rows has a value.
fn reduce<S: NodeSource, L: Ledger>(
    alloc: Global,
    store: &mut S,
    summer: &mut BuiltinSummer,
    tree: &SizedTree,
    chance: &mut Chance,
    steps: &mut Steps<L>,
) -> Result<u64, TreeFault<S::Fault, NoMemory>>
    requires { S.is_ready store.old }
    ensures { OnOk result (S.is_ready store.new) }
{
    let tree = tree.tree();
    let one = chance.below(tree.count).min(tree.count);
    let other = chance.below(tree.count).min(tree.count);
    let value = reduce_range(
        alloc,
        store,
        tree,
        summer,
        one.min(other),
        one.max(other),
        steps,
    )?;
    Ok(u64::from(value.is_some()))
}

/// How many rows a walk over all of them gives.
fn walk<S: NodeSource, L: Ledger>(
    alloc: Global,
    store: &mut S,
    tree: &SizedTree,
    steps: &mut Steps<L>,
) -> Result<u64, TreeFault<S::Fault, NoMemory>>
    requires { S.is_ready store.old }
    ensures { OnOk result (S.is_ready store.new) }
{
    let tree = tree.tree();
    let mut rows: u64 = 0;
    let mut walk: Walk<RowItem> = Walk::start(alloc, store, tree, 0, tree.count, false, steps)?;
    for _ in 0..tree.count {
        if walk.next(alloc, store, steps)?.is_some() {
            rows = rows.wrapping_add(1);
        }
    }
    Ok(rows)
}

/// How many nodes there are: each is got and decoded, and nothing is made of it.
fn decode<S: NodeSource, L: Ledger>(
    alloc: Global,
    store: &mut S,
    tree: &SizedTree,
    steps: &mut Steps<L>,
) -> Result<u64, TreeFault<S::Fault, NoMemory>>
    requires { S.is_ready store.old }
    ensures { OnOk result (S.is_ready store.new) }
{
    let nodes = count_nodes(alloc, store, tree.tree(), steps)?;
    Ok(nodes.leaves.wrapping_add(nodes.inner))
}
