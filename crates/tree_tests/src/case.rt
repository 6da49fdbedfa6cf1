//! A tree in memory beside a map of the same pairs.

use crate::items::{items_in, pair_of};
use crate::pairs::{change, edits_of};
use builtin_reduces::{BuiltinSummer, RowItem};
use design_docs::Builtin;
use reduce_tree::Edit;
use std::alloc::Global;
use std::collections::BTreeMap;
use std::sync::ledger::Ledger;
use std::test::Fail;
use tree_laws::{MemoryNodes, Steps, Tree, TreeFault};
use tree_tools::{Chance, SizedTree, edited};

/// A tree, its store, and the pairs that it is to have.
#[derive(Drop)]
pub struct Case {
    pub tree: SizedTree,
    pub store: MemoryNodes,
    pub pairs: BTreeMap<i64, i64>,
    pub kind: Builtin,
}

/// What a batch took of the store.
#[derive(Clone, Copy, Debug)]
pub struct Taken {
    pub puts: u64,
    pub reads: u64,
}

impl Case {
    /// A tree without items, whose store fails at these calls.
    pub fn new(alloc: Global, kind: Builtin, fail: Vec<u64>) -> Case {
        Case {
            tree: SizedTree::empty(),
            store: MemoryNodes::new(alloc, fail),
            pairs: BTreeMap::new(alloc),
            kind,
        }
    }

    /// Makes the changes in the tree and in the map.
    pub fn change<L: Ledger>(
        &mut self,
        alloc: Global,
        changes: &BTreeMap<i64, Option<i64>>,
        steps: &mut Steps<L>,
    ) -> Result<Taken, Fail> {
        let before = self.tree.tree();
        let puts = self.store.len();
        let reads = self.store.reads();
        let edits = edits_of(alloc, changes)?;
        let mut summer = BuiltinSummer::new(self.kind);
        self.tree = made(
            alloc,
            &mut self.store,
            &mut summer,
            &self.tree,
            &edits,
            steps,
        )?;
        let inserted = change(&mut self.pairs, changes)?;
        let taken = Taken {
            puts: (self.store.len() as u64).saturating_sub(puts as u64),
            reads: self.store.reads().saturating_sub(reads),
        };
        is_within(alloc, before, self.tree.tree(), edits.len() as u64, taken)?;
        if taken.puts.saturating_mul(32) < inserted {
            return Err(Fail::from("too few nodes for what was inserted"));
        }
        Ok(taken)
    }

    /// Walks the whole tree, which has the pairs of the map.
    pub fn is_right<L: Ledger>(&mut self, alloc: Global, steps: &mut Steps<L>) -> Result<(), Fail> {
        let tree = self.tree.tree();
        has_pairs(alloc, &mut self.store, self.kind, tree, &self.pairs, steps)
    }
}

/// Walks the whole tree, which has these pairs.
pub fn has_pairs<L: Ledger>(
    alloc: Global,
    store: &mut MemoryNodes,
    kind: Builtin,
    tree: Tree,
    pairs: &BTreeMap<i64, i64>,
    steps: &mut Steps<L>,
) -> Result<(), Fail> {
    let mut summer = BuiltinSummer::new(kind);
    let items = items_in(alloc, store, &mut summer, tree, steps)?;
    if items.len() != pairs.len() || tree.count != items.len() as u64 {
        return Err(Fail::from("another number of items"));
    }
    for (item, (key, value)) in items.iter().zip(pairs.iter()) {
        if pair_of(item) != Some((*key, *value)) {
            return Err(Fail::from("another item"));
        }
    }
    Ok(())
}

/// The tree with the edits made, where nothing failed.
pub fn made<L: Ledger>(
    alloc: Global,
    store: &mut MemoryNodes,
    summer: &mut BuiltinSummer,
    tree: &SizedTree,
    edits: &[Edit<RowItem>],
    steps: &mut Steps<L>,
) -> Result<SizedTree, Fail> {
    match edited(alloc, store, summer, tree, edits, steps) {
        Ok(after) => Ok(after),
        Err(TreeFault::Store(_)) => Err(Fail::from("the store failed")),
        Err(TreeFault::BadNode(at)) => Err(Fail::from(format!(in alloc; "bad node at {at}")?)),
        Err(TreeFault::Summer(_)) => Err(Fail::from("the summer failed")),
        Err(TreeFault::NoMemory) => Err(Fail::from("no memory")),
    }
}

/// A batch puts four nodes at most for each edit and each level and one more, and takes eight steps at most.
fn is_within(
    alloc: Global,
    before: Tree,
    after: Tree,
    edits: u64,
    taken: Taken,
) -> Result<(), Fail> {
    let height = before.height.max(after.height) as u64;
    let most = edits.saturating_mul(height.saturating_add(1));
    let steps = taken.puts.saturating_add(taken.reads);
    if taken.puts > most.saturating_mul(4) || steps > most.saturating_mul(8) {
        let text = format!(in alloc;
            "{edits} edits put {} nodes, got {}",
            taken.puts, taken.reads
        )?;
        return Err(Fail::from(text));
    }
    Ok(())
}

/// So many changes of keys from `first` on below `first + span`: of ten changes so many insert.
pub fn changes_by_chance(
    alloc: Global,
    chance: &mut Chance,
    count: u64,
    first: i64,
    span: u64,
    inserting: u64,
) -> Result<BTreeMap<i64, Option<i64>>, Fail> {
    let mut changes = BTreeMap::new(alloc);
    for _ in 0..count {
        let key = first.saturating_add(chance.key(span));
        let value = if chance.below(10) < inserting {
            Some(chance.key(1_000))
        } else {
            None
        };
        changes.insert(key, value)?;
    }
    Ok(changes)
}
