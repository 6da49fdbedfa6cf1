//! Edits of a tree of a size that tests have.

ghost use Rattle.std.specs.Prelude.{OnOk};

use crate::sized::SizedTree;
use builtin_reduces::{BuiltinSummer, RowItem};
use json_terms::NoMemory;
use reduce_tree::{Edit, apply};
use std::alloc::Global;
use std::sync::ledger::Ledger;
use tree_laws::{NodeStore, Steps, TreeFault};

/// The tree with the edits made. A tree of more than a million items, or a batch of more than a million edits, is answered as want of
/// memory.
pub fn edited<S: NodeStore, L: Ledger>(
    alloc: Global,
    store: &mut S,
    summer: &mut BuiltinSummer,
    tree: &SizedTree,
    edits: &[Edit<RowItem>],
    steps: &mut Steps<L>,
) -> Result<SizedTree, TreeFault<S::Fault, NoMemory>>
    requires { S.is_ready store.old }
    ensures ready { OnOk result (S.is_ready store.new) }
    ensures goes { OnOk result (S.goes store.old store.new) }
{
    let tree = tree.tree();
    if tree.count > 1_000_000 || edits.len() > 1_000_000 {
        return Err(TreeFault::NoMemory);
    }
    let after = apply(alloc, store, summer, tree, edits, steps)?;
    Ok(SizedTree::of(after))
}
