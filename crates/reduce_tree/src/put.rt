//! Putting one node, for a tree that is built anew.

ghost use Rattle.reduce_tree.specs.Built.{HasEntries, ReadsForPuts};
ghost use Rattle.reduce_tree.specs.Calls.{places, IsKnown, Ran, BlamesNone, UnlessStore};
ghost use Rattle.reduce_tree.specs.Packed.{StandsAt};
ghost use Rattle.reduce_tree.specs.Rows.{leaf_items};
ghost use Rattle.reduce_tree.specs.Sums.{ArePiecesHad, IsSumGiven, KeepsHad};
ghost use Rattle.std.specs.Prelude.{Contains, ℕ, ◌≡◌, ◌+◌, ◌*◌, ◌<◌, ◌≤◌, ◌^◌, ◌∷◌, List, [], Some, IfErr, IfOk, OnOk, OnErr, length};
ghost use Rattle.tree_laws.specs.Fitting.{IsFilled, item_count};
ghost use Rattle.tree_laws.specs.Nodes.{entries, spelled_node};
ghost use Rattle.tree_laws.specs.Stores.{EachSince, Places, pieces_size};
ghost use Rattle.tree_laws.specs.SummerTrees.{Has, IsAt, IsChild, Stands};
ghost use Rattle.tree_laws.specs.declared.tree.Fill.TheVariants.{Below};
ghost use Rattle.tree_laws.specs.declared.tree.Fill.{Fill};

use crate::place::spell_node;
use crate::tell::{Told, tell};
use std::alloc::Global;
use tree_laws::{Child, Item, Node, NodeStore, Summer, TreeFault};

/// Puts a node, and answers the entry for it.
pub(crate) fn put_node<S: NodeStore, M: Summer>(
    alloc: Global,
    store: &mut S,
    summer: &mut M,
    node: Node<M::Unit>,
) -> Result<Child<M::Unit>, TreeFault<S::Fault, M::Fault>>
    requires ready { S.is_ready store.old }
    requires some { 0 < entries node }
    requires most { entries node ≤ 32 }
    requires few { item_count node ≤ 2 ^ 40 }
    ensures stands { (first : M) (level : ℕ) (fill : Fill) (items : List M.Unit) → IsKnown M.Unit.Item S.NodeSource M.Summer first summer.old store.old → IsFilled fill node
        → Has M.Unit.Item M.Summer first (places (S.nodes store.old)) level node items → IfOk result (λ child. IsAt M.Unit.Item M.Summer first (places (S.nodes store.new)) (Has M.Unit.Item M.Summer first (places (S.nodes store.new)) level) fill child.at items) }
    ensures child { (first : M) (level : ℕ) (items : List M.Unit) → IsKnown M.Unit.Item S.NodeSource M.Summer first summer.old store.old → IsFilled Below node
        → Has M.Unit.Item M.Summer first (places (S.nodes store.old)) level node items → IfOk result (λ child. IsChild M.Unit.Item M.Summer first (Stands M.Unit.Item M.Summer first (places (S.nodes store.new)) level) child items) }
    ensures count { IfOk result (λ child. child.count ≡ item_count node) }
    ensures stored { (there : Places) → S.nodes store.old ≡ Some there → IfOk result (λ child. StandsAt M.Unit.Item (places (S.nodes store.new)) child.at node) }
    ensures takes { OnOk result (S.size store.new ≡ S.size store.old + pieces_size (spelled_node M.Unit.spelled node ∷ [])) }
    ensures leaf { OnOk result (S.size store.old + 8 * leaf_items node ≤ S.size store.new) }
    ensures usable { 0 < leaf_items node → OnOk result (M.usable summer.old) }
    ensures gets { S.gets store.new ≡ S.gets store.old }
    ensures reads { ReadsForPuts (S.reads store.old) (S.reads store.new) (S.puts store.old) (S.puts store.new) }
    ensures puts { length (S.puts store.new) ≤ length (S.puts store.old) + 1 }
    ensures filled { EachSince (HasEntries M.Unit.Item (entries node) (entries node)) (S.puts store.old) (S.puts store.new) }
    ensures refused { OnErr result (UnlessStore result (S.puts store.new ≡ S.puts store.old)) }
    ensures sums { (first : M) (had : List (List ℕ)) → KeepsHad M.Unit.Item M.Summer (Contains had) first summer.old node → ArePiecesHad M.Unit.Item M.Summer (Contains had) first summer.new (S.puts store.old) (S.puts store.new) }
    ensures gave { IfOk result (λ child. IsSumGiven M.Summer summer.old summer.new child.sum) }
    ensures sound { IfErr result BlamesNone }
    ensures ran { Ran M.Unit.Item S.NodeSource M.Summer store.old store.new summer.old summer.new result }
    ensures ready { OnOk result (S.is_ready store.new) }
{
    let told: Told<M::Unit> = tell(alloc, summer, &node)?;
    let bytes = spell_node(alloc, &node)?;
    match store.put(alloc, bytes.as_slice()) {
        Ok(at) => Ok(Child {
            at,
            count: told.count,
            last: told.last,
            sum: told.sum,
        }),
        Err(fault) => Err(TreeFault::Store(fault)),
    }
}
