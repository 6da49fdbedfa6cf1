//! Getting a node and looking at the summaries that it keeps.

ghost use Rattle.reduce_tree.specs.Counts.{ReadsFor};
ghost use Rattle.reduce_tree.specs.Sums.{IsOnTheWay, KnowsNode};
ghost use Rattle.reduce_tree.specs.Calls.{places, IsKnown, Ran, BlamesNone};
ghost use Rattle.reduce_tree.specs.Given.{AllGiven, IsUnderWay, Leads, Took};
ghost use Rattle.std.specs.Prelude.{true, false, ◌≡◌, ◌+◌, ◌∷◌, ℕ, All, List, IfOk, OnOk, IfErr, length};
ghost use Rattle.tree_laws.specs.Fitting.{IsFitFor};
ghost use Rattle.tree_laws.specs.SummerTrees.{Has, IsAt, IsUnread, KeepsBadSum};
ghost use Rattle.tree_laws.specs.declared.node.Node.TheVariants.{Inner};
ghost use Rattle.tree_laws.specs.declared.tree.Fill.{Fill};
ghost use Rattle.tree_laws.specs.declared.tree.Tree.{Tree};

use json_terms::NoMemory;
use std::alloc::Global;
use std::sync::ledger::Ledger;
use tree_laws::{Child, Fill, Node, NodeStore, Steps, Summer, TreeFault, fetch_node};

/// The node at a place of a level, where so many items are to stand. `BadNode(at)` is answered where no node that fits stands
/// there, and where it keeps a summary that has the bytes of no value.
pub(crate) fn fetch<S: NodeStore, M: Summer, L: Ledger>(
    alloc: Global,
    store: &mut S,
    summer: &M,
    at: u64,
    level: u32,
    count: u64,
    fill: Fill,
    steps: &mut Steps<L>,
) -> Result<Node<M::Unit>, TreeFault<S::Fault, M::Fault>>
    requires ready { S.is_ready store.old }
    ensures fits { IfOk result (IsFitFor level count fill) }
    ensures got { (first : M) (items : List M.Unit) (place : Fill) → IsKnown M.Unit.Item S.NodeSource M.Summer first summer.now store.old
        → IsAt M.Unit.Item M.Summer first (places (S.nodes store.old)) (Has M.Unit.Item M.Summer first (places (S.nodes store.old)) level) place at items → IfOk result (λ node. Has M.Unit.Item M.Summer first (places (S.nodes store.old)) level node items) }
    ensures nodes { S.nodes store.new ≡ S.nodes store.old }
    ensures puts { S.puts store.new ≡ S.puts store.old }
    ensures gets { S.gets store.new ≡ at ∷ S.gets store.old }
    ensures met { (first : M) (tree : Tree) (pieces : List (List ℕ)) → IsUnderWay M.Unit.Item S.NodeSource M.Summer first pieces summer.now store.old → Leads M.Unit.Item S.NodeSource M.Summer first tree pieces store.old level at count fill
        → Took M.Unit.Item S.NodeSource M.Summer first tree pieces store.old store.new result (AllGiven M.Unit.Item S.NodeSource M.Summer first tree pieces store.new level) }
    ensures steps { steps.new ≡ steps.old + 1 }
    ensures size { S.size store.new ≡ S.size store.old }
    ensures reads { ReadsFor (S.reads store.old) (S.reads store.new) steps.old steps.new }
    ensures sound { (first : M) (items : List M.Unit) → IsKnown M.Unit.Item S.NodeSource M.Summer first summer.now store.old
        → IsAt M.Unit.Item M.Summer first (places (S.nodes store.old)) (Has M.Unit.Item M.Summer first (places (S.nodes store.old)) level) fill at items → count ≡ length items → IfErr result BlamesNone }
    ensures known { (first : M) (begun : S) → IsOnTheWay S.NodeSource M.Summer first begun summer.now store.old → IfOk result (KnowsNode M.Unit.Item S.NodeSource M.Summer first begun summer.now store.new) }
    ensures ran { Ran M.Unit.Item S.NodeSource M.Summer store.old store.new summer.now summer.now result }
    ensures ready { OnOk result (S.is_ready store.new) }
{
    let node: Node<M::Unit> = fetch_node(alloc, store, at, level, count, fill, steps)?;
    let read = are_read(alloc, summer, &node)?;
    if read {
        return Ok(node);
    }
    Err(TreeFault::BadNode(at))
}

/// Whether each summary that a node keeps has the bytes of a value.
fn are_read<M: Summer>(alloc: Global, summer: &M, node: &Node<M::Unit>) -> Result<bool, NoMemory>
    ensures bad { IfOk result (λ read. read ≡ false → KeepsBadSum M.Unit.Item M.Summer summer.now node.now) }
    ensures read { IfOk result (λ read. read ≡ true → KeepsBadSum M.Unit.Item M.Summer summer.now node.now → ⊥) }
{
    match node {
        Node::Leaf(_) => Ok(true),
        Node::Inner(children) => sums_are_read(alloc, summer, children.as_slice()),
    }
}

fn sums_are_read<M: Summer>(
    alloc: Global,
    summer: &M,
    children: &[Child<M::Unit>],
) -> Result<bool, NoMemory>
    ensures bad { IfOk result (λ read. read ≡ false → KeepsBadSum M.Unit.Item M.Summer summer.now (Inner children.now)) }
    ensures read { IfOk result (λ read. read ≡ true → All (λ child. IsUnread M.Unit.Item M.Summer summer.now child.sum → ⊥) children.now) }
{
    for child in children {
        let bad = is_bad_sum(alloc, summer, child.sum.as_slice())?;
        if bad {
            return Ok(false);
        }
    }
    Ok(true)
}

fn is_bad_sum<M: Summer>(alloc: Global, summer: &M, bytes: &[u8]) -> Result<bool, NoMemory>
    ensures bad { IfOk result (λ bad. bad ≡ true → IsUnread M.Unit.Item M.Summer summer.now bytes.now) }
    ensures read { IfOk result (λ bad. bad ≡ false → IsUnread M.Unit.Item M.Summer summer.now bytes.now → ⊥) }
{
    match summer.decode_sum(alloc, bytes)? {
        Ok(_) => Ok(false),
        Err(_) => Ok(true),
    }
}
