//! Rows of entries, and how they are joined.

ghost use Rattle.tree_laws.specs.declared.tree.Tree.{Tree};
ghost use Rattle.reduce_tree.specs.Given.{AllGiven, IsUnderWay, Took};
ghost use Rattle.tree_laws.specs.declared.tree.Fill.TheVariants.{Below};
ghost use Rattle.reduce_tree.specs.Pieces.{ArePieces, AreAmong};
ghost use Rattle.reduce_tree.specs.Halted.{WerePieces};
ghost use Rattle.reduce_tree.specs.Charges.{slack, ArePut, Spent};
ghost use Rattle.reduce_tree.specs.Counts.{ReadsFor};
ghost use Rattle.reduce_tree.specs.Sums.{IsOnTheWay, KnowsNode, PutsKnown};
ghost use Rattle.reduce_tree.specs.Calls.{places, IsKnown, Ran, IfSound};
ghost use Rattle.reduce_tree.specs.Rows.{IsAtLevel, leaf_items};
ghost use Rattle.std.specs.Prelude.{false, ℕ, ◌≡◌, ◌+◌, ◌*◌, ◌<◌, ◌≤◌, ◌^◌, ◌++◌, List, [], IfOk, OnOk, OnErr, ◌-◌, MatchResult, length};
ghost use Rattle.tree_laws.specs.Fitting.{AreLarge, item_count};
ghost use Rattle.tree_laws.specs.Nodes.{entries};
ghost use Rattle.tree_laws.specs.SummerTrees.{Has};
ghost use Rattle.tree_laws.specs.declared.node.Node.TheVariants.{Leaf};

use crate::fetch::fetch;
use crate::parts::{add_all, join_nodes, take_first, take_last};
use crate::place::place_row;
use std::alloc::Global;
use std::sync::ledger::Ledger;
use tree_laws::{Children, Fill, Items, Node, NodeStore, Steps, Summer, TreeFault};

/// The entries of a level, not yet cut into nodes, any number of them.
#[derive(Drop)]
pub(crate) struct Row<T> {
    pub(crate) level: u32,
    pub(crate) node: Node<T>,
    /// Whether nothing has changed up to here.
    pub(crate) same: bool,
}

impl<T> Row<T> {
    pub(crate) fn empty(alloc: Global, same: bool) -> Row<T>
        ensures level { result.level ≡ 0 }
        ensures node { result.node ≡ Leaf [] }
        ensures same { result.same ≡ same }
    {
        Row {
            level: 0,
            node: Node::Leaf(Items::from_vec(Vec::new(alloc))),
            same,
        }
    }
}

/// A node with the entries of a row of its level or a lower one before its own.
fn join_front<S: NodeStore, M: Summer, L: Ledger>(
    alloc: Global,
    store: &mut S,
    summer: &mut M,
    low: u32,
    row: Node<M::Unit>,
    level: u32,
    node: Node<M::Unit>,
    steps: &mut Steps<L>,
) -> Result<Node<M::Unit>, TreeFault<S::Fault, M::Fault>>
    requires ready { S.is_ready store.old }
    requires low { low ≤ level }
    requires some { 0 < entries node }
    requires row { IsAtLevel low row }
    requires kind { IsAtLevel level node }
    requires large_row { AreLarge low row }
    requires large { AreLarge level node }
    requires few { item_count row + item_count node ≤ 2 ^ 40 }
    ensures kind { IfOk result (IsAtLevel level) }
    ensures large { IfOk result (AreLarge level) }
    ensures count { IfOk result (λ after. item_count after ≡ item_count row + item_count node) }
    ensures least { IfOk result (λ after. entries node ≤ entries after) }
    ensures items { (first : M) (xs ys : List M.Unit) → IsKnown M.Unit.Item S.NodeSource M.Summer first summer.old store.old → Has M.Unit.Item M.Summer first (places (S.nodes store.old)) low row xs → Has M.Unit.Item M.Summer first (places (S.nodes store.old)) level node ys
        → IfSound result (λ after. Has M.Unit.Item M.Summer first (places (S.nodes store.new)) level after (xs ++ ys)) }
    ensures steps { IfOk result (λ after. 31 * steps.new + (entries after + 93 * low) ≤ 31 * steps.old + (entries node + (entries row + 93 * level))) }
    ensures once { IfOk result (λ after. 93 * length (S.puts store.new) + (entries after + 62 * steps.old) ≤ 93 * length (S.puts store.old) + (62 * steps.new + (entries node + entries row))) }
    ensures spent { OnErr result (Spent steps.old steps.new (length (S.puts store.old)) (length (S.puts store.new)) (entries node + (entries row + 93 * (level - low))) (entries node + entries row)) }
    ensures pieces { (first : M) (xs ys among : List M.Unit) → IsKnown M.Unit.Item S.NodeSource M.Summer first summer.old store.old → Has M.Unit.Item M.Summer first (places (S.nodes store.old)) low row xs → Has M.Unit.Item M.Summer first (places (S.nodes store.old)) level node ys → AreAmong among xs → AreAmong among ys → MatchResult result (λ _. ArePieces M.Unit.Item M.Summer first among (places (S.nodes store.new)) Below (S.puts store.old) (S.puts store.new)) (λ fault. WerePieces M.Unit.Item S.NodeSource M.Summer first among store.old store.new fault) }
    ensures leaf { IfOk result (λ after. ArePut (S.size store.old) (S.size store.new) (M.usable summer.old) (leaf_items row + leaf_items node) (leaf_items after)) }
    ensures met { (first : M) (tree : Tree) (pieces : List (List ℕ)) → IsUnderWay M.Unit.Item S.NodeSource M.Summer first pieces summer.old store.old → AllGiven M.Unit.Item S.NodeSource M.Summer first tree pieces store.old low row → AllGiven M.Unit.Item S.NodeSource M.Summer first tree pieces store.old level node
        → Took M.Unit.Item S.NodeSource M.Summer first tree pieces store.old store.new result (AllGiven M.Unit.Item S.NodeSource M.Summer first tree pieces store.new level) }
    ensures reads { ReadsFor (S.reads store.old) (S.reads store.new) steps.old steps.new }
    ensures sums { (first : M) (begun : S) → IsOnTheWay S.NodeSource M.Summer first begun summer.old store.old → KnowsNode M.Unit.Item S.NodeSource M.Summer first begun summer.old store.old row → KnowsNode M.Unit.Item S.NodeSource M.Summer first begun summer.old store.old node → PutsKnown M.Unit.Item S.NodeSource M.Summer first begun summer.new store.new (S.puts store.old) result }
    ensures known { (first : M) (begun : S) → IsOnTheWay S.NodeSource M.Summer first begun summer.old store.old → KnowsNode M.Unit.Item S.NodeSource M.Summer first begun summer.old store.old row → KnowsNode M.Unit.Item S.NodeSource M.Summer first begun summer.old store.old node → IfOk result (KnowsNode M.Unit.Item S.NodeSource M.Summer first begun summer.new store.new) }
    ensures ran { Ran M.Unit.Item S.NodeSource M.Summer store.old store.new summer.old summer.new result }
    ensures ready { OnOk result (S.is_ready store.new) }
{
    if low == level {
        return Ok(join_nodes(row, node)?);
    }
    match node {
        // The row is of a lower level, so this is no leaf.
        Node::Leaf(items) => Ok(Node::Leaf(items)),
        Node::Inner(children) => {
            let mut after = children.into_vec();
            let child = take_first(&mut after);
            let below = fetch(
                alloc,
                store,
                summer,
                child.at,
                level - 1,
                child.count,
                Fill::Below,
                steps,
            )?;
            let joined = join_front(alloc, store, summer, low, row, level - 1, below, steps)?;
            let mut placed = place_row(alloc, store, summer, joined, steps)?;
            add_all(&mut placed, after)?;
            Ok(Node::Inner(Children::from_vec(placed)))
        }
    }
}

/// A node with the entries of a row of its level or a lower one after its own.
fn join_back<S: NodeStore, M: Summer, L: Ledger>(
    alloc: Global,
    store: &mut S,
    summer: &mut M,
    low: u32,
    row: Node<M::Unit>,
    level: u32,
    node: Node<M::Unit>,
    steps: &mut Steps<L>,
) -> Result<Node<M::Unit>, TreeFault<S::Fault, M::Fault>>
    requires ready { S.is_ready store.old }
    requires low { low ≤ level }
    requires some { 0 < entries node }
    requires row { IsAtLevel low row }
    requires kind { IsAtLevel level node }
    requires large_row { AreLarge low row }
    requires large { AreLarge level node }
    requires few { item_count row + item_count node ≤ 2 ^ 40 }
    ensures kind { IfOk result (IsAtLevel level) }
    ensures large { IfOk result (AreLarge level) }
    ensures count { IfOk result (λ after. item_count after ≡ item_count row + item_count node) }
    ensures least { IfOk result (λ after. entries node ≤ entries after) }
    ensures items { (first : M) (xs ys : List M.Unit) → IsKnown M.Unit.Item S.NodeSource M.Summer first summer.old store.old → Has M.Unit.Item M.Summer first (places (S.nodes store.old)) low row xs → Has M.Unit.Item M.Summer first (places (S.nodes store.old)) level node ys
        → IfSound result (λ after. Has M.Unit.Item M.Summer first (places (S.nodes store.new)) level after (ys ++ xs)) }
    ensures steps { IfOk result (λ after. 31 * steps.new + (entries after + 93 * low) ≤ 31 * steps.old + (entries node + (entries row + 93 * level))) }
    ensures once { IfOk result (λ after. 93 * length (S.puts store.new) + (entries after + 62 * steps.old) ≤ 93 * length (S.puts store.old) + (62 * steps.new + (entries node + entries row))) }
    ensures spent { OnErr result (Spent steps.old steps.new (length (S.puts store.old)) (length (S.puts store.new)) (entries node + (entries row + 93 * (level - low))) (entries node + entries row)) }
    ensures pieces { (first : M) (xs ys among : List M.Unit) → IsKnown M.Unit.Item S.NodeSource M.Summer first summer.old store.old → Has M.Unit.Item M.Summer first (places (S.nodes store.old)) low row xs → Has M.Unit.Item M.Summer first (places (S.nodes store.old)) level node ys → AreAmong among xs → AreAmong among ys → MatchResult result (λ _. ArePieces M.Unit.Item M.Summer first among (places (S.nodes store.new)) Below (S.puts store.old) (S.puts store.new)) (λ fault. WerePieces M.Unit.Item S.NodeSource M.Summer first among store.old store.new fault) }
    ensures leaf { IfOk result (λ after. ArePut (S.size store.old) (S.size store.new) (M.usable summer.old) (leaf_items row + leaf_items node) (leaf_items after)) }
    ensures met { (first : M) (tree : Tree) (pieces : List (List ℕ)) → IsUnderWay M.Unit.Item S.NodeSource M.Summer first pieces summer.old store.old → AllGiven M.Unit.Item S.NodeSource M.Summer first tree pieces store.old low row → AllGiven M.Unit.Item S.NodeSource M.Summer first tree pieces store.old level node
        → Took M.Unit.Item S.NodeSource M.Summer first tree pieces store.old store.new result (AllGiven M.Unit.Item S.NodeSource M.Summer first tree pieces store.new level) }
    ensures reads { ReadsFor (S.reads store.old) (S.reads store.new) steps.old steps.new }
    ensures sums { (first : M) (begun : S) → IsOnTheWay S.NodeSource M.Summer first begun summer.old store.old → KnowsNode M.Unit.Item S.NodeSource M.Summer first begun summer.old store.old row → KnowsNode M.Unit.Item S.NodeSource M.Summer first begun summer.old store.old node → PutsKnown M.Unit.Item S.NodeSource M.Summer first begun summer.new store.new (S.puts store.old) result }
    ensures known { (first : M) (begun : S) → IsOnTheWay S.NodeSource M.Summer first begun summer.old store.old → KnowsNode M.Unit.Item S.NodeSource M.Summer first begun summer.old store.old row → KnowsNode M.Unit.Item S.NodeSource M.Summer first begun summer.old store.old node → IfOk result (KnowsNode M.Unit.Item S.NodeSource M.Summer first begun summer.new store.new) }
    ensures ran { Ran M.Unit.Item S.NodeSource M.Summer store.old store.new summer.old summer.new result }
    ensures ready { OnOk result (S.is_ready store.new) }
{
    if low == level {
        return Ok(join_nodes(node, row)?);
    }
    match node {
        // The row is of a lower level, so this is no leaf.
        Node::Leaf(items) => Ok(Node::Leaf(items)),
        Node::Inner(children) => {
            let mut before = children.into_vec();
            let child = take_last(&mut before);
            let below = fetch(
                alloc,
                store,
                summer,
                child.at,
                level - 1,
                child.count,
                Fill::Below,
                steps,
            )?;
            let joined = join_back(alloc, store, summer, low, row, level - 1, below, steps)?;
            let placed = place_row(alloc, store, summer, joined, steps)?;
            add_all(&mut before, placed)?;
            Ok(Node::Inner(Children::from_vec(before)))
        }
    }
}

/// One row with the entries of both: that of the lower level goes into the nodes at the other's edge.
pub(crate) fn join_rows<S: NodeStore, M: Summer, L: Ledger>(
    alloc: Global,
    store: &mut S,
    summer: &mut M,
    front: Row<M::Unit>,
    back: Row<M::Unit>,
    steps: &mut Steps<L>,
) -> Result<Row<M::Unit>, TreeFault<S::Fault, M::Fault>>
    requires ready { S.is_ready store.old }
    requires front { IsAtLevel front.level front.node }
    requires back { IsAtLevel back.level back.node }
    requires large_front { AreLarge front.level front.node }
    requires large_back { AreLarge back.level back.node }
    requires few { item_count front.node + item_count back.node ≤ 2 ^ 40 }
    ensures kind { IfOk result (λ row. IsAtLevel row.level row.node) }
    ensures large { IfOk result (λ row. AreLarge row.level row.node) }
    ensures count { IfOk result (λ row. item_count row.node ≡ item_count front.node + item_count back.node) }
    ensures same { IfOk result (λ row. row.same ≡ false) }
    ensures items { (first : M) (xs ys : List M.Unit) → IsKnown M.Unit.Item S.NodeSource M.Summer first summer.old store.old → Has M.Unit.Item M.Summer first (places (S.nodes store.old)) front.level front.node xs → Has M.Unit.Item M.Summer first (places (S.nodes store.old)) back.level back.node ys
        → IfSound result (λ row. Has M.Unit.Item M.Summer first (places (S.nodes store.new)) row.level row.node (xs ++ ys)) }
    ensures most { (top : ℕ) → front.level ≤ top → back.level ≤ top → IfOk result (λ row. row.level ≤ top) }
    ensures steps { (top : ℕ) → front.level ≤ top → back.level ≤ top → IfOk result (λ row. 31 * steps.new + (entries row.node + 93 * slack top row.level (entries row.node)) ≤ 31 * steps.old + (entries front.node + (entries back.node + (93 * slack top front.level (entries front.node) + 93 * slack top back.level (entries back.node))))) }
    ensures once { IfOk result (λ row. 93 * length (S.puts store.new) + (entries row.node + 62 * steps.old) ≤ 93 * length (S.puts store.old) + (62 * steps.new + (entries front.node + entries back.node))) }
    ensures high { front.level ≤ back.level → 0 < entries back.node → IfOk result (λ row. row.level ≡ back.level) }
    ensures least { front.level ≤ back.level → 0 < entries back.node → IfOk result (λ row. entries back.node ≤ entries row.node) }
    ensures spent { (top : ℕ) → front.level ≤ top → back.level ≤ top → OnErr result (Spent steps.old steps.new (length (S.puts store.old)) (length (S.puts store.new)) (entries front.node + (entries back.node + (93 * slack top front.level (entries front.node) + 93 * slack top back.level (entries back.node)))) (entries front.node + entries back.node)) }
    ensures pieces { (first : M) (xs ys among : List M.Unit) → IsKnown M.Unit.Item S.NodeSource M.Summer first summer.old store.old → Has M.Unit.Item M.Summer first (places (S.nodes store.old)) front.level front.node xs → Has M.Unit.Item M.Summer first (places (S.nodes store.old)) back.level back.node ys → AreAmong among xs → AreAmong among ys → MatchResult result (λ _. ArePieces M.Unit.Item M.Summer first among (places (S.nodes store.new)) Below (S.puts store.old) (S.puts store.new)) (λ fault. WerePieces M.Unit.Item S.NodeSource M.Summer first among store.old store.new fault) }
    ensures leaf { IfOk result (λ row. ArePut (S.size store.old) (S.size store.new) (M.usable summer.old) (leaf_items front.node + leaf_items back.node) (leaf_items row.node)) }
    ensures met { (first : M) (tree : Tree) (pieces : List (List ℕ)) → IsUnderWay M.Unit.Item S.NodeSource M.Summer first pieces summer.old store.old → AllGiven M.Unit.Item S.NodeSource M.Summer first tree pieces store.old front.level front.node → AllGiven M.Unit.Item S.NodeSource M.Summer first tree pieces store.old back.level back.node
        → Took M.Unit.Item S.NodeSource M.Summer first tree pieces store.old store.new result (λ row. AllGiven M.Unit.Item S.NodeSource M.Summer first tree pieces store.new row.level row.node) }
    ensures reads { ReadsFor (S.reads store.old) (S.reads store.new) steps.old steps.new }
    ensures sums { (first : M) (begun : S) → IsOnTheWay S.NodeSource M.Summer first begun summer.old store.old → KnowsNode M.Unit.Item S.NodeSource M.Summer first begun summer.old store.old front.node → KnowsNode M.Unit.Item S.NodeSource M.Summer first begun summer.old store.old back.node → PutsKnown M.Unit.Item S.NodeSource M.Summer first begun summer.new store.new (S.puts store.old) result }
    ensures known { (first : M) (begun : S) → IsOnTheWay S.NodeSource M.Summer first begun summer.old store.old → KnowsNode M.Unit.Item S.NodeSource M.Summer first begun summer.old store.old front.node → KnowsNode M.Unit.Item S.NodeSource M.Summer first begun summer.old store.old back.node → IfOk result (λ row. KnowsNode M.Unit.Item S.NodeSource M.Summer first begun summer.new store.new row.node) }
    ensures ran { Ran M.Unit.Item S.NodeSource M.Summer store.old store.new summer.old summer.new result }
    ensures ready { OnOk result (S.is_ready store.new) }
{
    if front.node.is_empty() {
        return Ok(changed(back));
    }
    if back.node.is_empty() {
        return Ok(changed(front));
    }
    let low = front.level;
    let level = back.level;
    if low <= level {
        let node = join_front(
            alloc, store, summer, low, front.node, level, back.node, steps,
        )?;
        return Ok(Row {
            level,
            node,
            same: false,
        });
    }
    let node = join_back(
        alloc, store, summer, level, back.node, low, front.node, steps,
    )?;
    Ok(Row {
        level: low,
        node,
        same: false,
    })
}

/// The row, as one that may have changed.
fn changed<T>(row: Row<T>) -> Row<T>
    ensures level { result.level ≡ row.level }
    ensures node { result.node ≡ row.node }
    ensures same { result.same ≡ false }
{
    Row {
        level: row.level,
        node: row.node,
        same: false,
    }
}
