//! The root of a tree: the row that edits leave of it, and the tree of a row.

ghost use Rattle.tree_laws.specs.declared.tree.Tree.{Tree};
ghost use Rattle.reduce_tree.specs.Given.{AllGiven, IsUnderWay, Took};
ghost use Rattle.tree_laws.specs.declared.tree.Fill.TheVariants.{Below, Root};
ghost use Rattle.reduce_tree.specs.Pieces.{ArePieces, AreAmong, InsertAmong, AreTreePieces};
ghost use Rattle.reduce_tree.specs.Halted.{WerePieces};
ghost use Rattle.reduce_tree.specs.Applied.{applied, insertions, RemoveNone};
ghost use Rattle.reduce_tree.specs.Charges.{slack, ArePut, Spent};
ghost use Rattle.reduce_tree.specs.Counts.{ReadsFor};
ghost use Rattle.reduce_tree.specs.Sums.{IsOnTheWay, KnowsNode, PutsKnown};
ghost use Rattle.reduce_tree.specs.Calls.{places, IsKnown, Ran, PutNone, BlamesNone};
ghost use Rattle.reduce_tree.specs.Rows.{IsAtLevel, leaf_items};
ghost use Rattle.std.specs.List.Sorted.{IsStrictlySortedBy};
ghost use Rattle.std.specs.Prelude.{ℕ, true, ◌≡◌, ◌+◌, ◌-◌, ◌*◌, ◌<◌, ◌≤◌, ◌^◌, List, IfOk, OnOk, length, IfErr, OnErr, MatchResult};
ghost use Rattle.tree_laws.specs.Fitting.{AreLarge, item_count};
ghost use Rattle.tree_laws.specs.Nodes.{entries};
ghost use Rattle.tree_laws.specs.SummerTrees.{Has, HasRoot, IsTreeSize};

use crate::batch::edit_row;
use crate::edit::Edit;
use crate::fetch::fetch;
use crate::parts::lone_child;
use crate::place::{place, place_row};
use crate::row::Row;
use std::alloc::Global;
use std::sync::ledger::Ledger;
use tree_laws::{Children, Fill, Node, NodeStore, Steps, Summer, Tree, TreeFault};

/// Puts a row that one node takes as the root: nothing of an empty one, the child of a lone one.
fn put_root<S: NodeStore, M: Summer, L: Ledger>(
    alloc: Global,
    store: &mut S,
    summer: &mut M,
    level: u32,
    node: Node<M::Unit>,
    steps: &mut Steps<L>,
) -> Result<Tree, TreeFault<S::Fault, M::Fault>>
    requires ready { S.is_ready store.old }
    requires kind { IsAtLevel level node }
    requires level { level < 2 ^ 31 }
    requires most { entries node ≤ 32 }
    requires large { AreLarge level node }
    requires few { item_count node ≤ 2 ^ 40 }
    ensures root { (first : M) (items : List M.Unit) → IsKnown M.Unit.Item S.NodeSource M.Summer first summer.old store.old → Has M.Unit.Item M.Summer first (places (S.nodes store.old)) level node items → IfOk result (λ tree. HasRoot M.Unit.Item M.Summer first (places (S.nodes store.new)) tree.root tree.height items) }
    ensures count { IfOk result (λ tree. tree.count ≡ item_count node) }
    ensures size { IfOk result IsTreeSize }
    ensures low { 0 < entries node → IfOk result (λ tree. level ≤ tree.height) }
    ensures none { entries node ≡ 0 → IfOk result (λ tree. tree.height ≡ 0) }
    ensures steps { IfOk result (λ tree. 31 * steps.new ≤ 31 * steps.old + (entries node + 31 * (tree.height - level))) }
    ensures once { IfOk result (λ tree. 93 * length (S.puts store.new) + 62 * steps.old ≤ 93 * length (S.puts store.old) + (62 * steps.new + (entries node + 31 * (tree.height - level)))) }
    ensures within { (top : ℕ) → item_count node < 8 ^ top → Spent steps.old steps.new (length (S.puts store.old)) (length (S.puts store.new)) (entries node + 31 * slack top level (entries node)) (entries node + 31 * slack top level (entries node)) }
    ensures pieces { (first : M) (items among : List M.Unit) → IsKnown M.Unit.Item S.NodeSource M.Summer first summer.old store.old → Has M.Unit.Item M.Summer first (places (S.nodes store.old)) level node items → AreAmong among items → MatchResult result (λ _. ArePieces M.Unit.Item M.Summer first among (places (S.nodes store.new)) Root (S.puts store.old) (S.puts store.new)) (λ fault. WerePieces M.Unit.Item S.NodeSource M.Summer first among store.old store.new fault) }
    ensures one { OnOk result (length (S.puts store.new) ≤ length (S.puts store.old) + 1) }
    ensures leaf { OnOk result (ArePut (S.size store.old) (S.size store.new) (M.usable summer.old) (leaf_items node) 0) }
    ensures gets { S.gets store.new ≡ S.gets store.old }
    ensures reads { ReadsFor (S.reads store.old) (S.reads store.new) steps.old steps.new }
    ensures sound { IfErr result BlamesNone }
    ensures sums { (first : M) (begun : S) → KnowsNode M.Unit.Item S.NodeSource M.Summer first begun summer.old store.old node → PutsKnown M.Unit.Item S.NodeSource M.Summer first begun summer.new store.new (S.puts store.old) result }
    ensures ran { Ran M.Unit.Item S.NodeSource M.Summer store.old store.new summer.old summer.new result }
    ensures ready { OnOk result (S.is_ready store.new) }
{
    if node.is_empty() {
        return Ok(Tree {
            root: 0,
            height: 0,
            count: 0,
        });
    }
    if let Some(child) = lone_child(&node) {
        return Ok(Tree {
            root: child.0,
            height: level,
            count: child.1,
        });
    }
    let top = place(alloc, store, summer, node, steps)?;
    Ok(Tree {
        root: top.at,
        height: level + 1,
        count: top.count,
    })
}

/// Puts a row as a tree: levels are put on it until one node takes the rest.
pub(crate) fn raise<S: NodeStore, M: Summer, L: Ledger>(
    alloc: Global,
    store: &mut S,
    summer: &mut M,
    level: u32,
    node: Node<M::Unit>,
    steps: &mut Steps<L>,
) -> Result<Tree, TreeFault<S::Fault, M::Fault>>
    requires ready { S.is_ready store.old }
    requires kind { IsAtLevel level node }
    requires level { level < 2 ^ 31 }
    requires large { AreLarge level node }
    requires few { item_count node ≤ 2 ^ 40 }
    ensures root { (first : M) (items : List M.Unit) → IsKnown M.Unit.Item S.NodeSource M.Summer first summer.old store.old → Has M.Unit.Item M.Summer first (places (S.nodes store.old)) level node items → IfOk result (λ tree. HasRoot M.Unit.Item M.Summer first (places (S.nodes store.new)) tree.root tree.height items) }
    ensures count { IfOk result (λ tree. tree.count ≡ item_count node) }
    ensures size { IfOk result IsTreeSize }
    ensures low { 0 < entries node → IfOk result (λ tree. level ≤ tree.height) }
    ensures none { entries node ≡ 0 → IfOk result (λ tree. tree.height ≡ 0) }
    ensures steps { IfOk result (λ tree. 31 * steps.new ≤ 31 * steps.old + (entries node + 31 * (tree.height - level))) }
    ensures once { IfOk result (λ tree. 93 * length (S.puts store.new) + 62 * steps.old ≤ 93 * length (S.puts store.old) + (62 * steps.new + (entries node + 31 * (tree.height - level)))) }
    ensures within { (top : ℕ) → item_count node < 8 ^ top → Spent steps.old steps.new (length (S.puts store.old)) (length (S.puts store.new)) (entries node + 31 * slack top level (entries node)) (entries node + 31 * slack top level (entries node)) }
    ensures pieces { (first : M) (items among : List M.Unit) → IsKnown M.Unit.Item S.NodeSource M.Summer first summer.old store.old → Has M.Unit.Item M.Summer first (places (S.nodes store.old)) level node items → AreAmong among items → MatchResult result (λ _. AreTreePieces M.Unit.Item M.Summer first among (places (S.nodes store.new)) (S.puts store.old) (S.puts store.new)) (λ fault. WerePieces M.Unit.Item S.NodeSource M.Summer first among store.old store.new fault) }
    ensures leaf { OnOk result (ArePut (S.size store.old) (S.size store.new) (M.usable summer.old) (leaf_items node) 0) }
    ensures gets { S.gets store.new ≡ S.gets store.old }
    ensures reads { ReadsFor (S.reads store.old) (S.reads store.new) steps.old steps.new }
    ensures sound { IfErr result BlamesNone }
    ensures sums { (first : M) (begun : S) → M.goes first summer.old → KnowsNode M.Unit.Item S.NodeSource M.Summer first begun summer.old store.old node → PutsKnown M.Unit.Item S.NodeSource M.Summer first begun summer.new store.new (S.puts store.old) result }
    ensures ran { Ran M.Unit.Item S.NodeSource M.Summer store.old store.new summer.old summer.new result }
    ensures ready { OnOk result (S.is_ready store.new) }
{
    if node.len() <= 32 {
        let tree = put_root(alloc, store, summer, level, node, steps)?;
        return Ok(tree);
    }
    let children = place_row(alloc, store, summer, node, steps)?;
    let above = Node::Inner(Children::from_vec(children));
    let tree = raise(alloc, store, summer, level + 1, above, steps)?;
    Ok(tree)
}

/// The row that the edits leave of a tree's root.
pub(crate) fn edit_root<S: NodeStore, M: Summer, L: Ledger>(
    alloc: Global,
    store: &mut S,
    summer: &mut M,
    tree: Tree,
    edits: &[Edit<M::Unit>],
    steps: &mut Steps<L>,
) -> Result<Row<M::Unit>, TreeFault<S::Fault, M::Fault>>
    requires ready { S.is_ready store.old }
    requires size { IsTreeSize tree }
    requires few { tree.count + insertions edits.now ≤ 2 ^ 40 }
    ensures kind { IfOk result (λ row. IsAtLevel row.level row.node) }
    ensures large { IfOk result (λ row. AreLarge row.level row.node) }
    ensures count { IfOk result (λ row. item_count row.node ≤ tree.count + insertions edits.now) }
    ensures items { (first : M) (items : List M.Unit) → IsKnown M.Unit.Item S.NodeSource M.Summer first summer.old store.old → IsStrictlySortedBy M.Unit.order items → HasRoot M.Unit.Item M.Summer first (places (S.nodes store.old)) tree.root tree.height items
        → IfOk result (λ row. Has M.Unit.Item M.Summer first (places (S.nodes store.new)) row.level row.node (applied M.Unit.order edits.now items)) }
    ensures same { (first : M) (items : List M.Unit) → IsKnown M.Unit.Item S.NodeSource M.Summer first summer.old store.old → IsStrictlySortedBy M.Unit.order items → HasRoot M.Unit.Item M.Summer first (places (S.nodes store.old)) tree.root tree.height items
        → IfOk result (λ row. row.same ≡ true → applied M.Unit.order edits.now items ≡ items) }
    ensures most { IfOk result (λ row. row.level ≤ tree.height - 1) }
    ensures steps { IfOk result (λ row. 31 * steps.new + (entries row.node + 93 * slack (tree.height - 1) row.level (entries row.node)) ≤ 31 * steps.old + (63 + (length edits.now + 186 * ((tree.height - 1) * length edits.now)))) }
    ensures once { IfOk result (λ row. 93 * length (S.puts store.new) + (entries row.node + 62 * steps.old) ≤ 93 * length (S.puts store.old) + (62 * steps.new + (32 + length edits.now))) }
    ensures spent { OnErr result (Spent steps.old steps.new (length (S.puts store.old)) (length (S.puts store.new)) (63 + (length edits.now + 186 * ((tree.height - 1) * length edits.now))) (32 + length edits.now)) }
    ensures pieces { (first : M) (items among : List M.Unit) → IsKnown M.Unit.Item S.NodeSource M.Summer first summer.old store.old → IsStrictlySortedBy M.Unit.order items → HasRoot M.Unit.Item M.Summer first (places (S.nodes store.old)) tree.root tree.height items
        → AreAmong among items → InsertAmong among edits.now → MatchResult result (λ _. ArePieces M.Unit.Item M.Summer first among (places (S.nodes store.new)) Below (S.puts store.old) (S.puts store.new)) (λ fault. WerePieces M.Unit.Item S.NodeSource M.Summer first among store.old store.new fault) }
    ensures leaf { IfOk result (λ row. ArePut (S.size store.old) (S.size store.new) (M.usable summer.old) (insertions edits.now) (leaf_items row.node)) }
    ensures unput { IfOk result (λ row. row.same ≡ true → PutNone S.NodeSource store.old store.new) }
    ensures inserts { IfOk result (λ row. row.same ≡ true → insertions edits.now ≡ 0) }
    ensures quiet { (first : M) (items : List M.Unit) → IsKnown M.Unit.Item S.NodeSource M.Summer first summer.old store.old → HasRoot M.Unit.Item M.Summer first (places (S.nodes store.old)) tree.root tree.height items → RemoveNone M.Unit.order edits.now items → IfOk result (λ row. row.same ≡ true) }
    ensures met { (first : M) (pieces : List (List ℕ)) → IsUnderWay M.Unit.Item S.NodeSource M.Summer first pieces summer.old store.old → Took M.Unit.Item S.NodeSource M.Summer first tree pieces store.old store.new result (λ row. AllGiven M.Unit.Item S.NodeSource M.Summer first tree pieces store.new row.level row.node) }
    ensures reads { ReadsFor (S.reads store.old) (S.reads store.new) steps.old steps.new }
    ensures sound { (first : M) (items : List M.Unit) → IsKnown M.Unit.Item S.NodeSource M.Summer first summer.old store.old → IsStrictlySortedBy M.Unit.order items → HasRoot M.Unit.Item M.Summer first (places (S.nodes store.old)) tree.root tree.height items
        → tree.count ≡ length items → IfErr result BlamesNone }
    ensures sums { (first : M) (begun : S) → IsOnTheWay S.NodeSource M.Summer first begun summer.old store.old → PutsKnown M.Unit.Item S.NodeSource M.Summer first begun summer.new store.new (S.puts store.old) result }
    ensures known { (first : M) (begun : S) → IsOnTheWay S.NodeSource M.Summer first begun summer.old store.old → IfOk result (λ row. KnowsNode M.Unit.Item S.NodeSource M.Summer first begun summer.new store.new row.node) }
    ensures ran { Ran M.Unit.Item S.NodeSource M.Summer store.old store.new summer.old summer.new result }
    ensures ready { OnOk result (S.is_ready store.new) }
{
    if tree.height == 0 {
        let none = Row::empty(alloc, true);
        let row = edit_row(alloc, store, summer, 0, none.node, edits, steps)?;
        return Ok(row);
    }
    let level = tree.height - 1;
    let root = fetch(
        alloc,
        store,
        summer,
        tree.root,
        level,
        tree.count,
        Fill::Root,
        steps,
    )?;
    let row = edit_row(alloc, store, summer, level, root, edits, steps)?;
    Ok(row)
}
