//! Putting the entries of a level in nodes.

ghost use Rattle.tree_laws.specs.declared.tree.Tree.{Tree};
ghost use Rattle.reduce_tree.specs.Given.{AllGiven, Given, IsUnderWay};
ghost use Rattle.reduce_tree.specs.Pieces.{ArePieces, AreAmong};
ghost use Rattle.reduce_tree.specs.Halted.{WerePieces};
ghost use Rattle.reduce_tree.specs.Charges.{ArePut, Spent};
ghost use Rattle.reduce_tree.specs.Counts.{ReadsFor};
ghost use Rattle.reduce_tree.specs.Sums.{IsSumGiven, KnowsNode, PutsKnown};
ghost use Rattle.reduce_tree.specs.Calls.{places, IsKnown, Ran, BlamesNone};
ghost use Rattle.reduce_tree.specs.Rows.{IsAtLevel, leaf_items};
ghost use Rattle.std.specs.Prelude.{ℕ, ◌≡◌, ◌+◌, ◌*◌, ◌<◌, ◌≤◌, ◌^◌, List, IfOk, OnOk, vec_len, IfErr, OnErr, MatchResult, length, All};
ghost use Rattle.tree_laws.specs.Fitting.{IsFilled, AreLarge, item_count};
ghost use Rattle.tree_laws.specs.Nodes.{entries, FitsNode, spelled_node};
ghost use Rattle.tree_laws.specs.SummerTrees.{Has, IsAt, IsChild, AreChildren, Stands};
ghost use Rattle.tree_laws.specs.declared.node.Node.TheVariants.{Inner};
ghost use Rattle.tree_laws.specs.declared.tree.Fill.{Fill};
ghost use Rattle.tree_laws.specs.declared.tree.Fill.TheVariants.{Below};

use crate::parts::{add_all, list_of_one, list_of_two, split_node};
use crate::tell::{Told, tell};
use json_terms::NoMemory;
use std::alloc::Global;
use std::sync::ledger::Ledger;
use tree_laws::{Child, Item, Node, NodeStore, Steps, Summer, TreeFault, encode_node};

/// The bytes of a node.
pub(crate) fn spell_node<T: Item>(alloc: Global, node: &Node<T>) -> Result<Vec<u8>, NoMemory>
    requires { entries node.now ≤ 32 }
    ensures bytes { IfOk result (λ bytes. bytes.items ≡ spelled_node T.spelled node.now) }
    ensures fits { OnOk result (FitsNode T.fits T.spelled node.now) }
{
    let mut bytes = Vec::new(alloc);
    encode_node(alloc, node, &mut bytes)?;
    Ok(bytes)
}

/// Puts a node, and answers the entry for it.
pub(crate) fn place<S: NodeStore, M: Summer, L: Ledger>(
    alloc: Global,
    store: &mut S,
    summer: &mut M,
    node: Node<M::Unit>,
    steps: &mut Steps<L>,
) -> Result<Child<M::Unit>, TreeFault<S::Fault, M::Fault>>
    requires ready { S.is_ready store.old }
    requires some { 0 < entries node }
    requires most { entries node ≤ 32 }
    requires few { item_count node ≤ 2 ^ 40 }
    ensures stands { (first : M) (level : ℕ) (fill : Fill) (items : List M.Unit) → IsKnown M.Unit.Item S.NodeSource M.Summer first summer.old store.old → IsFilled fill node
        → Has M.Unit.Item M.Summer first (places (S.nodes store.old)) level node items → IfOk result (λ child. IsAt M.Unit.Item M.Summer first (places (S.nodes store.new)) (Has M.Unit.Item M.Summer first (places (S.nodes store.new)) level) fill child.at items) }
    ensures child { (first : M) (level : ℕ) (items : List M.Unit) → IsKnown M.Unit.Item S.NodeSource M.Summer first summer.old store.old → IsFilled Below node
        → Has M.Unit.Item M.Summer first (places (S.nodes store.old)) level node items → IfOk result (λ child. IsChild M.Unit.Item M.Summer first (Stands M.Unit.Item M.Summer first (places (S.nodes store.new)) level) child items) }
    ensures count { IfOk result (λ child. child.count ≡ item_count node) }
    ensures puts { OnOk result (length (S.puts store.new) ≤ length (S.puts store.old) + 1) }
    ensures steps { OnOk result (steps.new ≡ steps.old + 1) }
    ensures spent { OnErr result (Spent steps.old steps.new (length (S.puts store.old)) (length (S.puts store.new)) 31 31) }
    ensures pieces { (first : M) (level : ℕ) (fill : Fill) (items among : List M.Unit) → IsKnown M.Unit.Item S.NodeSource M.Summer first summer.old store.old → IsFilled fill node → Has M.Unit.Item M.Summer first (places (S.nodes store.old)) level node items → AreAmong among items → MatchResult result (λ _. ArePieces M.Unit.Item M.Summer first among (places (S.nodes store.new)) fill (S.puts store.old) (S.puts store.new)) (λ fault. WerePieces M.Unit.Item S.NodeSource M.Summer first among store.old store.new fault) }
    ensures leaf { OnOk result (ArePut (S.size store.old) (S.size store.new) (M.usable summer.old) (leaf_items node) 0) }
    ensures gets { S.gets store.new ≡ S.gets store.old }
    ensures given { (first : M) (tree : Tree) (pieces : List (List ℕ)) (level : ℕ) → IsUnderWay M.Unit.Item S.NodeSource M.Summer first pieces summer.old store.old → IsAtLevel level node → AreLarge level node → IsFilled Below node → AllGiven M.Unit.Item S.NodeSource M.Summer first tree pieces store.old level node → IfOk result (Given M.Unit.Item S.NodeSource M.Summer first tree pieces store.new level) }
    ensures reads { ReadsFor (S.reads store.old) (S.reads store.new) steps.old steps.new }
    ensures sound { IfErr result BlamesNone }
    ensures sums { (first : M) (begun : S) → KnowsNode M.Unit.Item S.NodeSource M.Summer first begun summer.old store.old node → PutsKnown M.Unit.Item S.NodeSource M.Summer first begun summer.new store.new (S.puts store.old) result }
    ensures gave { IfOk result (λ child. IsSumGiven M.Summer summer.old summer.new child.sum) }
    ensures ran { Ran M.Unit.Item S.NodeSource M.Summer store.old store.new summer.old summer.new result }
    ensures ready { OnOk result (S.is_ready store.new) }
{
    let told: Told<M::Unit> = tell(alloc, summer, &node)?;
    let bytes = spell_node(alloc, &node)?;
    steps.tick();
    match store.put(alloc, bytes.as_slice()) {
        Ok(at) => Ok(Child {
            at,
            count: told.count,
            last: told.last,
            sum: told.sum,
        }),
        Err(fault) => Err(TreeFault::Store(fault)),
    }
}

/// Puts a node whose entries may be twice those that one takes, whole or in two halves.
fn place_all<S: NodeStore, M: Summer, L: Ledger>(
    alloc: Global,
    store: &mut S,
    summer: &mut M,
    node: Node<M::Unit>,
    steps: &mut Steps<L>,
) -> Result<Vec<Child<M::Unit>>, TreeFault<S::Fault, M::Fault>>
    requires ready { S.is_ready store.old }
    requires least { 8 ≤ entries node }
    requires most { entries node ≤ 64 }
    requires few { item_count node ≤ 2 ^ 40 }
    ensures children { (first : M) (level : ℕ) (items : List M.Unit) → IsKnown M.Unit.Item S.NodeSource M.Summer first summer.old store.old → Has M.Unit.Item M.Summer first (places (S.nodes store.old)) level node items
        → IfOk result (λ children. AreChildren M.Unit.Item M.Summer first (Stands M.Unit.Item M.Summer first (places (S.nodes store.new)) level) children.items items) }
    ensures large { (level : ℕ) → IsAtLevel level node → AreLarge level node → IfOk result (λ children. AreLarge (level + 1) (Inner children.items)) }
    ensures count { IfOk result (λ children. item_count (Inner children.items) ≡ item_count node) }
    ensures some { IfOk result (λ children. 0 < vec_len children) }
    ensures packed { IfOk result (λ children. 32 * vec_len children ≤ entries node + 31) }
    ensures puts { IfOk result (λ children. length (S.puts store.new) ≤ length (S.puts store.old) + vec_len children) }
    ensures steps { IfOk result (λ children. steps.new ≡ steps.old + vec_len children) }
    ensures spent { OnErr result (Spent steps.old steps.new (length (S.puts store.old)) (length (S.puts store.new)) (entries node + 31) (entries node + 31)) }
    ensures pieces { (first : M) (level : ℕ) (items among : List M.Unit) → IsKnown M.Unit.Item S.NodeSource M.Summer first summer.old store.old → Has M.Unit.Item M.Summer first (places (S.nodes store.old)) level node items → AreAmong among items → MatchResult result (λ _. ArePieces M.Unit.Item M.Summer first among (places (S.nodes store.new)) Below (S.puts store.old) (S.puts store.new)) (λ fault. WerePieces M.Unit.Item S.NodeSource M.Summer first among store.old store.new fault) }
    ensures leaf { OnOk result (ArePut (S.size store.old) (S.size store.new) (M.usable summer.old) (leaf_items node) 0) }
    ensures gets { S.gets store.new ≡ S.gets store.old }
    ensures given { (first : M) (tree : Tree) (pieces : List (List ℕ)) (level : ℕ) → IsUnderWay M.Unit.Item S.NodeSource M.Summer first pieces summer.old store.old → IsAtLevel level node → AreLarge level node → AllGiven M.Unit.Item S.NodeSource M.Summer first tree pieces store.old level node → IfOk result (λ children. All (Given M.Unit.Item S.NodeSource M.Summer first tree pieces store.new level) children.items) }
    ensures reads { ReadsFor (S.reads store.old) (S.reads store.new) steps.old steps.new }
    ensures sound { IfErr result BlamesNone }
    ensures sums { (first : M) (begun : S) → KnowsNode M.Unit.Item S.NodeSource M.Summer first begun summer.old store.old node → PutsKnown M.Unit.Item S.NodeSource M.Summer first begun summer.new store.new (S.puts store.old) result }
    ensures answered { (first : M) → M.goes first summer.old → IfOk result (λ children. All (λ child. IsSumGiven M.Summer first summer.new child.sum) children.items) }
    ensures ran { Ran M.Unit.Item S.NodeSource M.Summer store.old store.new summer.old summer.new result }
    ensures ready { OnOk result (S.is_ready store.new) }
{
    if node.len() <= 32 {
        let child = place(alloc, store, summer, node, steps)?;
        return Ok(list_of_one(alloc, child)?);
    }
    let half = node.len() / 2;
    let (left, right) = split_node(node, half)?;
    let first = place(alloc, store, summer, left, steps)?;
    let second = place(alloc, store, summer, right, steps)?;
    Ok(list_of_two(alloc, first, second)?)
}

/// Puts the entries of a node of any length in nodes of 8 to 32.
pub(crate) fn place_row<S: NodeStore, M: Summer, L: Ledger>(
    alloc: Global,
    store: &mut S,
    summer: &mut M,
    node: Node<M::Unit>,
    steps: &mut Steps<L>,
) -> Result<Vec<Child<M::Unit>>, TreeFault<S::Fault, M::Fault>>
    requires ready { S.is_ready store.old }
    requires least { 8 ≤ entries node }
    requires few { item_count node ≤ 2 ^ 40 }
    ensures children { (first : M) (level : ℕ) (items : List M.Unit) → IsKnown M.Unit.Item S.NodeSource M.Summer first summer.old store.old → Has M.Unit.Item M.Summer first (places (S.nodes store.old)) level node items
        → IfOk result (λ children. AreChildren M.Unit.Item M.Summer first (Stands M.Unit.Item M.Summer first (places (S.nodes store.new)) level) children.items items) }
    ensures large { (level : ℕ) → IsAtLevel level node → AreLarge level node → IfOk result (λ children. AreLarge (level + 1) (Inner children.items)) }
    ensures count { IfOk result (λ children. item_count (Inner children.items) ≡ item_count node) }
    ensures some { IfOk result (λ children. 0 < vec_len children) }
    ensures packed { IfOk result (λ children. 32 * vec_len children ≤ entries node + 31) }
    ensures puts { IfOk result (λ children. length (S.puts store.new) ≤ length (S.puts store.old) + vec_len children) }
    ensures steps { IfOk result (λ children. steps.new ≡ steps.old + vec_len children) }
    ensures spent { OnErr result (Spent steps.old steps.new (length (S.puts store.old)) (length (S.puts store.new)) (entries node + 31) (entries node + 31)) }
    ensures pieces { (first : M) (level : ℕ) (items among : List M.Unit) → IsKnown M.Unit.Item S.NodeSource M.Summer first summer.old store.old → Has M.Unit.Item M.Summer first (places (S.nodes store.old)) level node items → AreAmong among items → MatchResult result (λ _. ArePieces M.Unit.Item M.Summer first among (places (S.nodes store.new)) Below (S.puts store.old) (S.puts store.new)) (λ fault. WerePieces M.Unit.Item S.NodeSource M.Summer first among store.old store.new fault) }
    ensures leaf { OnOk result (ArePut (S.size store.old) (S.size store.new) (M.usable summer.old) (leaf_items node) 0) }
    ensures gets { S.gets store.new ≡ S.gets store.old }
    ensures given { (first : M) (tree : Tree) (pieces : List (List ℕ)) (level : ℕ) → IsUnderWay M.Unit.Item S.NodeSource M.Summer first pieces summer.old store.old → IsAtLevel level node → AreLarge level node → AllGiven M.Unit.Item S.NodeSource M.Summer first tree pieces store.old level node → IfOk result (λ children. All (Given M.Unit.Item S.NodeSource M.Summer first tree pieces store.new level) children.items) }
    ensures reads { ReadsFor (S.reads store.old) (S.reads store.new) steps.old steps.new }
    ensures sound { IfErr result BlamesNone }
    ensures sums { (first : M) (begun : S) → KnowsNode M.Unit.Item S.NodeSource M.Summer first begun summer.old store.old node → PutsKnown M.Unit.Item S.NodeSource M.Summer first begun summer.new store.new (S.puts store.old) result }
    ensures answered { (first : M) → M.goes first summer.old → IfOk result (λ children. All (λ child. IsSumGiven M.Summer first summer.new child.sum) children.items) }
    ensures ran { Ran M.Unit.Item S.NodeSource M.Summer store.old store.new summer.old summer.new result }
    ensures ready { OnOk result (S.is_ready store.new) }
{
    if node.len() <= 64 {
        let whole = place_all(alloc, store, summer, node, steps)?;
        return Ok(whole);
    }
    let at = node.len() / 64 * 32;
    let (left, right) = split_node(node, at)?;
    let mut front = place_row(alloc, store, summer, left, steps)?;
    let back = place_row(alloc, store, summer, right, steps)?;
    add_all(&mut front, back)?;
    Ok(front)
}
