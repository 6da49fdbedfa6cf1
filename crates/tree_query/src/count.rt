//! How many items of a tree stand before a bound.

ghost use Rattle.std.specs.List.Sorted.{IsStrictlySortedBy};
ghost use Rattle.std.specs.List.{filter, sum_by};
ghost use Rattle.std.specs.Prelude.{true, false, ◌≡◌, ℕ, ◌-◌, ◌+◌, ◌==◌, ◌<◌, ◌≤◌, ◌^◌, ◌∷◌, ◌++◌, List, Some, IfOk, OnOk, All, length, take, slice_index_or};
ghost use Rattle.tree_laws.specs.Fitting.{item_count};
ghost use Rattle.tree_laws.specs.Nodes.{is_leaf};
ghost use Rattle.tree_laws.specs.Reaching.{IsMet};
ghost use Rattle.tree_laws.specs.Stores.{Places, WhereTold};
ghost use Rattle.tree_laws.specs.Trees.{IsTreeSize};
ghost use Rattle.tree_laws.specs.declared.node.Child.{Child};
ghost use Rattle.tree_laws.specs.declared.tree.Tree.{Tree};
ghost use Rattle.tree_query.specs.Bare.{HasItems, HoldsItems};
ghost use Rattle.tree_query.specs.Bounds.{FirstNotBefore};
ghost use Rattle.tree_query.specs.Calls.{OnlyReads, Ran};
ghost use Rattle.tree_query.specs.Leading.{GoesDown, IsLedTo};

use crate::fetch::fetch;
use json_terms::NoMemory;
use std::alloc::Global;
use std::sync::ledger::Ledger;
use tree_laws::{Bound, Child, Fill, Node, NodeSource, Steps, Tree, TreeFault};

// How many items from the front stand before the bound.
fn count_front<B: Bound>(items: &[B::Unit], bound: &B) -> usize
    ensures within { result ≤ length items.now }
    ensures before { All (λ x. B.front bound.now x ≡ true) (take result items.now) }
    ensures stops { (d : B.Unit) → result < length items.now → B.front bound.now (slice_index_or items.now result d) ≡ false }
{
    for (i, item) in items.iter().enumerate() {
        if !bound.before(item) {
            return i;
        }
    }
    items.len()
}

// How many children from the front end before the bound.
fn count_passed<B: Bound>(children: &[Child<B::Unit>], bound: &B) -> usize
    ensures within { result ≤ length children.now }
    ensures passed { All (λ c. B.front bound.now c.last ≡ true) (take result children.now) }
    ensures stops { (d : Child B.Unit) → result < length children.now → B.front bound.now (slice_index_or children.now result d).last ≡ false }
{
    for (i, child) in children.iter().enumerate() {
        if !bound.before(&child.last) {
            return i;
        }
    }
    children.len()
}

// The children that end before the bound, and the others.
fn pass<'a, B: Bound>(
    children: &'a [Child<B::Unit>],
    bound: &B,
) -> (&'a [Child<B::Unit>], &'a [Child<B::Unit>])
    ensures whole { children.now ≡ result.0.now ++ result.1.now }
    ensures passed { All (λ c. B.front bound.now c.last ≡ true) result.0.now }
    ensures stops { (c : Child B.Unit) (cs : List (Child B.Unit)) → result.1.now ≡ c ∷ cs → B.front bound.now c.last ≡ false }
{
    let at = count_passed(children, bound);
    children.split_at(at)
}

// The children's numbers of items, added up.
fn count_items<T>(children: &[Child<T>]) -> u64
    requires { sum_by (λ child. child.count) children.now ≤ 2 ^ 40 }
    ensures { result ≡ sum_by (λ child. child.count) children.now }
{
    let mut total: u64 = 0;
    for child in children {
        total += child.count;
    }
    total
}

// How many items in and below a node stand before the bound.
fn count_node<S: NodeSource, B: Bound, L: Ledger>(
    alloc: Global,
    store: &mut S,
    level: u32,
    node: Node<B::Unit>,
    bound: &B,
    steps: &mut Steps<L>,
) -> Result<u64, TreeFault<S::Fault, NoMemory>>
    requires ready { S.is_ready store.old }
    requires kind { is_leaf node ≡ (level == 0) }
    requires few { item_count node ≤ 2 ^ 40 }
    ensures count { (there : Places) (items : List B.Unit) → S.nodes store.old ≡ Some there → IsStrictlySortedBy B.Unit.order items
        → HasItems B.Unit.Item there level node items → IfOk result (λ n. n ≡ length (filter (B.front bound.now) items)) }
    ensures within { IfOk result (λ n. n ≤ item_count node) }
    ensures reads { OnlyReads S.NodeSource level store.old store.new steps.old steps.new }
    ensures ran { (tree : Tree) (at : ℕ) → WhereTold (S.nodes store.old) (λ there. IsMet B.Unit.Item there tree at level node)
        → Ran B.Unit.Item S.NodeSource tree store.old store.new result }
    ensures down { (tree : Tree) (there : Places) (at start : ℕ) → S.nodes store.old ≡ Some there
        → IsLedTo B.Unit.Item there tree (FirstNotBefore (B.front bound.now)) at level start node
        → GoesDown B.Unit.Item there tree (FirstNotBefore (B.front bound.now)) result }
    ensures ready { OnOk result (S.is_ready store.new) }
{
    match node {
        Node::Leaf(items) => Ok(count_front(items.as_slice(), bound) as u64),
        Node::Inner(children) => {
            let (passed, rest) = pass(children.as_slice(), bound);
            let count = count_items(passed);
            let (child, _) = match rest.split_first() {
                Some(pair) => pair,
                None => return Ok(count),
            };
            let low = level - 1;
            let below = fetch(alloc, store, child.at, low, child.count, Fill::Below, steps)?;
            let more = count_node(alloc, store, low, below, bound, steps)?;
            Ok(count + more)
        }
    }
}

/// How many items of a tree stand before the bound. On any nodes it is no more than the tree's count.
///
/// The bound leads to the root, and on from each node that fits to the first child whose last item doesn't stand before it. It takes
/// `height` steps at most, and answers a number only where a node that fits stands wherever the bound leads, at the level and with the
/// number of items that are wanted there. It gives up at once: each node that it got before the last fits in any case. `Store` hands on
/// what the store answered in this call, at a place on the way down from the root. `BadNode` names the last place that it got, to which
/// the bound leads and where no node stands that fits there, and never comes where the tree has items. `NoMemory` comes where memory
/// runs out, and `Summer` never.
pub fn count_before<S: NodeSource, B: Bound, L: Ledger>(
    alloc: Global,
    store: &mut S,
    tree: Tree,
    bound: &B,
    steps: &mut Steps<L>,
) -> Result<u64, TreeFault<S::Fault, NoMemory>>
    requires ready { S.is_ready store.old }
    requires size { IsTreeSize tree }
    ensures count { (there : Places) (items : List B.Unit) → S.nodes store.old ≡ Some there → HoldsItems B.Unit.Item there tree items
        → IfOk result (λ n. n ≡ length (filter (B.front bound.now) items)) }
    ensures within { IfOk result (λ n. n ≤ tree.count) }
    ensures reads { OnlyReads S.NodeSource tree.height store.old store.new steps.old steps.new }
    ensures ran { Ran B.Unit.Item S.NodeSource tree store.old store.new result }
    ensures down { WhereTold (S.nodes store.old) (λ there. GoesDown B.Unit.Item there tree (FirstNotBefore (B.front bound.now)) result) }
    ensures sound { (there : Places) (items : List B.Unit) (at : ℕ) → S.nodes store.old ≡ Some there → HoldsItems B.Unit.Item there tree items
        → result ≡ Err (TreeFault.BadNode at) → ⊥ }
    ensures ready { OnOk result (S.is_ready store.new) }
{
    if tree.height == 0 {
        return Ok(0);
    }
    let level = tree.height - 1;
    let root = fetch(
        alloc,
        store,
        tree.root,
        level,
        tree.count,
        Fill::Root,
        steps,
    )?;
    count_node(alloc, store, level, root, bound, steps)
}
