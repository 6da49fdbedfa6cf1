//! The value of a range of the items of a tree.

ghost use Rattle.std.specs.List.{sum_by};
ghost use Rattle.std.specs.Prelude.{◌≡◌, ◌≢◌, ◌↔◌, ℕ, ◌+◌, ◌-◌, ◌*◌, ◌==◌, ◌<◌, ◌≤◌, ◌^◌, ◌∷◌, ◌++◌, min, List, [], Option, None, Some, All, IfErr, IfOk, IfSome, OnOk, length, map, take, drop, slice_index_or};
ghost use Rattle.tree_laws.specs.Fitting.{item_count};
ghost use Rattle.tree_laws.specs.Nodes.{entries, is_leaf};
ghost use Rattle.tree_laws.specs.Stores.{Places, WhereTold};
ghost use Rattle.tree_laws.specs.SummerTrees.{AreChildren, Has, IsTree, IsTreeSize, Stands};
ghost use Rattle.tree_laws.specs.Values.{values_of};
ghost use Rattle.tree_laws.specs.declared.node.Child.{Child};
ghost use Rattle.tree_laws.specs.declared.tree.Tree.{Tree};
ghost use Rattle.tree_query.specs.Calls.{OnlyReads, SumRan, Summed};
ghost use Rattle.tree_query.specs.Leading.{AreLedTo, Blames, IsLedTo, count_in};
ghost use Rattle.tree_query.specs.Ranges.{Gathered, IsValue, numbered};
ghost use Rattle.tree_query.specs.Reaching.{AreOf, IsGot, IsUnreadAt, ReadFails};
ghost use Rattle.tree_query.specs.Summaries.{BeginsInFirst, Cuts, IsRead, NodeIsRead, RangeIsRead, RangeStops, RowIsRead};

use crate::fetch::fetch;
use json_terms::NoMemory;
use std::alloc::Global;
use std::sync::ledger::Ledger;
use tree_laws::{Child, Fill, Node, NodeSource, Steps, Summer, Tree, TreeFault};

/// How many children from the front have no more than `n` items together, and how many items are missing to `n`.
pub(crate) fn count_within<T>(children: &[Child<T>], n: u64) -> (usize, u64)
    ensures within { result.0 ≤ length children.now }
    ensures count { sum_by (λ c. c.count) (take result.0 children.now) + result.1 ≡ n }
    ensures inside { (d : Child T) → result.0 < length children.now → result.1 < (slice_index_or children.now result.0 d).count }
{
    let mut left = n;
    for (i, child) in children.iter().enumerate() {
        if left < child.count {
            return (i, left);
        }
        left -= child.count;
    }
    (children.len(), left)
}

// The children that end within the first `n` items, the others, and how many of these items are below the others.
fn cut<'a, T>(children: &'a [Child<T>], n: u64) -> (&'a [Child<T>], &'a [Child<T>], u64)
    ensures whole { children.now ≡ result.0.now ++ result.1.now }
    ensures count { sum_by (λ c. c.count) result.0.now + result.2 ≡ n }
    ensures inside { BeginsInFirst result.1.now result.2 }
{
    let (at, left) = count_within(children, n);
    let (front, back) = children.split_at(at);
    (front, back, left)
}

/// The lesser of a number and a length.
pub(crate) fn within(n: u64, len: usize) -> usize
    ensures { result ≡ min n len }
{
    if n < len as u64 { n as usize } else { len }
}

fn push_sum<X: Drop>(sums: &mut Vec<X>, sum: X) -> Result<(), NoMemory>
    ensures { OnOk result (sums.new.items ≡ sums.old.items ++ sum ∷ []) }
{
    sums.push(sum)?;
    Ok(())
}

fn append_sums<X: Drop>(sums: &mut Vec<X>, more: Vec<X>) -> Result<(), NoMemory>
    ensures { OnOk result (sums.new.items ≡ sums.old.items ++ more.items) }
{
    let mut more = more;
    sums.append(&mut more)?;
    Ok(())
}

// The value of some items, if there are any.
fn add_leaf<F, M: Summer>(
    alloc: Global,
    summer: &mut M,
    items: &[M::Unit],
    parts: &mut Vec<M::Sum>,
) -> Result<(), TreeFault<F, M::Fault>>
    requires { length items.now ≤ 32 }
    ensures items { (first : M) (done : List M.Unit) → M.goes first summer.old → Gathered M.Summer first parts.old.items done
        → OnOk result (Gathered M.Summer first parts.new.items (done ++ items.now)) }
    ensures fits { (first : M) → M.goes first summer.old → All (M.fits first) parts.old.items → OnOk result (All (M.fits first) parts.new.items) }
    ensures ran { Summed M.Summer summer.old summer.new result }
{
    if items.is_empty() {
        return Ok(());
    }
    let sum = match summer.leaf(alloc, items) {
        Ok(sum) => sum,
        Err(fault) => return Err(TreeFault::Summer(fault)),
    };
    push_sum(parts, sum)?;
    Ok(())
}

// The value of a child, as the node at `at` keeps it.
fn read_sum<F, M: Summer>(
    alloc: Global,
    at: u64,
    summer: &M,
    bytes: &[u8],
) -> Result<M::Sum, TreeFault<F, M::Fault>>
    ensures spelled { IfOk result (λ sum. (M.meaning summer.now).spelled sum ≡ bytes.now) }
    ensures fits { IfOk result (M.fits summer.now) }
    ensures cause { IfErr result (IsUnreadAt M.Summer summer.now at bytes.now) }
{
    match summer.decode_sum(alloc, bytes)? {
        Ok(sum) => Ok(sum),
        Err(_) => Err(TreeFault::BadNode(at)),
    }
}

// The values of children, as the node at `at` keeps them.
fn read_sums<F, M: Summer>(
    alloc: Global,
    at: u64,
    summer: &M,
    children: &[Child<M::Unit>],
) -> Result<Vec<M::Sum>, TreeFault<F, M::Fault>>
    ensures spelled { IfOk result (λ sums. map (λ child. child.sum) children.now ≡ map (M.meaning summer.now).spelled sums.items) }
    ensures fits { IfOk result (λ sums. All (M.fits summer.now) sums.items) }
    ensures cause { IfErr result (ReadFails M.Summer summer.now at children.now) }
{
    let mut sums = Vec::new(alloc);
    for child in children {
        let sum = read_sum(alloc, at, summer, child.sum.as_slice())?;
        push_sum(&mut sums, sum)?;
    }
    Ok(sums)
}

// The values of whole children, as the node at `at` keeps them.
fn add_whole<F, M: Summer>(
    alloc: Global,
    at: u64,
    summer: &M,
    children: &[Child<M::Unit>],
    parts: &mut Vec<M::Sum>,
) -> Result<(), TreeFault<F, M::Fault>>
    ensures items { (first : M) (there : Places) (low : ℕ) (done items : List M.Unit) → M.goes first summer.now
        → AreChildren M.Unit.Item M.Summer first (Stands M.Unit.Item M.Summer first there low) children.now items → Gathered M.Summer first parts.old.items done
        → OnOk result (Gathered M.Summer first parts.new.items (done ++ items)) }
    ensures fits { (first : M) → M.goes first summer.now → All (M.fits first) parts.old.items → OnOk result (All (M.fits first) parts.new.items) }
    ensures sums { (first : M) → M.goes first summer.now → OnOk result (All (λ child. IsRead (values_of M.Summer first) child.sum) children.now) }
    ensures cause { IfErr result (ReadFails M.Summer summer.now at children.now) }
{
    let sums = read_sums(alloc, at, summer, children)?;
    append_sums(parts, sums)?;
    Ok(())
}

// Gathers the items of a node from a number on.
#[cycle(tail)]
fn tail<S: NodeSource, M: Summer, L: Ledger>(
    alloc: Global,
    store: &mut S,
    summer: &mut M,
    at: u64,
    level: u32,
    node: Node<M::Unit>,
    from: u64,
    parts: &mut Vec<M::Sum>,
    steps: &mut Steps<L>,
) -> Result<(), TreeFault<S::Fault, M::Fault>>
    requires ready { S.is_ready store.old }
    requires kind { is_leaf node ≡ (level == 0) }
    requires most { entries node ≤ 32 }
    ensures items { (first : M) (there : Places) (done items : List M.Unit) → S.nodes store.old ≡ Some there → M.goes first summer.old
        → from ≤ length items → Has M.Unit.Item M.Summer first there level node items → Gathered M.Summer first parts.old.items done
        → OnOk result (Gathered M.Summer first parts.new.items (done ++ drop from items)) }
    ensures fits { (first : M) → M.goes first summer.old → All (M.fits first) parts.old.items → OnOk result (All (M.fits first) parts.new.items) }
    ensures sums { (first : M) (there : Places) (to : ℕ) → S.nodes store.old ≡ Some there → M.goes first summer.old → item_count node ≤ to
        → OnOk result (NodeIsRead M.Unit.Item (values_of M.Summer first) there level node from to) }
    ensures reads { OnlyReads S.NodeSource level store.old store.new steps.old steps.new }
    ensures ran { (first : M) (tree : Tree) (since : List ℕ) → M.goes first summer.old → WhereTold (S.nodes store.old) (λ there. IsGot M.Unit.Item there tree since (S.gets store.old) at level node)
        → SumRan M.Unit.Item S.NodeSource M.Summer first tree since store.old store.new summer.old summer.new result }
    ensures stops { (first : M) (tree : Tree) (there : Places) (begin end start : ℕ) → S.nodes store.old ≡ Some there → M.goes first summer.old
        → IsLedTo M.Unit.Item there tree (Cuts begin end) at level start node → from ≡ begin - start → start + item_count node ≤ end
        → IfErr result (Blames (RangeStops M.Unit.Item there tree begin end (values_of M.Summer first))) }
    ensures goes { OnOk result (M.goes summer.old summer.new) }
    ensures ready { OnOk result (S.is_ready store.new) }
{
    match node {
        Node::Leaf(items) => {
            let list = items.as_slice();
            let (_, back) = list.split_at(within(from, list.len()));
            add_leaf(alloc, summer, back, parts)
        }
        Node::Inner(children) => {
            let (_, back, offset) = cut(children.as_slice(), from);
            tail_row(
                alloc,
                store,
                summer,
                at,
                level - 1,
                back,
                offset,
                parts,
                steps,
            )
        }
    }
}

// Gathers the items of children from one of the first child's on.
#[cycle(tail)]
fn tail_row<S: NodeSource, M: Summer, L: Ledger>(
    alloc: Global,
    store: &mut S,
    summer: &mut M,
    at: u64,
    low: u32,
    children: &[Child<M::Unit>],
    from: u64,
    parts: &mut Vec<M::Sum>,
    steps: &mut Steps<L>,
) -> Result<(), TreeFault<S::Fault, M::Fault>>
    requires ready { S.is_ready store.old }
    ensures items { (first : M) (there : Places) (done items : List M.Unit) → S.nodes store.old ≡ Some there → M.goes first summer.old
        → BeginsInFirst children.now from → AreChildren M.Unit.Item M.Summer first (Stands M.Unit.Item M.Summer first there low) children.now items → Gathered M.Summer first parts.old.items done
        → OnOk result (Gathered M.Summer first parts.new.items (done ++ drop from items)) }
    ensures fits { (first : M) → M.goes first summer.old → All (M.fits first) parts.old.items → OnOk result (All (M.fits first) parts.new.items) }
    ensures sums { (first : M) (there : Places) (to : ℕ) → S.nodes store.old ≡ Some there → M.goes first summer.old
        → BeginsInFirst children.now from → count_in children.now ≤ to
        → OnOk result (RowIsRead M.Unit.Item (values_of M.Summer first) there low children.now from to) }
    ensures reads { OnlyReads S.NodeSource (low + 1) store.old store.new steps.old steps.new }
    ensures ran { (first : M) (tree : Tree) (since : List ℕ) → M.goes first summer.old → WhereTold (S.nodes store.old) (λ there. AreOf M.Unit.Item there tree since (S.gets store.old) at low children.now)
        → SumRan M.Unit.Item S.NodeSource M.Summer first tree since store.old store.new summer.old summer.new result }
    ensures stops { (first : M) (tree : Tree) (there : Places) (begin end start : ℕ) → S.nodes store.old ≡ Some there → M.goes first summer.old
        → AreLedTo M.Unit.Item there tree (Cuts begin end) at low start children.now
        → BeginsInFirst children.now from
        → from ≡ begin - start → start + count_in children.now ≤ end
        → IfErr result (Blames (RangeStops M.Unit.Item there tree begin end (values_of M.Summer first))) }
    ensures goes { OnOk result (M.goes summer.old summer.new) }
    ensures ready { OnOk result (S.is_ready store.new) }
{
    if from == 0 {
        return add_whole(alloc, at, summer, children, parts);
    }
    let (child, after) = match children.split_first() {
        Some(pair) => pair,
        None => return Ok(()),
    };
    let node = fetch(alloc, store, child.at, low, child.count, Fill::Below, steps)?;
    tail(
        alloc, store, summer, child.at, low, node, from, parts, steps,
    )?;
    add_whole(alloc, at, summer, after, parts)
}

// Gathers the first items of a node.
#[cycle(head)]
fn head<S: NodeSource, M: Summer, L: Ledger>(
    alloc: Global,
    store: &mut S,
    summer: &mut M,
    at: u64,
    level: u32,
    node: Node<M::Unit>,
    to: u64,
    parts: &mut Vec<M::Sum>,
    steps: &mut Steps<L>,
) -> Result<(), TreeFault<S::Fault, M::Fault>>
    requires ready { S.is_ready store.old }
    requires kind { is_leaf node ≡ (level == 0) }
    requires most { entries node ≤ 32 }
    ensures items { (first : M) (there : Places) (done items : List M.Unit) → S.nodes store.old ≡ Some there → M.goes first summer.old
        → to ≤ length items → Has M.Unit.Item M.Summer first there level node items → Gathered M.Summer first parts.old.items done
        → OnOk result (Gathered M.Summer first parts.new.items (done ++ take to items)) }
    ensures fits { (first : M) → M.goes first summer.old → All (M.fits first) parts.old.items → OnOk result (All (M.fits first) parts.new.items) }
    ensures sums { (first : M) (there : Places) → S.nodes store.old ≡ Some there → M.goes first summer.old
        → OnOk result (NodeIsRead M.Unit.Item (values_of M.Summer first) there level node 0 to) }
    ensures reads { OnlyReads S.NodeSource level store.old store.new steps.old steps.new }
    ensures ran { (first : M) (tree : Tree) (since : List ℕ) → M.goes first summer.old → WhereTold (S.nodes store.old) (λ there. IsGot M.Unit.Item there tree since (S.gets store.old) at level node)
        → SumRan M.Unit.Item S.NodeSource M.Summer first tree since store.old store.new summer.old summer.new result }
    ensures stops { (first : M) (tree : Tree) (there : Places) (begin end start : ℕ) → S.nodes store.old ≡ Some there → M.goes first summer.old
        → IsLedTo M.Unit.Item there tree (Cuts begin end) at level start node → begin ≤ start → start + to ≡ end
        → IfErr result (Blames (RangeStops M.Unit.Item there tree begin end (values_of M.Summer first))) }
    ensures goes { OnOk result (M.goes summer.old summer.new) }
    ensures ready { OnOk result (S.is_ready store.new) }
{
    match node {
        Node::Leaf(items) => {
            let list = items.as_slice();
            let (front, _) = list.split_at(within(to, list.len()));
            add_leaf(alloc, summer, front, parts)
        }
        Node::Inner(children) => {
            let (front, back, offset) = cut(children.as_slice(), to);
            add_whole(alloc, at, summer, front, parts)?;
            head_row(alloc, store, summer, level - 1, back, offset, parts, steps)
        }
    }
}

// Gathers the first items of children, all of the first child's.
#[cycle(head)]
fn head_row<S: NodeSource, M: Summer, L: Ledger>(
    alloc: Global,
    store: &mut S,
    summer: &mut M,
    low: u32,
    children: &[Child<M::Unit>],
    to: u64,
    parts: &mut Vec<M::Sum>,
    steps: &mut Steps<L>,
) -> Result<(), TreeFault<S::Fault, M::Fault>>
    requires ready { S.is_ready store.old }
    ensures items { (first : M) (there : Places) (done items : List M.Unit) → S.nodes store.old ≡ Some there → M.goes first summer.old
        → BeginsInFirst children.now to → AreChildren M.Unit.Item M.Summer first (Stands M.Unit.Item M.Summer first there low) children.now items → Gathered M.Summer first parts.old.items done
        → OnOk result (Gathered M.Summer first parts.new.items (done ++ take to items)) }
    ensures fits { (first : M) → M.goes first summer.old → All (M.fits first) parts.old.items → OnOk result (All (M.fits first) parts.new.items) }
    ensures sums { (first : M) (there : Places) → S.nodes store.old ≡ Some there → M.goes first summer.old
        → BeginsInFirst children.now to
        → OnOk result (RowIsRead M.Unit.Item (values_of M.Summer first) there low children.now 0 to) }
    ensures reads { OnlyReads S.NodeSource (low + 1) store.old store.new steps.old steps.new }
    ensures ran { (first : M) (tree : Tree) (since : List ℕ) (at : ℕ) → M.goes first summer.old → WhereTold (S.nodes store.old) (λ there. AreOf M.Unit.Item there tree since (S.gets store.old) at low children.now)
        → SumRan M.Unit.Item S.NodeSource M.Summer first tree since store.old store.new summer.old summer.new result }
    ensures stops { (first : M) (tree : Tree) (there : Places) (begin end at start : ℕ) → S.nodes store.old ≡ Some there → M.goes first summer.old
        → AreLedTo M.Unit.Item there tree (Cuts begin end) at low start children.now
        → BeginsInFirst children.now to
        → begin ≤ start → start + to ≡ end
        → IfErr result (Blames (RangeStops M.Unit.Item there tree begin end (values_of M.Summer first))) }
    ensures goes { OnOk result (M.goes summer.old summer.new) }
    ensures ready { OnOk result (S.is_ready store.new) }
{
    if to == 0 {
        return Ok(());
    }
    let (child, _) = match children.split_first() {
        Some(pair) => pair,
        None => return Ok(()),
    };
    let node = fetch(alloc, store, child.at, low, child.count, Fill::Below, steps)?;
    head(alloc, store, summer, child.at, low, node, to, parts, steps)
}

// Gathers the items of a node numbered `from` to `to - 1`: down one path while one child has them all.
fn inside<S: NodeSource, M: Summer, L: Ledger>(
    alloc: Global,
    store: &mut S,
    summer: &mut M,
    at: u64,
    level: u32,
    node: Node<M::Unit>,
    from: u64,
    to: u64,
    parts: &mut Vec<M::Sum>,
    steps: &mut Steps<L>,
) -> Result<(), TreeFault<S::Fault, M::Fault>>
    requires ready { S.is_ready store.old }
    requires kind { is_leaf node ≡ (level == 0) }
    requires most { entries node ≤ 32 }
    requires range { from ≤ to }
    ensures items { (first : M) (there : Places) (done items : List M.Unit) → S.nodes store.old ≡ Some there → M.goes first summer.old
        → to ≤ length items → Has M.Unit.Item M.Summer first there level node items → Gathered M.Summer first parts.old.items done
        → OnOk result (Gathered M.Summer first parts.new.items (done ++ numbered from to items)) }
    ensures fits { (first : M) → M.goes first summer.old → All (M.fits first) parts.old.items → OnOk result (All (M.fits first) parts.new.items) }
    ensures sums { (first : M) (there : Places) → S.nodes store.old ≡ Some there → M.goes first summer.old
        → OnOk result (NodeIsRead M.Unit.Item (values_of M.Summer first) there level node from to) }
    ensures reads { OnlyReads S.NodeSource (2 * level) store.old store.new steps.old steps.new }
    ensures ran { (first : M) (tree : Tree) (since : List ℕ) → M.goes first summer.old → WhereTold (S.nodes store.old) (λ there. IsGot M.Unit.Item there tree since (S.gets store.old) at level node)
        → SumRan M.Unit.Item S.NodeSource M.Summer first tree since store.old store.new summer.old summer.new result }
    ensures stops { (first : M) (tree : Tree) (there : Places) (begin end start : ℕ) → S.nodes store.old ≡ Some there → M.goes first summer.old
        → IsLedTo M.Unit.Item there tree (Cuts begin end) at level start node → from < to → from ≡ begin - start → start + to ≡ end
        → IfErr result (Blames (RangeStops M.Unit.Item there tree begin end (values_of M.Summer first))) }
    ensures goes { OnOk result (M.goes summer.old summer.new) }
    ensures ready { OnOk result (S.is_ready store.new) }
{
    match node {
        Node::Leaf(items) => {
            let list = items.as_slice();
            let (front, _) = list.split_at(within(to, list.len()));
            let (_, mid) = front.split_at(within(from, front.len()));
            add_leaf(alloc, summer, mid, parts)
        }
        Node::Inner(children) => {
            let (_, rest, offset) = cut(children.as_slice(), from);
            let end = to - from + offset;
            let (mid, after, left) = cut(rest, end);
            let low = level - 1;
            if !mid.is_empty() {
                tail_row(alloc, store, summer, at, low, mid, offset, parts, steps)?;
                return head_row(alloc, store, summer, low, after, left, parts, steps);
            }
            let (child, _) = match after.split_first() {
                Some(pair) => pair,
                // A child has the items of the range, so this doesn't come.
                None => return Ok(()),
            };
            let below = fetch(alloc, store, child.at, low, child.count, Fill::Below, steps)?;
            inside(
                alloc, store, summer, child.at, low, below, offset, end, parts, steps,
            )
        }
    }
}

// The value of all the parts.
fn join_parts<F, M: Summer>(
    alloc: Global,
    summer: &mut M,
    parts: &[M::Sum],
) -> Result<M::Sum, TreeFault<F, M::Fault>>
    ensures value { (first : M) (items : List M.Unit) → M.goes first summer.old → items ≢ [] → All M.Unit.fits items → length items ≤ 2 ^ 63
        → Gathered M.Summer first parts.now items → IfOk result (λ sum. M.lawful first → sum ≡ (M.meaning first).value items) }
    ensures fits { (first : M) → M.goes first summer.old → All (M.fits first) parts.now → IfOk result (M.fits first) }
    ensures ran { Summed M.Summer summer.old summer.new result }
{
    match summer.join(alloc, parts) {
        Ok(sum) => Ok(sum),
        Err(fault) => Err(TreeFault::Summer(fault)),
    }
}

/// The value of the items of a tree with the numbers `from` to `to - 1`, and `None` exactly where there are none.
///
/// The range leads to the root, and on to each child that it cuts. Whole children are taken by the values that their nodes keep, so it
/// takes twice the `height` in steps at most. It answers a value, which fits, only where each node that it got fits its place, a node
/// that fits stands wherever the range leads, and what such a node keeps of each child that lies whole in the range is the bytes of a
/// value. It gives up at once: each node that it got before the last fits in any case. `Store` and `Summer` hand on what the store and
/// the summer answered in this call, and the other of them goes on. `BadNode` names a place to which the range leads: the last one that
/// it got, where no node stands that fits there, or one that it got where all fit, whose node keeps the bytes of no value for a child
/// that lies whole in the range. It never comes over a tree of this summer. `NoMemory` comes where memory runs out.
pub fn reduce_range<S: NodeSource, M: Summer, L: Ledger>(
    alloc: Global,
    store: &mut S,
    tree: Tree,
    summer: &mut M,
    from: u64,
    to: u64,
    steps: &mut Steps<L>,
) -> Result<Option<M::Sum>, TreeFault<S::Fault, M::Fault>>
    requires ready { S.is_ready store.old }
    requires size { IsTreeSize tree }
    requires range { from ≤ to }
    requires within { to ≤ tree.count }
    ensures value { (first : M) (there : Places) (items : List M.Unit) → S.nodes store.old ≡ Some there → M.goes first summer.old
        → IsTree M.Unit.Item M.Summer first there tree items → IfOk result (IsValue M.Summer first (numbered from to items)) }
    ensures fits { IfOk result (λ sum. IfSome sum (M.fits summer.old)) }
    ensures sums { WhereTold (S.nodes store.old) (λ there.
        IfOk result (λ sum. IfSome sum (λ _. RangeIsRead M.Unit.Item there tree from to (values_of M.Summer summer.old)))) }
    ensures none { IfOk result (λ sum. (sum ≡ None) ↔ (from ≡ to)) }
    ensures reads { OnlyReads S.NodeSource (2 * tree.height) store.old store.new steps.old steps.new }
    ensures ran { SumRan M.Unit.Item S.NodeSource M.Summer summer.old tree (S.gets store.old) store.old store.new summer.old summer.new result }
    ensures stops { WhereTold (S.nodes store.old) (λ there.
        IfErr result (Blames (RangeStops M.Unit.Item there tree from to (values_of M.Summer summer.old)))) }
    ensures sound { (first : M) (there : Places) (items : List M.Unit) (at : ℕ) → S.nodes store.old ≡ Some there → M.goes first summer.old
        → IsTree M.Unit.Item M.Summer first there tree items → result ≡ Err (TreeFault.BadNode at) → ⊥ }
    ensures ready { OnOk result (S.is_ready store.new) }
{
    if from == to {
        return Ok(None);
    }
    let level = tree.height - 1;
    let root = fetch(
        alloc,
        store,
        tree.root,
        level,
        tree.count,
        Fill::Root,
        steps,
    )?;
    let mut parts = Vec::new(alloc);
    inside(
        alloc, store, summer, tree.root, level, root, from, to, &mut parts, steps,
    )?;
    let sum = join_parts(alloc, summer, parts.as_slice())?;
    Ok(Some(sum))
}
