//! What the entry for a node says of the items below it.

ghost use Rattle.reduce_tree.specs.Pieces.{IsSummed, IsSumSpelled};
ghost use Rattle.reduce_tree.specs.Calls.{Summed};
ghost use Rattle.reduce_tree.specs.Sums.{IsSumGiven};
ghost use Rattle.reduce_tree.specs.Rows.{Tells, leaf_items};
ghost use Rattle.std.specs.List.{sum_by};
ghost use Rattle.std.specs.Prelude.{ℕ, ◌≡◌, ◌<◌, ◌≤◌, ◌^◌, List, IfOk, OnOk, All, length, map};
ghost use Rattle.tree_laws.specs.Fitting.{item_count};
ghost use Rattle.tree_laws.specs.Nodes.{entries, FitsNode};
ghost use Rattle.tree_laws.specs.Stores.{Places};
ghost use Rattle.tree_laws.specs.SummerTrees.{Has, AreChildren, Stands};

use json_terms::NoMemory;
use std::alloc::Global;
use tree_laws::{Child, Item, Node, SumBytes, Summer, TreeFault};

/// What an entry says of a node.
#[derive(Drop)]
pub(crate) struct Told<T> {
    pub(crate) count: u64,
    pub(crate) last: T,
    pub(crate) sum: SumBytes,
}

/// What the entry for a node says, of which `summer` is asked for the value.
pub(crate) fn tell<F, M: Summer>(
    alloc: Global,
    summer: &mut M,
    node: &Node<M::Unit>,
) -> Result<Told<M::Unit>, TreeFault<F, M::Fault>>
    requires some { 0 < entries node.now }
    requires few { item_count node.now ≤ 2 ^ 40 }
    ensures count { IfOk result (λ told. told.count ≡ item_count node.now) }
    ensures tells { (first : M) (there : Places) (level : ℕ) (items : List M.Unit) → M.goes first summer.old
        → FitsNode M.Unit.fits M.Unit.spelled node.now → Has M.Unit.Item M.Summer first there level node.now items
        → IfOk result (λ told. Tells M.Unit.Item M.Summer first told.count told.last told.sum items) }
    ensures usable { 0 < leaf_items node.now → OnOk result (M.usable summer.old) }
    ensures summed { OnOk result (IsSummed M.Unit.Item M.Summer summer.old summer.new node.now) }
    ensures gave { IfOk result (λ told. IsSumGiven M.Summer summer.old summer.new told.sum) }
    ensures ran { Summed M.Summer summer.old summer.new result }
{
    match node {
        Node::Leaf(items) => {
            let told = tell_leaf(alloc, summer, items.as_slice())?;
            Ok(told)
        }
        Node::Inner(children) => {
            let told = tell_inner(alloc, summer, children.as_slice())?;
            Ok(told)
        }
    }
}

fn tell_leaf<F, M: Summer>(
    alloc: Global,
    summer: &mut M,
    items: &[M::Unit],
) -> Result<Told<M::Unit>, TreeFault<F, M::Fault>>
    requires { 0 < length items.now }
    ensures count { IfOk result (λ told. told.count ≡ length items.now) }
    ensures tells { (first : M) → M.goes first summer.old → length items.now ≤ 2 ^ 63 → IfOk result (λ told. Tells M.Unit.Item M.Summer first told.count told.last told.sum items.now) }
    ensures usable { OnOk result (M.usable summer.old) }
    ensures asked { OnOk result (M.asked summer.old summer.new items.now) }
    ensures gave { IfOk result (λ told. IsSumGiven M.Summer summer.old summer.new told.sum) }
    ensures ran { Summed M.Summer summer.old summer.new result }
{
    let sum = match summer.leaf(alloc, items) {
        Ok(sum) => sum,
        Err(fault) => return Err(TreeFault::Summer(fault)),
    };
    let sum = spell_sum(alloc, summer, &sum)?;
    let last = items[items.len() - 1].copy_item(alloc)?;
    Ok(Told {
        count: items.len() as u64,
        last,
        sum,
    })
}

fn tell_inner<F, M: Summer>(
    alloc: Global,
    summer: &mut M,
    children: &[Child<M::Unit>],
) -> Result<Told<M::Unit>, TreeFault<F, M::Fault>>
    requires some { 0 < length children.now }
    requires few { sum_by (λ child. child.count) children.now ≤ 2 ^ 40 }
    ensures count { IfOk result (λ told. told.count ≡ sum_by (λ child. child.count) children.now) }
    ensures tells { (first : M) (there : Places) (level : ℕ) (items : List M.Unit) → M.goes first summer.old
        → All M.Unit.fits items → AreChildren M.Unit.Item M.Summer first (Stands M.Unit.Item M.Summer first there level) children.now items
        → IfOk result (λ told. Tells M.Unit.Item M.Summer first told.count told.last told.sum items) }
    ensures summed { OnOk result (All (λ child. IsSumSpelled M.Unit.Item M.Summer summer.old child.sum) children.now) }
    ensures gave { IfOk result (λ told. IsSumGiven M.Summer summer.old summer.new told.sum) }
    ensures ran { Summed M.Summer summer.old summer.new result }
{
    let sums = read_sums(alloc, summer, children)?;
    let sum = match summer.join(alloc, sums.as_slice()) {
        Ok(sum) => sum,
        Err(fault) => return Err(TreeFault::Summer(fault)),
    };
    let sum = spell_sum(alloc, summer, &sum)?;
    let last = children[children.len() - 1].last.copy_item(alloc)?;
    Ok(Told {
        count: count_items(children),
        last,
        sum,
    })
}

/// The bytes of a value.
fn spell_sum<M: Summer>(alloc: Global, summer: &M, sum: &M::Sum) -> Result<SumBytes, NoMemory>
    ensures bytes { IfOk result (λ bytes. bytes ≡ (M.meaning summer.now).spelled sum.now) }
    ensures fits { OnOk result (M.fits summer.now sum.now) }
{
    let mut bytes = Vec::new(alloc);
    summer.encode_sum(alloc, sum, &mut bytes)?;
    Ok(SumBytes::from_vec(bytes))
}

/// The values that the children's entries keep.
fn read_sums<M: Summer>(
    alloc: Global,
    summer: &M,
    children: &[Child<M::Unit>],
) -> Result<Vec<M::Sum>, NoMemory>
    ensures spelled { IfOk result (λ sums. map (λ child. child.sum) children.now ≡ map (M.meaning summer.now).spelled sums.items) }
    ensures fits { IfOk result (λ sums. All (M.fits summer.now) sums.items) }
{
    let mut sums = Vec::new(alloc);
    for child in children {
        let sum = read_sum(alloc, summer, child.sum.as_slice())?;
        sums.push(sum)?;
    }
    Ok(sums)
}

// Each summary was looked at when its node was fetched, or spelled by the summer, so one that isn't read doesn't come.
fn read_sum<M: Summer>(alloc: Global, summer: &M, bytes: &[u8]) -> Result<M::Sum, NoMemory>
    ensures spelled { IfOk result (λ sum. (M.meaning summer.now).spelled sum ≡ bytes.now) }
    ensures fits { IfOk result (M.fits summer.now) }
{
    match summer.decode_sum(alloc, bytes)? {
        Ok(sum) => Ok(sum),
        Err(_) => Err(NoMemory),
    }
}

/// The children's numbers of items, added up.
fn count_items<T>(children: &[Child<T>]) -> u64
    requires { sum_by (λ child. child.count) children.now ≤ 2 ^ 40 }
    ensures { result ≡ sum_by (λ child. child.count) children.now }
{
    let mut total: u64 = 0;
    for child in children {
        total += child.count;
    }
    total
}
