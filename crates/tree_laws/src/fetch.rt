//! Getting a node that fits its place in a tree.

ghost use Rattle.std.specs.Prelude.{◌≡◌, ◌+◌, ◌∷◌, ◌^◌, ◌≤◌, ◌↔◌, All, Some, IfErr, IfOk, IfSome, IsTrue, OnOk};
ghost use Rattle.std.specs.List.{sum_by};
ghost use Rattle.tree_laws.specs.Fetching.{FetchFails};
ghost use Rattle.tree_laws.specs.Fitting.{AreLarge, IsFilled, IsFitFor, item_count, least_entries};
ghost use Rattle.tree_laws.specs.Nodes.{FitsNode, spelled_node};
ghost use Rattle.tree_laws.specs.Stores.{RisesBy};

use crate::decode::decode_node;
use crate::item::Item;
use crate::node::{Child, Node};
use crate::steps::Steps;
use crate::store::NodeSource;
use crate::tree::{Fill, TreeFault};
use std::alloc::Global;
use std::sync::ledger::Ledger;

/// The node at a place of a level, where so many items are to stand in and below it. Leaves are at level 0. It takes one step,
/// and two reads at most. The source is ready.
///
/// `Store` hands on what the source answers. `BadNode(at)` is answered exactly where the bytes at the place spell no node, or
/// one that doesn't fit there: whose kind isn't that of the level, which has too few or too many entries, of which an entry has
/// fewer than 8^level items, or whose number of items is another. `NoMemory` is answered where the node finds no memory, and
/// `Summer` never. After each fault but `Store` the source goes on.
pub fn fetch_node<S: NodeSource, T: Item, M, L: Ledger>(
    alloc: Global,
    store: &mut S,
    at: u64,
    level: u32,
    count: u64,
    fill: Fill,
    steps: &mut Steps<L>,
) -> Result<Node<T>, TreeFault<S::Fault, M>>
    requires { S.is_ready store.old }
    ensures node { IfOk result (FitsNode T.fits T.spelled) }
    ensures fits { IfOk result (IsFitFor level count fill) }
    ensures bytes { IfSome (S.nodes store.old) (λ there.
        IfOk result (λ node. there at ≡ Some (spelled_node T.spelled node))) }
    ensures cause { IfErr result (FetchFails T.Item level count fill S.NodeSource store.old store.new at) }
    ensures ready { OnOk result (S.is_ready store.new) }
    ensures nodes { S.nodes store.new ≡ S.nodes store.old }
    ensures size { S.size store.new ≡ S.size store.old }
    ensures puts { S.puts store.new ≡ S.puts store.old }
    ensures gets { S.gets store.new ≡ at ∷ S.gets store.old }
    ensures reads { RisesBy 2 (S.reads store.old) (S.reads store.new) }
    ensures steps { steps.new ≡ steps.old + 1 }
    ensures goes { OnOk result (S.goes store.old store.new) }
{
    steps.tick();
    let bytes = match store.get(alloc, at) {
        Ok(bytes) => bytes,
        Err(fault) => return Err(TreeFault::Store(fault)),
    };
    match decode_node(alloc, bytes.as_slice())? {
        Ok(node) => {
            if fits_there(&node, level, count, fill) {
                return Ok(node);
            }
            Err(TreeFault::BadNode(at))
        }
        Err(_) => Err(TreeFault::BadNode(at)),
    }
}

// Whether a node fits at the level, where so many items are to stand in and below it.
fn fits_there<T>(node: &Node<T>, level: u32, count: u64, fill: Fill) -> bool
    ensures { IsTrue result ↔ IsFitFor level count fill node.now }
{
    if node.is_leaf() != (level == 0) {
        return false;
    }
    if !is_filled(node, fill) {
        return false;
    }
    has_items(node, level, count)
}

fn is_filled<T>(node: &Node<T>, fill: Fill) -> bool
    ensures { IsTrue result ↔ IsFilled fill node.now }
{
    let entries = node.len();
    least_entries(node, fill) <= entries && entries <= 32
}

fn least_entries<T>(node: &Node<T>, fill: Fill) -> usize
    ensures { result ≡ least_entries fill node.now }
{
    match fill {
        Fill::Below => 8,
        Fill::Root => match node {
            Node::Leaf(_) => 1,
            Node::Inner(_) => 2,
        },
    }
}

fn has_items<T>(node: &Node<T>, level: u32, count: u64) -> bool
    ensures { IsTrue result ↔ (AreLarge level node.now × (item_count node.now ≡ count)) }
{
    match node {
        Node::Leaf(items) => items.as_slice().len() as u64 == count,
        Node::Inner(children) => have_items(children.as_slice(), level, count),
    }
}

fn have_items<T>(children: &[Child<T>], level: u32, count: u64) -> bool
    ensures { IsTrue result ↔ (All (λ child. 8 ^ level ≤ child.count) children.now
        × (sum_by (λ child. child.count) children.now ≡ count)) }
{
    let mut left = count;
    for child in children {
        if !is_large(child.count, level) {
            return false;
        }
        if child.count > left {
            return false;
        }
        left -= child.count;
    }
    left == 0
}

fn is_large(count: u64, level: u32) -> bool
    ensures { IsTrue result ↔ (8 ^ level ≤ count) }
{
    match 8u64.checked_pow(level) {
        Some(least) => least <= count,
        None => false,
    }
}
