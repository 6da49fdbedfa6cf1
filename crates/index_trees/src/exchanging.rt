//! Exchanging the rows of documents.

ghost use Rattle.std.specs.Prelude.{◌≡◌, ◌<◌, ◌≤◌, ◌+◌, ◌^◌, ◌∷◌, ◌++◌, [], All, IsTrue, OnErr, OnOk, length, map, vec_len};
ghost use Rattle.tree_laws.specs.Trees.{IsTreeSize};
ghost use Rattle.index_trees.specs.Edited.{EditsBack, EditsView, EditsViews};
ghost use Rattle.index_trees.specs.Exchanges.{Exchanges};
ghost use Rattle.index_trees.specs.Faults.{by_pool, listed};
ghost use Rattle.index_trees.specs.Trees.{AreSizes};

use crate::back_edits::back_edits;
use crate::old_places::all_old_places;
use crate::row_edits::row_edits;
use crate::trees::IndexTrees;
use child_pool::{PoolFault, Summers};
use index_items::{BackItem, BackRows, NoSummary};
use json_terms::NoMemory;
use reduce_tree::apply;
use row_exchange::DocRows;
use std::alloc::Global;
use std::sync::ledger::Ledger;
use tree_laws::{NodeStore, Steps, Tree, TreeFault};
use view_ports::Servers;

/// The trees with the rows of these documents exchanged: their old rows are gone from each view, and the new ones there, and the
/// back-index says where they stand. Nodes are put into the store, and the old trees stay as they are. No document is to be named
/// twice, and each is to have a list for each view.
///
/// A step makes two reads of the store at most. An edit is a row or an entry of the back-index that is removed, added or replaced, and
/// `h` the greatest height of the trees before and after: it takes `8 * (h + 1)` steps and puts `4 * (h + 1)` nodes at most for each
/// edit, and `2 * h` steps for each document. The same holds after a refusal for an `h` that is each tree's height at least, where the
/// items of each tree and all rows and entries that are inserted are together fewer than `8^h`. Over trees that hold rows no piece, also
/// one at which the store fails, is longer than a node of 32 entries of the longest item among the old and new ones.
///
/// Over trees that hold rows `BadNode` never comes, and something stands at each place that is got, also where the store fails. Else
/// `BadNode` names a place that is reached from one of the trees, where no node that fits stands, or one with a summary that spells no
/// value of that tree's own view. `Store` and `Summer` hand on what the store and the summers answered; over trees that hold rows a
/// complaint is of the source of a view with edits. `NoMemory` comes where memory runs out, a row is out of the bounds of an item, or a
/// tree would have more than 2^40 items.
pub fn exchange<S: NodeStore, C: Servers, L: Ledger>(
    alloc: Global,
    store: &mut S,
    summers: &mut Summers<'_, '_, C>,
    trees: &IndexTrees,
    changes: &[DocRows],
    steps: &mut Steps<L>,
) -> Result<IndexTrees, TreeFault<S::Fault, PoolFault>>
    requires ready { S.is_ready store.old }
    requires sizes { AreSizes trees.now }
    requires few { vec_len trees.now.views < 2 ^ 16 }
    ensures { Exchanges S.NodeSource C.Servers trees.now changes.now store.old store.new summers.old summers.new steps.old steps.new result }
{
    let olds = match all_old_places(alloc, store, trees.back, changes, steps) {
        Ok(olds) => olds,
        Err(fault) => return Err(with_pool(fault)),
    };
    let views = edit_views(
        alloc,
        store,
        summers,
        trees.views.as_slice(),
        changes,
        olds.as_slice(),
        steps,
    )?;
    let back = edit_back(alloc, store, trees.back, changes, olds.as_slice(), steps)?;
    Ok(IndexTrees { views, back })
}

/// The trees of the views.
fn edit_views<S: NodeStore, C: Servers, L: Ledger>(
    alloc: Global,
    store: &mut S,
    summers: &mut Summers<'_, '_, C>,
    trees: &[Tree],
    changes: &[DocRows],
    olds: &[BackRows],
    steps: &mut Steps<L>,
) -> Result<Vec<Tree>, TreeFault<S::Fault, PoolFault>>
    requires ready { S.is_ready store.old }
    requires sizes { All IsTreeSize trees.now }
    requires few { length trees.now < 2 ^ 16 }
    ensures { EditsViews S.NodeSource C.Servers changes.now olds.now store.old store.new summers.old summers.new steps.old steps.new trees.now (listed result) }
{
    let mut edited = Vec::new(alloc);
    let mut view = 0;
    for tree in trees {
        let after = edit_view(alloc, store, summers, view, *tree, changes, olds, steps)?;
        add_tree(&mut edited, after)?;
        view += 1;
    }
    Ok(edited)
}

/// The tree of one view.
fn edit_view<S: NodeStore, C: Servers, L: Ledger>(
    alloc: Global,
    store: &mut S,
    summers: &mut Summers<'_, '_, C>,
    view: u32,
    tree: Tree,
    changes: &[DocRows],
    olds: &[BackRows],
    steps: &mut Steps<L>,
) -> Result<Tree, TreeFault<S::Fault, PoolFault>>
    requires ready { S.is_ready store.old }
    requires size { IsTreeSize tree }
    requires few { view < 2 ^ 16 }
    ensures { EditsView S.NodeSource C.Servers changes.now olds.now store.old store.new summers.old summers.new steps.old steps.new view tree result }
{
    let edits = row_edits(alloc, view as u16, changes, olds)?;
    if edits.is_empty() {
        return Ok(tree);
    }
    if !has_room(tree, edits.len()) {
        return Err(TreeFault::NoMemory);
    }
    apply(
        alloc,
        store,
        summers.summer(view),
        tree,
        edits.as_slice(),
        steps,
    )
}

/// The tree of the back-index.
fn edit_back<S: NodeStore, L: Ledger>(
    alloc: Global,
    store: &mut S,
    tree: Tree,
    changes: &[DocRows],
    olds: &[BackRows],
    steps: &mut Steps<L>,
) -> Result<Tree, TreeFault<S::Fault, PoolFault>>
    requires ready { S.is_ready store.old }
    requires size { IsTreeSize tree }
    ensures { EditsBack S.NodeSource changes.now olds.now store.old store.new steps.old steps.new tree result }
{
    let edits = back_edits(alloc, changes, olds)?;
    if !has_room(tree, edits.len()) {
        return Err(TreeFault::NoMemory);
    }
    let mut summer = NoSummary::<BackItem>::new();
    match apply(alloc, store, &mut summer, tree, edits.as_slice(), steps) {
        Ok(after) => Ok(after),
        Err(fault) => Err(with_pool(fault)),
    }
}

fn add_tree(trees: &mut Vec<Tree>, tree: Tree) -> Result<(), NoMemory>
    ensures ok { OnOk result (trees.new.items ≡ trees.old.items ++ tree ∷ []) }
    ensures err { OnErr result (trees.new.items ≡ trees.old.items) }
{
    trees.push(tree)?;
    Ok(())
}

/// Whether a tree has room for so many items more.
fn has_room(tree: Tree, more: usize) -> bool
    ensures { IsTrue result → tree.count + more ≤ 2 ^ 40 }
{
    more <= 1 << 40 && tree.count <= (1 << 40) - more as u64
}

/// The same fault among those of a pool.
fn with_pool<F>(fault: TreeFault<F, NoMemory>) -> TreeFault<F, PoolFault>
    ensures { result ≡ by_pool fault }
{
    match fault {
        TreeFault::Store(fault) => TreeFault::Store(fault),
        TreeFault::BadNode(at) => TreeFault::BadNode(at),
        TreeFault::Summer(_) | TreeFault::NoMemory => TreeFault::NoMemory,
    }
}
