//! Trees over a summer that notes its calls: it was asked for the value of each leaf that is put.

ghost use Rattle.std.specs.Prelude.{◌≡◌, ◌<◌};
ghost use Rattle.tree_laws.specs.Stores.{EachSince};
ghost use Rattle.tree_tests.specs.Asked.{IsAskedPiece};

use builtin_reduces::RowItem;
use design_docs::Builtin;
use json_terms::NoMemory;
use reduce_tree::{Builder, Edit, apply};
use std::alloc::Global;
use std::marker::Brand;
use std::sync::ledger::{Blank, Ledger};
use std::test::Fail;
use tree_laws::{MemoryFault, MemoryNodes, Steps, TreeFault};
use tree_tools::{NotingSummer, SizedTree, item_of};

/// The tree with the edits made. Of each leaf that is put, whatever is answered, the summer's log has the rows: it was asked for
/// their value in this call.
fn edit_noted<L: Ledger>(
    alloc: Global,
    store: &mut MemoryNodes,
    summer: &mut NotingSummer,
    tree: &SizedTree,
    edits: &[Edit<RowItem>],
    steps: &mut Steps<L>,
) -> Result<SizedTree, TreeFault<MemoryFault, NoMemory>>
    ensures { EachSince (IsAskedPiece summer.old summer.new) store.old.puts store.new.puts }
{
    let tree = tree.tree();
    if tree.count > 1_000_000 || edits.len() > 1_000_000 {
        return Err(TreeFault::NoMemory);
    }
    let after = apply(alloc, store, summer, tree, edits, steps)?;
    Ok(SizedTree::of(after))
}

/// The tree of the rows 0 to `count - 1`, packed. Of each leaf that is put, whatever is answered, the summer's log has the rows: it
/// was asked for their value in this call.
fn pack_noted(
    alloc: Global,
    store: &mut MemoryNodes,
    summer: &mut NotingSummer,
    count: u64,
) -> Result<SizedTree, TreeFault<MemoryFault, NoMemory>>
    ensures { EachSince (IsAskedPiece summer.old summer.new) store.old.puts store.new.puts }
{
    let mut builder = Builder::new(alloc)?;
    let end = count.min(1_000_000);
    let mut place: u64 = 0;
    while place < end {
        let key = i64::try_from(place).unwrap_or(0);
        builder.push(alloc, store, summer, item_of(alloc, key, key & 7)?)?;
        place += 1;
    }
    let tree = builder.finish(alloc, store, summer)?;
    Ok(SizedTree::of(tree))
}

/// Batches one after another: the first key that one inserts, how many it inserts, and how many nodes the store has then. The tree
/// has two levels after each.
const BATCHES: &[(i64, i64, usize)] = &[(0, 40, 3), (40, 3, 5)];

fn note_batches<L: Ledger>(alloc: Global, blank: Blank) -> Result<(), Fail>
    requires name { blank.name ≡ L.name }
    requires parts { blank.parts ≡ L.parts }
    requires some { 0 < L.parts }
{
    let mut steps = Steps::<L>::new(blank);
    let mut store = MemoryNodes::new(alloc, Vec::new(alloc));
    let mut summer = NotingSummer::new(Builtin::Sum);
    let mut tree = SizedTree::empty();
    let mut rows: u64 = 0;
    for (first, count, nodes) in BATCHES {
        let mut edits = Vec::new(alloc);
        for place in 0..*count {
            let key = first.saturating_add(place);
            edits.push(Edit::Insert(item_of(alloc, key, key & 7)?))?;
            rows = rows.saturating_add(1);
        }
        tree = match edit_noted(alloc, &mut store, &mut summer, &tree, &edits, &mut steps) {
            Ok(after) => after,
            Err(_) => return Err(Fail::from("no tree is answered")),
        };
        if tree.tree().height != 2 || tree.tree().count != rows || store.len() != *nodes {
            let text = format!(in alloc; "{rows} rows in {} nodes", store.len())?;
            return Err(Fail::from(text));
        }
    }
    Ok(())
}

#[test]
fn leaves_of_batches_are_asked_for(rt: HostRuntime) -> Result<(), Fail> {
    note_batches::<Brand>(rt.alloc(), Blank::new(1))
}

#[test]
fn leaves_of_packed_trees_are_asked_for(rt: HostRuntime) -> Result<(), Fail> {
    let alloc = rt.alloc();
    let mut store = MemoryNodes::new(alloc, Vec::new(alloc));
    let mut summer = NotingSummer::new(Builtin::Sum);
    let Ok(tree) = pack_noted(alloc, &mut store, &mut summer, 45) else {
        return Err(Fail::from("no tree is built"));
    };
    assert_eq!(rt;
        (tree.tree().height, tree.tree().count, store.len()),
        (2, 45, 3)
    );
    Ok(())
}
