//! Trees packed from lists, at the sizes where another node begins.

ghost use Rattle.std.specs.Prelude.{◌≡◌, ◌<◌, IfOk};
ghost use Rattle.tree_laws.specs.SummerTrees.{IsTreeSize};

use crate::items::{items_in, pair_of};
use builtin_reduces::{BuiltinSummer, RowItem};
use design_docs::Builtin;
use json_terms::NoMemory;
use reduce_tree::{Builder, builders_stay, new_builders_are_empty, packed_trees_have_their_size};
use std::alloc::Global;
use std::marker::Brand;
use std::sync::ledger::{Blank, Ledger};
use std::test::Fail;
use tree_laws::{MemoryFault, MemoryNodes, Node, Steps, Tree, TreeFault, decode_node};
use tree_tools::{SizedTree, item_of};

/// How many rows a list has, how high its tree is, and how many entries the nodes have, in the order in which they are put.
const PACKED: &[(i64, u32, &[usize])] = &[
    (0, 0, &[]),
    (1, 1, &[1]),
    (7, 1, &[7]),
    (8, 1, &[8]),
    (31, 1, &[31]),
    (32, 1, &[32]),
    (33, 2, &[24, 9, 2]),
    (39, 2, &[24, 15, 2]),
    (40, 2, &[32, 8, 2]),
    (63, 2, &[32, 31, 2]),
    (64, 2, &[32, 32, 2]),
    (65, 2, &[32, 24, 9, 3]),
    (71, 2, &[32, 24, 15, 3]),
    (72, 2, &[32, 32, 8, 3]),
];

/// How many rows a longer list has, how high its tree is, and how many nodes and leaves it has.
const LONG: &[(i64, u32, usize)] = &[
    (1_023, 2, 33),
    (1_024, 2, 33),
    (1_025, 3, 36),
    (1_056, 3, 36),
    (1_057, 3, 37),
    (1_280, 3, 43),
    (33_000, 4, 1_068),
];

/// The tree of the rows 0 to `count - 1`, packed into the store.
fn packed(alloc: Global, store: &mut MemoryNodes, count: i64) -> Result<SizedTree, Fail> {
    match build(alloc, store, u64::try_from(count).unwrap_or(0)) {
        Ok(tree) => Ok(SizedTree::of(tree)),
        Err(_) => Err(Fail::from("no tree is built")),
    }
}

fn build(
    alloc: Global,
    store: &mut MemoryNodes,
    count: u64,
) -> Result<Tree, TreeFault<MemoryFault, NoMemory>>
    ensures { IfOk result IsTreeSize }
{
    let mut summer = BuiltinSummer::new(Builtin::Sum);
    let mut builder = Builder::new(alloc)?;
    let end = count.min(1_000_000);
    let mut place: u64 = 0;
    while place < end {
        let key = i64::try_from(place).unwrap_or(0);
        builder.push(alloc, store, &mut summer, item_of(alloc, key, key & 7)?)?;
        place += 1;
    }
    let tree = builder.finish(alloc, store, &mut summer)?;
    Ok(tree)
}

/// How many entries the node at a place has.
fn entries_at(alloc: Global, store: &mut MemoryNodes, at: u64) -> Result<usize, Fail> {
    use tree_laws::NodeSource;
    let Ok(bytes) = store.get(alloc, at) else {
        return Err(Fail::from("nothing is got"));
    };
    let node: Node<RowItem> = match decode_node(alloc, bytes.as_slice())? {
        Ok(node) => node,
        Err(_) => return Err(Fail::from("no node")),
    };
    Ok(node.len())
}

/// The tree is as high as it should be, its root was put last, and it has the rows.
fn is_right<L: Ledger>(
    alloc: Global,
    store: &mut MemoryNodes,
    tree: &SizedTree,
    count: i64,
    height: u32,
    steps: &mut Steps<L>,
) -> Result<(), Fail> {
    let tree = tree.tree();
    if tree.height != height || (height > 0 && tree.root.saturating_add(1) != store.len() as u64) {
        let text = format!(in alloc; "{count} rows make a tree of height {}", tree.height)?;
        return Err(Fail::from(text));
    }
    let mut summer = BuiltinSummer::new(Builtin::Sum);
    let items = items_in(alloc, store, &mut summer, tree, steps)?;
    let mut key: i64 = 0;
    for item in &items {
        if pair_of(item) != Some((key, key & 7)) {
            return Err(Fail::from("another row"));
        }
        key = key.wrapping_add(1);
    }
    if key != count {
        return Err(Fail::from("another number of rows"));
    }
    Ok(())
}

fn pack<L: Ledger>(alloc: Global, blank: Blank) -> Result<(), Fail>
    requires name { blank.name ≡ L.name }
    requires parts { blank.parts ≡ L.parts }
    requires some { 0 < L.parts }
{
    new_builders_are_empty::<BuiltinSummer>();
    builders_stay::<BuiltinSummer>();
    packed_trees_have_their_size::<BuiltinSummer>();
    let mut steps = Steps::<L>::new(blank);
    for (count, height, nodes) in PACKED {
        let mut store = MemoryNodes::new(alloc, Vec::new(alloc));
        let tree = packed(alloc, &mut store, *count)?;
        is_right(alloc, &mut store, &tree, *count, *height, &mut steps)?;
        if store.len() != nodes.len() {
            return Err(Fail::from("another number of nodes"));
        }
        for (at, want) in nodes.iter().enumerate() {
            let entries = entries_at(alloc, &mut store, at as u64)?;
            if entries != *want {
                let text = format!(in alloc; "{count} rows: node {at} has {entries} entries")?;
                return Err(Fail::from(text));
            }
        }
    }
    for (count, height, nodes) in LONG {
        let mut store = MemoryNodes::new(alloc, Vec::new(alloc));
        let tree = packed(alloc, &mut store, *count)?;
        is_right(alloc, &mut store, &tree, *count, *height, &mut steps)?;
        if store.len() != *nodes {
            let text = format!(in alloc; "{count} rows make {} nodes", store.len())?;
            return Err(Fail::from(text));
        }
    }
    Ok(())
}

#[test]
fn lists_are_packed(rt: HostRuntime) -> Result<(), Fail> {
    pack::<Brand>(rt.alloc(), Blank::new(1))
}

/// Each call of the store fails in turn while a list is packed, and no tree is answered.
#[test]
fn each_put_fails_in_turn(rt: HostRuntime) -> Result<(), Fail> {
    let alloc = rt.alloc();
    for call in 0..36u64 {
        let mut store = MemoryNodes::new(alloc, vec![in alloc; call]?);
        match build(alloc, &mut store, 1_025) {
            Err(TreeFault::Store(MemoryFault::Failed)) => {}
            _ => return Err(Fail::from("a put that failed was passed over")),
        }
    }
    Ok(())
}
