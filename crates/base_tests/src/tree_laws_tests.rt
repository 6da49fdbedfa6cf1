//! Nodes of trees in bytes, worked out by hand, and bytes that are those of no node. A store in memory, which fails where it is
//! told to, and nodes that are fetched from it.

ghost use Rattle.std.specs.Prelude.{◌≡◌, ◌<◌};

use builtin_reduces::{BuiltinSummer, RowItem};
use json_terms::{Chars, NoMemory, Row, Term};
use std::alloc::Global;
use std::marker::Brand;
use std::sync::ledger::{Blank, Ledger};
use std::test::Fail;
use test_tools::same_text;
use tree_laws::{
    Child, Children, Fill, Items, MemoryFault, MemoryNodes, Node, NodeSource, NodeStore, Steps,
    SumBytes, TreeFault, bare_trees_have_sizes, bare_trees_stay, decode_node, encode_node,
    fetch_node, nodes_are_prefix_free, nodes_are_spelled_once, nodes_of_bare_trees_are_fetched,
    nodes_of_bare_trees_fit, nodes_of_trees_are_fetched, nodes_of_trees_fit, sums_of_trees_fit,
    trees_are_bare, trees_have_sizes, trees_pass, trees_stay,
};

/// A leaf with the items 5 and 6.
const LEAF: &[u8] = b"\0\x02\
    \x0a\0\0\0\0\0\0\0\x04\0\0\0\0\x05\0\0\0\x03\
    \x0a\0\0\0\0\0\0\0\x04\0\0\0\0\x06\0\0\0\x03";

/// An inner node with one child: at 258 stand 9 items, of which 5 is the last, with the summary `ab`.
const INNER: &[u8] = b"\x01\x01\
    \x02\x01\0\0\0\0\0\0\x09\0\0\0\0\0\0\0\
    \x0a\0\0\0\0\0\0\0\x04\0\0\0\0\x05\0\0\0\x03\
    \x02\0\0\0\0\0\0\0ab";

/// Bytes that are those of no node: without a number of entries; of a third kind; with fewer entries than they say, and with
/// more; cut short, and going on behind the last entry; with an item that is longer than it says, shorter, none, and longer than
/// all that is left; of the other kind; and with a summary that is longer than it says, and shorter.
const NO_NODES: &[&[u8]] = &[
    b"",
    b"\0",
    b"\x02\0",
    b"\x02\x01\x0a\0\0\0\0\0\0\0\x04\0\0\0\0\x05\0\0\0\x03",
    b"\0\x01",
    b"\0\0\0",
    b"\0\x02\x0a\0\0\0\0\0\0\0\x04\0\0\0\0\x05\0\0\0\x03",
    b"\0\0\x0a\0\0\0\0\0\0\0\x04\0\0\0\0\x05\0\0\0\x03",
    b"\0\x01\x0a\0\0\0\0\0\0\0\x04\0\0\0\0\x05\0\0\0",
    b"\0\x01\x0a\0\0\0\0\0\0\0\x04\0\0\0\0\x05\0\0\0\x03\x03",
    b"\0\x01\x09\0\0\0\0\0\0\0\x04\0\0\0\0\x05\0\0\0\x03",
    b"\0\x01\x0b\0\0\0\0\0\0\0\x04\0\0\0\0\x05\0\0\0\x03",
    b"\0\x01\x0b\0\0\0\0\0\0\0\x04\0\0\0\0\x05\0\0\0\x03\x03",
    b"\0\x01\0\0\0\0\0\0\0\0",
    b"\0\x01\x0a\0\0\0\0\0\0\0\x09\0\0\0\0\x05\0\0\0\x03",
    b"\0\x01\x0a\0\0\0\0\0\0\x80\x04\0\0\0\0\x05\0\0\0\x03",
    b"\x01\x01\x0a\0\0\0\0\0\0\0\x04\0\0\0\0\x05\0\0\0\x03",
    b"\0\x01\x02\x01\0\0\0\0\0\0\x09\0\0\0\0\0\0\0\x0a\0\0\0\0\0\0\0\x04\0\0\0\0\x06\0\0\0\x03\x02\0\0\0\0\0\0\0ab",
    b"\x01\x01\x02\x01\0\0\0\0\0\0\x09\0\0\0\0\0\0\0\x0a\0\0\0\0\0\0\0\x04\0\0\0\0\x06\0\0\0\x03\x01\0\0\0\0\0\0\0ab",
    b"\x01\x01\x02\x01\0\0\0\0\0\0\x09\0\0\0\0\0\0\0\x0a\0\0\0\0\0\0\0\x04\0\0\0\0\x06\0\0\0\x03\x03\0\0\0\0\0\0\0ab",
];

fn item_of(alloc: Global, place: u32) -> Result<RowItem, Fail> {
    let row = Row {
        key: Term::True,
        id: Chars::from_text(alloc, "")?,
        place,
        value: Term::Null,
    };
    match RowItem::new(alloc, row)? {
        Some(item) => Ok(item),
        None => Err(Fail::from("out of bounds")),
    }
}

fn places_below(alloc: Global, count: u32) -> Result<Vec<u32>, Fail> {
    let mut places = Vec::new(alloc);
    for place in 0..count {
        places.push(place)?;
    }
    Ok(places)
}

fn leaf_of(alloc: Global, places: &[u32]) -> Result<Node<RowItem>, Fail> {
    let mut items = Vec::new(alloc);
    for place in places {
        items.push(item_of(alloc, *place)?)?;
    }
    Ok(Node::Leaf(Items::from_vec(items)))
}

/// Children at these places with so many items each.
fn inner_of(alloc: Global, places: &[u32], count: u64) -> Result<Node<RowItem>, Fail> {
    let mut children = Vec::new(alloc);
    for place in places {
        children.push(Child {
            at: *place as u64 + 253,
            count,
            last: item_of(alloc, *place)?,
            sum: SumBytes::from_vec(b"ab".to_vec(alloc)?),
        })?;
    }
    Ok(Node::Inner(Children::from_vec(children)))
}

fn bytes_of(alloc: Global, node: &Node<RowItem>) -> Result<Vec<u8>, Fail> {
    if node.len() > 255 {
        return Err(Fail::from("too many entries"));
    }
    let mut out = Vec::new(alloc);
    encode_node(alloc, node, &mut out)?;
    Ok(out)
}

/// Whether the bytes are those of a node with so many entries, which has the same bytes.
fn is_node(alloc: Global, bytes: &[u8], entries: usize) -> Result<bool, Fail> {
    match decode_node::<RowItem>(alloc, bytes)? {
        Ok(node) => Ok(node.len() == entries && bytes_of(alloc, &node)?.as_slice() == bytes),
        Err(_) => Ok(false),
    }
}

#[test]
fn nodes_have_bytes(rt: HostRuntime) -> Result<(), Fail> {
    nodes_are_spelled_once::<RowItem>();
    nodes_are_prefix_free::<RowItem>();
    let alloc = rt.alloc();
    assert!(rt; bytes_of(alloc, &leaf_of(alloc, &[5, 6])?)?.as_slice() == LEAF);
    assert!(rt; bytes_of(alloc, &inner_of(alloc, &[5], 9)?)?.as_slice() == INNER);
    assert!(rt; is_node(alloc, LEAF, 2)?);
    assert!(rt; is_node(alloc, INNER, 1)?);
    for (at, bytes) in NO_NODES.iter().enumerate() {
        assert!(rt; decode_node::<RowItem>(alloc, bytes)?.is_err(), "{at}");
    }
    Ok(())
}

#[test]
fn nodes_are_read_back(rt: HostRuntime) -> Result<(), Fail> {
    let alloc = rt.alloc();
    let mut places = Vec::new(alloc);
    for entries in 0..256 {
        if [0, 1, 8, 32, 255].contains(&entries) {
            let leaf = bytes_of(alloc, &leaf_of(alloc, &places)?)?;
            assert_eq!(rt; leaf.len(), 2 + 18 * entries);
            assert!(rt; is_node(alloc, &leaf, entries)?, "{entries}");
            let inner = bytes_of(alloc, &inner_of(alloc, &places, 9)?)?;
            assert_eq!(rt; inner.len(), 2 + 44 * entries);
            assert!(rt; is_node(alloc, &inner, entries)?, "{entries}");
        }
        places.push(entries as u32)?;
    }
    Ok(())
}

#[test]
fn stores_fail_at_listed_calls(rt: HostRuntime) -> Result<(), Fail> {
    let alloc = rt.alloc();
    let mut store = MemoryNodes::new(alloc, Vec::from_slice(alloc, &[1, 4])?);
    assert_eq!(rt; store.put(alloc, b"a"), Ok(0));
    assert_eq!(rt; store.put(alloc, b"lost"), Err(MemoryFault::Failed));
    assert_eq!(rt; store.put(alloc, b"bc"), Ok(1));
    assert!(rt; store.get(alloc, 0)?.as_slice() == b"a".as_slice());
    assert!(rt; store.get(alloc, 0) == Err(MemoryFault::Failed));
    assert!(rt; store.get(alloc, 1)?.as_slice() == b"bc".as_slice());
    assert!(rt; store.get(alloc, 2) == Err(MemoryFault::NoNode(2)));
    assert_eq!(rt;
        (store.len(), store.reads(), store.is_empty()),
        (2, 4, false)
    );
    Ok(())
}

/// A place, its level, the number of items that are to be there, whether it is the root, and what is fetched.
const FETCHED: &[(u64, u32, u64, Fill, &str)] = &[
    (0, 0, 9, Fill::Below, "leaf of 9"),
    (0, 0, 9, Fill::Root, "leaf of 9"),
    (0, 0, 8, Fill::Below, "bad 0"),
    (0, 1, 9, Fill::Below, "bad 0"),
    (1, 0, 7, Fill::Below, "bad 1"),
    (1, 0, 7, Fill::Root, "leaf of 7"),
    (2, 1, 64, Fill::Below, "inner node of 8"),
    (2, 1, 64, Fill::Root, "inner node of 8"),
    (2, 1, 65, Fill::Root, "bad 2"),
    (2, 0, 64, Fill::Root, "bad 2"),
    (2, 2, 64, Fill::Root, "bad 2"),
    (2, 30, 64, Fill::Root, "bad 2"),
    (3, 1, 18, Fill::Root, "inner node of 2"),
    (3, 1, 18, Fill::Below, "bad 3"),
    (4, 1, 9, Fill::Root, "bad 4"),
    (5, 0, 33, Fill::Root, "bad 5"),
    (6, 0, 0, Fill::Root, "bad 6"),
    (7, 0, 1, Fill::Root, "bad 7"),
    (8, 0, 1, Fill::Root, "no node 8"),
];

/// Leaves of 9 and of 7, inner nodes of 8 with 8 items each, of 2 and of 1 with 9 items each, leaves of 33 and of none, and a
/// byte.
fn stored(alloc: Global) -> Result<MemoryNodes, Fail> {
    let nodes = [
        leaf_of(alloc, &places_below(alloc, 9)?)?,
        leaf_of(alloc, &places_below(alloc, 7)?)?,
        inner_of(alloc, &places_below(alloc, 8)?, 8)?,
        inner_of(alloc, &places_below(alloc, 2)?, 9)?,
        inner_of(alloc, &places_below(alloc, 1)?, 9)?,
        leaf_of(alloc, &places_below(alloc, 33)?)?,
        leaf_of(alloc, &[])?,
    ];
    let mut store = MemoryNodes::new(alloc, Vec::new(alloc));
    for node in &nodes {
        store.put(alloc, &bytes_of(alloc, node)?)?;
    }
    store.put(alloc, b"x")?;
    Ok(store)
}

fn fetched<L: Ledger>(
    alloc: Global,
    store: &mut MemoryNodes,
    at: u64,
    level: u32,
    count: u64,
    fill: Fill,
    steps: &mut Steps<L>,
) -> Result<String, Fail> {
    match fetch_node::<MemoryNodes, RowItem, NoMemory, L>(
        alloc, store, at, level, count, fill, steps,
    ) {
        Ok(node) => {
            let kind = if node.is_leaf() { "leaf" } else { "inner node" };
            Ok(format!(in alloc; "{kind} of {}", node.len())?)
        }
        Err(TreeFault::BadNode(at)) => Ok(format!(in alloc; "bad {at}")?),
        Err(TreeFault::Store(MemoryFault::NoNode(at))) => Ok(format!(in alloc; "no node {at}")?),
        Err(_) => Err(Fail::from("another fault")),
    }
}

fn fetch_all<L: Ledger>(alloc: Global, blank: Blank) -> Result<(), Fail>
    requires name { blank.name ≡ L.name }
    requires parts { blank.parts ≡ L.parts }
    requires some { 0 < L.parts }
{
    let mut store = stored(alloc)?;
    let mut steps = Steps::<L>::new(blank);
    for (at, level, count, fill, want) in FETCHED {
        let given = fetched(alloc, &mut store, *at, *level, *count, *fill, &mut steps);
        same_text(given, want, want)?;
    }
    Ok(())
}

#[test]
fn nodes_that_fit_are_fetched(rt: HostRuntime) -> Result<(), Fail> {
    fetch_all::<Brand>(rt.alloc(), Blank::new(1))
}

#[test]
fn laws_hold_of_trees_of_rows(_rt: HostRuntime) -> Result<(), Fail> {
    trees_stay::<BuiltinSummer>();
    trees_pass::<BuiltinSummer, BuiltinSummer>();
    trees_are_bare::<BuiltinSummer>();
    nodes_of_trees_fit::<BuiltinSummer>();
    sums_of_trees_fit::<BuiltinSummer>();
    nodes_of_trees_are_fetched::<BuiltinSummer>();
    trees_have_sizes::<BuiltinSummer>();
    bare_trees_stay::<RowItem>();
    nodes_of_bare_trees_fit::<RowItem>();
    nodes_of_bare_trees_are_fetched::<RowItem>();
    bare_trees_have_sizes::<RowItem>();
    Ok(())
}

#[test]
fn bytes_of_summaries_are_given_back(rt: HostRuntime) -> Result<(), Fail> {
    let alloc = rt.alloc();
    let bytes = SumBytes::from_vec(b"ab".to_vec(alloc)?);
    assert!(rt; bytes.into_vec().as_slice() == b"ab".as_slice());
    Ok(())
}
