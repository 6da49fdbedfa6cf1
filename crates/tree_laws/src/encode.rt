//! Writing nodes in bytes.

ghost use Rattle.std.specs.Prelude.{◌≡◌, ◌≤◌, ◌++◌, [], ◌∷◌, All, OnErr, OnOk};
ghost use Rattle.std.specs.List.{flat_map};
ghost use Rattle.tree_laws.specs.Nodes.{FitsChild, FitsItem, FitsNode, IsNumber, IsSized, child_entry, entries, item_entry, number_bytes, sized, spelled_node};

use crate::item::Item;
use crate::node::{Child, Node};
use json_terms::NoMemory;
use std::alloc::Global;

/// Appends the bytes of a node of 255 entries at most. A number has 8 bytes, the low byte first.
///
/// A byte is 0 for a leaf and 1 for an inner node, the next byte is the number of entries, and behind it stand the entries. An
/// item stands behind the length of its bytes. An entry of an inner node is the place of the child, its number of items, its
/// last item behind its length, and the bytes of its summary behind their length.
///
/// The one error is want of memory, and `out` is then as it was.
pub fn encode_node<T: Item>(
    alloc: Global,
    node: &Node<T>,
    out: &mut Vec<u8>,
) -> Result<(), NoMemory>
    requires { entries node.now ≤ 255 }
    ensures ok { OnOk result (out.new.items ≡ out.old.items ++ spelled_node T.spelled node.now) }
    ensures fits { OnOk result (FitsNode T.fits T.spelled node.now) }
    ensures err { OnErr result (out.new.items ≡ out.old.items) }
{
    let mut bytes = Vec::new(alloc);
    put_node(alloc, node, &mut bytes)?;
    out.extend_from_slice(bytes.as_slice())?;
    Ok(())
}

// Where memory runs out, some bytes may be written, here and below.
fn put_node<T: Item>(alloc: Global, node: &Node<T>, out: &mut Vec<u8>) -> Result<(), NoMemory>
    requires { entries node.now ≤ 255 }
    ensures ok { OnOk result (out.new.items ≡ out.old.items ++ spelled_node T.spelled node.now) }
    ensures fits { OnOk result (FitsNode T.fits T.spelled node.now) }
{
    match node {
        Node::Leaf(items) => {
            let items = items.as_slice();
            put_head(0, items.len() as u8, out)?;
            put_items(alloc, items, out)
        }
        Node::Inner(children) => {
            let children = children.as_slice();
            put_head(1, children.len() as u8, out)?;
            put_children(alloc, children, out)
        }
    }
}

// The kind of a node, and the number of its entries.
fn put_head(kind: u8, count: u8, out: &mut Vec<u8>) -> Result<(), NoMemory>
    ensures { OnOk result (out.new.items ≡ (out.old.items ++ kind ∷ []) ++ count ∷ []) }
{
    out.push(kind)?;
    out.push(count)?;
    Ok(())
}

fn put_items<T: Item>(alloc: Global, items: &[T], out: &mut Vec<u8>) -> Result<(), NoMemory>
    ensures ok { OnOk result (out.new.items ≡ out.old.items ++ flat_map (item_entry T.spelled) items.now) }
    ensures fits { OnOk result (All (FitsItem T.fits T.spelled) items.now) }
{
    for item in items {
        put_item(alloc, item, out)?;
    }
    Ok(())
}

fn put_item<T: Item>(alloc: Global, item: &T, out: &mut Vec<u8>) -> Result<(), NoMemory>
    ensures ok { OnOk result (out.new.items ≡ out.old.items ++ item_entry T.spelled item.now) }
    ensures fits { OnOk result (FitsItem T.fits T.spelled item.now) }
{
    item.validity();
    let mut bytes = Vec::new(alloc);
    item.encode(alloc, &mut bytes)?;
    put_sized(bytes.as_slice(), out)
}

fn put_children<T: Item>(
    alloc: Global,
    children: &[Child<T>],
    out: &mut Vec<u8>,
) -> Result<(), NoMemory>
    ensures ok { OnOk result (out.new.items ≡ out.old.items ++ flat_map (child_entry T.spelled) children.now) }
    ensures fits { OnOk result (All (FitsChild T.fits T.spelled) children.now) }
{
    for child in children {
        put_child(alloc, child, out)?;
    }
    Ok(())
}

fn put_child<T: Item>(alloc: Global, child: &Child<T>, out: &mut Vec<u8>) -> Result<(), NoMemory>
    ensures ok { OnOk result (out.new.items ≡ out.old.items ++ child_entry T.spelled child.now) }
    ensures fits { OnOk result (FitsChild T.fits T.spelled child.now) }
{
    put_number(child.at, out)?;
    put_number(child.count, out)?;
    put_item(alloc, &child.last, out)?;
    put_sized(child.sum.as_slice(), out)?;
    Ok(())
}

// Bytes behind their length.
fn put_sized(bytes: &[u8], out: &mut Vec<u8>) -> Result<(), NoMemory>
    ensures ok { OnOk result (out.new.items ≡ out.old.items ++ sized bytes.now) }
    ensures fits { OnOk result (IsSized bytes.now) }
{
    put_number(bytes.len() as u64, out)?;
    out.extend_from_slice(bytes)?;
    Ok(())
}

fn put_number(number: u64, out: &mut Vec<u8>) -> Result<(), NoMemory>
    ensures ok { OnOk result (out.new.items ≡ out.old.items ++ number_bytes number) }
    ensures fits { OnOk result (IsNumber number) }
{
    out.extend_from_slice(&number.to_le_bytes())?;
    Ok(())
}
