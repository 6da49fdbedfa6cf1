//! Reading nodes from bytes.

ghost use Rattle.std.specs.Prelude.{IfOk};
ghost use Rattle.tree_laws.specs.Nodes.{FitsNode, spelled_node};
ghost use Rattle.tree_laws.specs.Reading.{IsTaken};
ghost use Rattle.tree_laws.specs.Spelled.{IsReadBack};

use crate::item::{Item, ItemFault};
use crate::node::Node;
use crate::reader::{ReadFault, Reader};
use json_terms::NoMemory;
use std::alloc::Global;

/// The node of these bytes, or `ItemFault` exactly where they are those of no node: where the kind is neither 0 nor 1, the
/// bytes end early or go on behind the last entry, or an item has the bytes of none.
///
/// The bytes of a summary are kept as they stand. The other error is want of memory.
pub fn decode_node<T: Item>(
    alloc: Global,
    bytes: &[u8],
) -> Result<Result<Node<T>, ItemFault>, NoMemory>
    ensures { IfOk result (IsReadBack (FitsNode T.fits T.spelled) (spelled_node T.spelled) bytes.now) }
{
    let mut reader = Reader::new(bytes);
    match take_node(alloc, &mut reader) {
        Ok(node) => {
            if reader.is_done() {
                return Ok(Ok(node));
            }
            Ok(Err(ItemFault))
        }
        Err(ReadFault::NotThere) => Ok(Err(ItemFault)),
        Err(ReadFault::NoMemory) => Err(NoMemory),
    }
}

fn take_node<T: Item>(alloc: Global, reader: &mut Reader) -> Result<Node<T>, ReadFault>
    ensures { IsTaken (FitsNode T.fits T.spelled) (spelled_node T.spelled) reader.old reader.new result }
{
    let kind = reader.byte()?;
    let count = reader.byte()?;
    match kind {
        0 => Ok(Node::Leaf(reader.items(alloc, count)?)),
        1 => Ok(Node::Inner(reader.children(alloc, count)?)),
        _ => Err(ReadFault::NotThere),
    }
}
