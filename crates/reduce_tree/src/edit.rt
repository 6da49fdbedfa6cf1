//! Edits of the items of a tree.

ghost use Rattle.reduce_tree.specs.Applied.{applied, edit_key, placed_of, AreEdits, IsEdited};
ghost use Rattle.reduce_tree.specs.declared.edit.Edit.{Edit};
ghost use Rattle.std.specs.List.Sorted.{IsStrictlySortedBy};
ghost use Rattle.std.specs.Prelude.{◌≡◌, List, IfOk};

use json_terms::NoMemory;
use std::alloc::Global;
use tree_laws::Item;

/// A change of the item that compares equal to the one given.
#[derive(Debug, Drop)]
pub enum Edit<T> {
    /// The tree is to have no such item.
    Remove(T),
    /// The tree is to have this item, in the place of the one that compares equal to it.
    Insert(T),
}

impl<T: Item> Edit<T> {
    /// The item that it names.
    pub fn key(&self) -> &T
        ensures { result.now ≡ edit_key self.now }
    {
        match self {
            Edit::Remove(key) => key,
            Edit::Insert(key) => key,
        }
    }

    /// What takes the place of the key's equal.
    pub(crate) fn placed(&self, alloc: Global) -> Result<Vec<T>, NoMemory>
        ensures { IfOk result (λ placed. placed.items ≡ placed_of self.now) }
    {
        let mut placed = Vec::new(alloc);
        match self {
            Edit::Remove(_) => Ok(placed),
            Edit::Insert(key) => {
                placed.push(key.copy_item(alloc)?)?;
                Ok(placed)
            }
        }
    }
}

/// What edits leave of items: an item is there where it was inserted, or was there and no edit names it, and they rise strictly.
pub fn edits_are_made<T: Item>()
    ensures { (edits : List (Edit T)) (items : List T) → AreEdits T.order edits → IsStrictlySortedBy T.order items
        → IsEdited T.order edits items (applied T.order edits items) }
{}
