//! The place before a document in the back-index.

ghost use Rattle.std.specs.Prelude.{◌≡◌};

use crate::back_item::BackItem;
use std::marker::Model;
use tree_laws::Bound;

/// The place before the item of a document, or before where it would stand.
#[derive(Drop)]
pub struct BeforeId<'a> {
    id: &'a str,
}

impl<'a> Model for BeforeId<'a> {
    ghost use Rattle.std.specs.Prelude.{List, ℕ};

    ghost Value = { List ℕ };

    ghost view = { λ bound. bound.id.now };
}

impl<'a> BeforeId<'a> {
    /// The place before the item of the document with this id.
    pub fn new(id: &'a str) -> BeforeId<'a>
        ensures { result ≡ id.now }
    {
        BeforeId { id }
    }
}

impl<'a> Bound for BeforeId<'a> {
    ghost use Rattle.std.specs.Ordering.{is_lt, nat_cmp};
    ghost use Rattle.std.specs.Cmp.Lexicographic.{slice_cmp};
    ghost use Rattle.index_items.specs.BeforeIdLaws.{before_is_front};

    type Unit = BackItem;

    ghost front = { λ bound item. is_lt (slice_cmp nat_cmp item.id bound) };

    fn before(&self, item: &BackItem) -> bool {
        item.id.as_str().cmp(self.id).is_lt()
    }

    ghost is_front = { before_is_front };
}
