//! The place before an item.

ghost use Rattle.std.specs.Prelude.{◌≡◌};

use builtin_reduces::RowItem;
use std::marker::Model;
use tree_laws::{Bound, Item};

/// The place before an item, or before where it would stand.
#[derive(Drop)]
pub struct BeforeItem {
    item: RowItem,
}

impl Model for BeforeItem {
    ghost use Rattle.json_terms.specs.declared.term.Row.{Row};
    ghost use Rattle.json_terms.specs.contracts.term.Row as kept_row;

    ghost Value = { Row };

    ghost coded = { kept_row.the_row.coded };

    ghost view = { λ bound. bound.item };
}

impl BeforeItem {
    pub fn new(item: RowItem) -> BeforeItem
        ensures { result ≡ item }
    {
        BeforeItem { item }
    }
}

impl Bound for BeforeItem {
    ghost use Rattle.std.specs.Ordering.{is_lt};
    ghost use Rattle.builtin_reduces.specs.Kept.{item_cmp};
    ghost use Rattle.tree_tools.specs.BeforeLaws.{before_is_front};

    type Unit = RowItem;

    ghost front = { λ bound item. is_lt (item_cmp item bound) };

    fn before(&self, item: &RowItem) -> bool {
        item.cmp_item(&self.item).is_lt()
    }

    ghost is_front = { before_is_front };
}
