//! Rows in raw order.

ghost use Rattle.std.specs.Prelude.{◌≡◌};
ghost use Rattle.raw_collation.specs.Sorting.{sorted_rows};

use crate::compare::row_cmp;
use json_terms::Row;

/// Puts rows in raw order, without taking memory.
pub fn sort_rows(rows: &mut Vec<Row>)
    ensures { rows.new.items ≡ sorted_rows rows.old.items }
{
    rows.sort_unstable_by(row_cmp);
}
