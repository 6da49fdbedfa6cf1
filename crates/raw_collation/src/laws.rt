//! The laws of the two orders. Each function states one, and does nothing.

ghost use Rattle.std.specs.Prelude.{◌≡◌, ◌↔◌};
ghost use Rattle.std.specs.Cmp.{IsTotalOrder};
ghost use Rattle.json_terms.specs.Seen.{json};
ghost use Rattle.raw_collation.specs.Collation.{json_cmp, rows_cmp};
ghost use Rattle.raw_collation.specs.Groups.{AreRuns};
ghost use Rattle.raw_collation.specs.Laws.{IsConsistentWithEquality, Sorts, IsOnlySorting, IgnoresOrder};
ghost use Rattle.raw_collation.specs.Sorting.{sorted_rows};

use crate::group::Level;
use json_terms::Term;

/// The order of terms is total, and tells any two terms apart.
pub fn terms_are_ordered()
    ensures total { IsTotalOrder json_cmp }
    ensures consistent { IsConsistentWithEquality json_cmp }
    ensures one_to_one { (t u : Term) → (json t ≡ json u) ↔ (t ≡ u) }
{}

/// The order of rows is total, and tells any two rows apart.
pub fn rows_are_ordered()
    ensures total { IsTotalOrder rows_cmp }
    ensures consistent { IsConsistentWithEquality rows_cmp }
{}

/// Rows have one sorted order, in whichever order they come.
pub fn rows_sort_in_one_way()
    ensures sorts { Sorts rows_cmp sorted_rows }
    ensures only { IsOnlySorting rows_cmp sorted_rows }
    ensures any_order { IgnoresOrder sorted_rows }
{}

/// The rows of a group stand side by side in the order of keys.
pub fn groups_are_runs()
    ensures { (level : Level) → AreRuns level }
{}
