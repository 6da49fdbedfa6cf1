//! The raw order of terms, as of CouchDB's views with `"collation": "raw"`, and of the rows of a view.
#![tactic(auto)]

mod compare;
mod group;
mod laws;
mod sort;

pub use compare::{raw_cmp, row_cmp};
pub use group::{Level, group_key, same_group};
pub use laws::{groups_are_runs, rows_are_ordered, rows_sort_in_one_way, terms_are_ordered};
pub use sort::sort_rows;
