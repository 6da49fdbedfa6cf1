//! The reduces that need no query server: `_count`, `_sum` and `_stats` (CouchDB's documentation, "Built-in Reduce Functions").
#![tactic(auto)]

mod item;
mod item_bytes;
mod joins;
mod leaves;
mod print;
mod stats;
mod sum;
mod sum_bytes;
mod summer;
mod text;

pub use item::{RowItem, copy_row};
pub use joins::join;
pub use leaves::leaf;
pub use print::{print_builtin, sum_is_line};
pub use sum::{BuiltinSum, Stats, Sums};
pub use summer::BuiltinSummer;
