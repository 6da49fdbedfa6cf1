//! What the trees of an index keep beside the rows of views: where the rows of each document stand, and summaries of nothing;
//! and the root record of an index, which names its trees.
//!
//! `BackItem` is an item of the back-index, which has one for each document with a row in some view, and `BeforeId` the place
//! before a document in it. `specs/BackIndex.antt` says which items the back-index of rows has. `NoSummary` is the summer of a
//! tree whose nodes keep nothing of their items, as that of the back-index.
//!
//! A root record has a length in 8 bytes, and behind it so many bytes: the sequence that the index stands at in 8, the number of
//! its views in 2, the tree of each view, and the tree of the back-index. A tree has the place of its root in 8 bytes, its height
//! in 4, and the number of its items in 8. The low byte of a number comes first.
#![tactic(auto)]

mod back_bytes;
mod back_item;
mod back_row;
mod before_id;
mod laws;
mod no_summary;
mod root_record;

pub use back_item::BackItem;
pub use back_row::{BackRow, BackRows};
pub use before_id::BeforeId;
pub use laws::{
    back_indexes_are_one, entries_hold_all_rows, entries_hold_no_others, root_records_have_lengths,
};
pub use no_summary::NoSummary;
pub use root_record::{IndexRoot, read_root, write_root};
