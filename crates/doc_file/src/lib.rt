//! The documents of a database in their file.
#![tactic(auto)]

mod accept;
mod body;
mod docs;
mod draft;
mod entry;
mod fault;
mod incoming;
mod last_writes;
mod laws;
mod load;
mod record;
mod rev;

pub use accept::{may_delete, may_put};
pub use docs::changes::{Change, Changes};
pub use docs::{Docs, Info};
pub use entry::{Entry, LastWrite};
pub use fault::DocFault;
pub use laws::{
    changes_go_in_pages, empty_folders_hold_no_writes, files_of_open_documents_hold,
    images_of_open_documents_stand, live_documents_can_be_stored, states_are_told,
};
pub use record::{RootRecord, read_root, write_root};
pub use rev::{Rev, is_revision};
