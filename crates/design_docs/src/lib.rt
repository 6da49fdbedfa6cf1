//! The history of documents, as definitions; and design documents: which have a design, and what stands in them.
//!
//! A design document's id begins with `_design/`. It names a language and views, each with the source of a map function and
//! maybe a reduce. `specs/Faults.antt` says which documents have no design, and why.
#![tactic(auto)]

mod check;
mod design;
mod document;
mod fault;
mod laws;
mod read;
mod reduce;

pub use design::{Builtin, Design, Reduce, View, Views};
pub use document::{DESIGN_PREFIX, SIZE_LIMIT, id_of, is_design_id};
pub use fault::DesignFault;
pub use laws::{
    changes_are_numbered, later_documents_are_listed, mapped_documents_are_listed,
    revisions_leave_designs, views_are_few_and_in_order, views_are_found_by_name,
    want_of_memory_is_no_fault,
};
pub use read::read_design;
pub use reduce::read_builtin;
