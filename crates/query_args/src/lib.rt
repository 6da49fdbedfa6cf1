//! The query of a view: its parameters read, and the range of rows that it asks for.
//!
//! The parameters are those of CouchDB's view API. `specs/Parameters.antt` is their table, `specs/Faults.antt` says which
//! queries are refused and why, and `specs/Query.antt` what a query asks for.
#![tactic(auto)]

mod check;
mod fault;
mod parameters;
mod query;
mod range;
mod read;

pub use fault::QueryFault;
pub use query::{Edge, LEVEL_LIMIT, Query, Target};
pub use range::{in_range, passes_end, passes_start};
pub use read::read_query;
