//! JSON terms (RFC 8259): read from text, written as text, copied, looked into.
//!
//! A term is a JSON value whose numbers are whole and fit 64 bits and whose objects have each name once, in rising order of
//! its bytes. To contracts a term is a value like a number: `≡` says that two are equal, and `json` of `specs/Seen.antt`
//! gives the data that the definitions in `specs/` speak of.
#![tactic(auto)]

mod copy;
mod fault;
mod limits;
mod look;
mod read;
mod rows;
mod term;
mod write;

pub use copy::copy_term;
pub use fault::{NoMemory, TermFault};
pub use limits::{DEPTH_LIMIT, DOCUMENT_DEPTH};
pub use look::{depth_within, member};
pub use read::read_term;
pub use rows::{Emission, Emissions, RowLists};
pub use term::{Chars, Member, Members, Row, Term, Terms};
pub use write::{text_is_line, write_term, write_text};
