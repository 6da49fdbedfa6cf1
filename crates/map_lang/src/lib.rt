//! The map-reduce language `pick`: programs that give rows of a document, and the five reduces.
#![tactic(auto)]

mod cursor;
mod expressions;
mod fault;
mod laws;
mod lex;
mod parser;
mod reduce;
mod run;
mod statements;
mod syntax;
mod token;
mod value;

pub use fault::ParseFault;
pub use laws::{compiles_once, reduce_in_parts, runs_stay_within_bounds};
pub use parser::parse;
pub use reduce::{PickReduce, parse_reduce, run_reduce, run_rereduce};
pub use run::run_map;
pub use syntax::Program;
