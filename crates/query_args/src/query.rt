//! What a query asks for, and of what it asks.

use json_terms::{Chars, Term, Terms};
use raw_collation::Level;

/// The greatest `group_level`.
pub const LEVEL_LIMIT: u32 = 1000;

/// What a query is asked of.
#[derive(Clone, Copy, Debug, PartialEq, Eq)]
pub enum Target {
    /// The list of all documents.
    AllDocs,
    /// A view, which has a reduce or none.
    View(bool),
    /// A view through a cursor. The view has a reduce or none.
    Cursor(bool),
}

/// An end of a range: a key, and among the rows of that key maybe the id of a document.
#[derive(Drop)]
pub struct Edge {
    pub key: Term,
    pub id: Option<Chars>,
    /// Whether the end itself belongs to the range.
    pub inclusive: bool,
}

/// A query that was read.
#[derive(Drop)]
pub struct Query {
    /// Where the range starts, as the list is walked.
    pub start: Option<Edge>,
    /// Where it ends.
    pub end: Option<Edge>,
    /// The keys whose rows are asked for, in place of a range.
    pub keys: Option<Terms>,
    /// Whether the list is walked backwards.
    pub descending: bool,
    /// How many rows or groups are left out first.
    pub skip: u64,
    /// How many are printed at most.
    pub limit: Option<u64>,
    /// Whether the rows are reduced.
    pub reduced: bool,
    /// How they are grouped, where they are reduced.
    pub level: Level,
    /// Whether the index is brought up to date first.
    pub update: bool,
    /// Whether the index's sequence is printed.
    pub show_seq: bool,
}
