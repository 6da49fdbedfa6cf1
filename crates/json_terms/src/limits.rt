//! How deep terms nest at most.

/// How deep the objects and arrays of a term nest at most, of those that are read.
pub const DEPTH_LIMIT: u32 = 100;

/// The same of a document.
pub const DOCUMENT_DEPTH: u32 = 64;
