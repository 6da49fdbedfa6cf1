//! How large lines and what stands in them may be, and the pieces that are read.

/// How many bytes a line from or to a query server has at most, its newline aside.
pub const LINE_LIMIT: usize = 134_217_728;

/// How many bytes the text of a key, a value or a result has at most.
pub const PART_LIMIT: usize = 1_048_576;

/// How deep a key, a value or a result nests at most.
pub const PART_DEPTH: u32 = 96;

/// How many bytes are read at a time, at most.
pub const PIECE: usize = 65_536;
