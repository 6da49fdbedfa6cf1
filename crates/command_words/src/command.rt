//! A command and its limits.

/// The greatest width that may be asked for.
pub const WIDTH_LIMIT: u32 = 8;

/// How many documents may be loaded at most.
pub const DOCS_LIMIT: u32 = 20_000;

/// The greatest second number of `load`.
pub const NUMBER_LIMIT: u32 = 2_147_483_647;

/// A command.
#[derive(Debug, Drop)]
pub enum Command {
    /// Answers request lines.
    Serve {
        /// How many query servers of a language may run at once, from 1 to `WIDTH_LIMIT`; 1 where none is given.
        width: u32,
        /// The other words, in order. What they must look like is left to the caller.
        words: Vec<String>,
    },
    /// Writes documents.
    Load {
        /// How many, from 1 to `DOCS_LIMIT`.
        docs: u32,
        /// The other number, up to `NUMBER_LIMIT`.
        number: u32,
    },
}
