//! The names of the files of a database folder.

/// What a pair of files holds.
#[derive(Clone, Copy, Debug, PartialEq, Eq, PartialOrd, Ord, Hash)]
pub enum Stem {
    /// The documents.
    Docs,
    /// The index of the views with this signature, which is its 32 hexadecimal digits.
    View([u8; 32]),
}

/// The name of a file. Files come in pairs: the second side takes the place of the first one when
/// a file is written anew.
#[derive(Clone, Copy, Debug, PartialEq, Eq, PartialOrd, Ord, Hash)]
pub struct FileName {
    pub stem: Stem,
    /// `false` is side 0, `true` side 1.
    pub side: bool,
}
