//! What a call on a folder did.

use view_ports::FileName;

/// A change of one file.
#[derive(Drop)]
pub enum Change {
    /// These bytes were written from this place on.
    Wrote(u64, Vec<u8>),
    /// So many zero bytes were added at the end.
    Grew(u64),
    Emptied,
    Synced,
}

/// What one call did.
#[derive(Drop)]
pub enum Did {
    /// It changed no file: it only looked, or it failed.
    Passed,
    Changed(FileName, Change),
}
