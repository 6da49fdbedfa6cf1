//! Why a call on the folder failed, as it is said on standard error.

use std::io;
use thiserror::Error;

/// Why a call on the folder failed.
#[derive(Clone, Copy, Debug, Error)]
pub enum FileFault {
    #[error("{0}")]
    System(io::Error),
    #[error("{0}")]
    NotOpened(io::Error),
    #[error("another file can't be synced, which is to be closed before: {0}")]
    NotClosed(io::Error),
    #[error("another program has it")]
    InUse,
    #[error("it is a directory")]
    Directory,
    #[error("it is no plain file")]
    NotPlain,
    #[error("it has another name too (a hard link), and stays as it is")]
    Linked,
    #[error("it is not as couchview leaves a file, and stays as it is")]
    Foreign,
    #[error("no file may have this name")]
    NoName,
    #[error("the file ends before that")]
    PastEnd,
    #[error("a sync failed before, so nothing is known of the disk")]
    Lost,
    #[error("out of memory")]
    NoMemory,
}

impl FileFault {
    /// What could not be done, where a call was to do this: to open the file, or that.
    pub fn undone(self, task: &'static str) -> &'static str {
        match self {
            FileFault::NotOpened(_)
            | FileFault::NotClosed(_)
            | FileFault::InUse
            | FileFault::Directory
            | FileFault::NotPlain
            | FileFault::Linked
            | FileFault::Foreign
            | FileFault::NoName => "opened",
            _ => task,
        }
    }
}

impl From<io::Error> for FileFault {
    fn from(error: io::Error) -> FileFault {
        if error.kind() == io::ErrorKind::OutOfMemory {
            return FileFault::NoMemory;
        }
        FileFault::System(error)
    }
}
