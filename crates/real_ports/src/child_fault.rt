//! Why a call on a child failed, as it is said on standard error.

use json_terms::NoMemory;
use std::alloc::{AllocError, AllocFailed};
use std::io;
use thiserror::Error;

/// Why a call on a child failed.
#[derive(Clone, Copy, Debug, Error)]
pub enum ChildFault {
    #[error("out of memory")]
    NoMemory,
    #[error("it can't be started: {0}")]
    NotStarted(io::Error),
    #[error("it is gone")]
    Gone,
    #[error("it closed its standard output and goes on")]
    OutputClosed,
    #[error("it closed its standard input and goes on")]
    InputClosed,
    #[error("its pipe failed: {0}")]
    Pipe(io::Error),
    #[error("it printed more than 134217728 bytes without a newline")]
    LineTooLong,
    #[error("it printed more than 134217728 bytes and didn't take what it was sent")]
    NotTaking,
}

impl From<NoMemory> for ChildFault {
    fn from(_error: NoMemory) -> ChildFault {
        ChildFault::NoMemory
    }
}

impl From<AllocError> for ChildFault {
    fn from(_error: AllocError) -> ChildFault {
        ChildFault::NoMemory
    }
}

impl<T: Drop> From<AllocFailed<T>> for ChildFault {
    fn from(_failed: AllocFailed<T>) -> ChildFault {
        ChildFault::NoMemory
    }
}
