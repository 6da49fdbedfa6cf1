//! Why a call on query servers failed.

ghost use Rattle.std.specs.Prelude.{◌≡◌};
ghost use Rattle.view_ports.specs.declared.servers_fault.ServersFault.TheVariants.{NoMemory as OutOfMemory};

use json_terms::NoMemory;
use std::alloc::{AllocError, AllocFailed};
use thiserror::Error;

/// Why a call on query servers failed.
#[derive(Clone, Copy, Debug, PartialEq, Eq, Error)]
pub enum ServersFault {
    /// The child didn't start, has ended, or printed a line that is too long. The servers' count of faults rose.
    #[error("the query server failed")]
    Failed,
    /// Memory ran out.
    #[error("out of memory")]
    NoMemory,
}

impl From<NoMemory> for ServersFault {
    ghost from_gives = { λ _ e. e ≡ OutOfMemory };

    fn from(_error: NoMemory) -> ServersFault {
        ServersFault::NoMemory
    }
}

impl From<AllocError> for ServersFault {
    ghost from_gives = { λ _ e. e ≡ OutOfMemory };

    fn from(_error: AllocError) -> ServersFault {
        ServersFault::NoMemory
    }
}

impl<T: Drop> From<AllocFailed<T>> for ServersFault {
    ghost from_gives = { λ _ e. e ≡ OutOfMemory };

    fn from(_failed: AllocFailed<T>) -> ServersFault {
        ServersFault::NoMemory
    }
}
