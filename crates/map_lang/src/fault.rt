//! Why a source gives no program.

ghost use Rattle.std.specs.Prelude.{◌≡◌};
ghost use Rattle.map_lang.specs.declared.fault.ParseFault.TheVariants.{NoMemory as OutOfMemory};

use json_terms::NoMemory;
use std::alloc::{AllocError, AllocFailed};
use thiserror::Error;

/// Why a source gives no program.
#[derive(Clone, Copy, Debug, PartialEq, Eq, Error)]
pub enum ParseFault {
    /// The source does not compile.
    #[error("the source does not compile")]
    Refused,
    /// Memory ran out.
    #[error("out of memory")]
    NoMemory,
}

impl From<NoMemory> for ParseFault {
    ghost from_gives = { λ _ e. e ≡ OutOfMemory };

    fn from(_error: NoMemory) -> ParseFault {
        ParseFault::NoMemory
    }
}

impl From<AllocError> for ParseFault {
    ghost from_gives = { λ _ e. e ≡ OutOfMemory };

    fn from(_error: AllocError) -> ParseFault {
        ParseFault::NoMemory
    }
}

impl<T: Drop> From<AllocFailed<T>> for ParseFault {
    ghost from_gives = { λ _ e. e ≡ OutOfMemory };

    fn from(_failed: AllocFailed<T>) -> ParseFault {
        ParseFault::NoMemory
    }
}
