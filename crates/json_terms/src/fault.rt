//! Why a text is no term, and want of memory.

ghost use Rattle.std.specs.Prelude.{◌≡◌};
ghost use Rattle.json_terms.specs.declared.fault.TermFault.TheVariants.{NoMemory as OutOfMemory};

use std::alloc::{AllocError, AllocFailed};
use thiserror::Error;

/// Memory ran out.
#[derive(Clone, Copy, Debug, PartialEq, Eq, Error)]
#[error("out of memory")]
pub struct NoMemory;

impl From<AllocError> for NoMemory {
    fn from(_error: AllocError) -> NoMemory {
        NoMemory
    }
}

impl<T: Drop> From<AllocFailed<T>> for NoMemory {
    fn from(_failed: AllocFailed<T>) -> NoMemory {
        NoMemory
    }
}

/// Why bytes are no term, in the order in which the causes are looked for.
#[derive(Clone, Copy, Debug, PartialEq, Eq, Error)]
pub enum TermFault {
    /// The bytes are no JSON text (RFC 8259) that `serde_json` reads: no UTF-8, another grammar, a number beyond every
    /// float, or nesting past 127.
    #[error("not JSON")]
    NotJson,
    /// A number that is no whole number from -2^63 to 2^63 - 1.
    #[error("number is not whole")]
    NotWhole,
    /// Objects and arrays nest more than 100 deep.
    #[error("nested too deep")]
    TooDeep,
    /// Memory ran out.
    #[error("out of memory")]
    NoMemory,
}

impl From<NoMemory> for TermFault {
    ghost from_gives = { λ _ e. e ≡ OutOfMemory };

    fn from(_error: NoMemory) -> TermFault {
        TermFault::NoMemory
    }
}
