//! Why no term is read.

ghost use Rattle.std.specs.Prelude.{◌≡◌};
ghost use Rattle.term_codec.specs.declared.fault.CodecFault.TheVariants.{NoMemory as OutOfMemory};

use json_terms::NoMemory;
use thiserror::Error;

/// Why no term is read.
#[derive(Clone, Copy, Debug, PartialEq, Eq, Error)]
pub enum CodecFault {
    /// At this place no spelling of a term stands.
    #[error("no term at byte {0}")]
    NotATerm(usize),
    /// Memory ran out.
    #[error("out of memory")]
    NoMemory,
}

impl From<NoMemory> for CodecFault {
    ghost from_gives = { λ _ e. e ≡ OutOfMemory };

    fn from(_error: NoMemory) -> CodecFault {
        CodecFault::NoMemory
    }
}
