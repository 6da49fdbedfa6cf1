//! Why a query isn't answered.

ghost use Rattle.std.specs.Prelude.{◌≡◌};
ghost use Rattle.fresh_view.specs.declared.fault.AfreshFault.TheVariants.{NoMemory as OutOfMemory};

use json_terms::NoMemory;
use thiserror::Error;

/// Why a query isn't answered.
#[derive(Clone, Copy, Debug, PartialEq, Eq, Error)]
pub enum AfreshFault {
    /// The map source is no program of `pick`.
    #[error("the map source does not compile")]
    DoesNotCompile,
    /// Memory ran out.
    #[error("out of memory")]
    NoMemory,
}

impl From<NoMemory> for AfreshFault {
    ghost from_gives = { λ _ e. e ≡ OutOfMemory };

    fn from(_error: NoMemory) -> AfreshFault {
        AfreshFault::NoMemory
    }
}
