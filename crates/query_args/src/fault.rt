//! Why a query is refused.

ghost use Rattle.std.specs.Prelude.{◌≡◌};
ghost use Rattle.query_args.specs.declared.fault.QueryFault.TheVariants.{NoMemory as OutOfMemory};

use json_terms::{Chars, NoMemory};
use thiserror::Error;

/// Why a query is refused. `specs/Faults.antt` has the order in which the causes are looked for.
#[derive(Debug, Drop, Error)]
pub enum QueryFault {
    /// The parameter with this name, the first such in byte order, isn't one of what is asked.
    #[error("unknown parameter")]
    UnknownName(Chars),
    /// The parameter with this name, the first such in byte order, has a value that it can't have.
    #[error("bad value")]
    BadValue(Chars),
    /// `reduce` is true and the view has none.
    #[error("reduce of a map-only view")]
    ReduceOfMapOnly,
    /// Rows are to be grouped that aren't reduced.
    #[error("grouping without reduce")]
    GroupUnreduced,
    /// Rows of listed keys are reduced without `group`.
    #[error("keys need group=true")]
    KeysNeedGroup,
    /// More than one is given of `keys`, of `key`, and of `startkey` or `endkey`.
    #[error("keys, key and range together")]
    KeyAndKeys,
    /// A cursor is asked for over reduced rows.
    #[error("cursor of a reduced query")]
    CursorReduces,
    /// Memory ran out.
    #[error("out of memory")]
    NoMemory,
}

impl From<NoMemory> for QueryFault {
    ghost from_gives = { λ _ e. e ≡ OutOfMemory };

    fn from(_fault: NoMemory) -> QueryFault {
        QueryFault::NoMemory
    }
}
