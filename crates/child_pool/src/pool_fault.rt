//! Why a pool of query servers gave up.

ghost use Rattle.std.specs.Prelude.{◌≡◌};
ghost use Rattle.child_pool.specs.declared.pool_fault.PoolFault.TheVariants.{NoMemory as OutOfMemory};

use json_terms::{Chars, NoMemory};
use thiserror::Error;

/// Why a pool of query servers gave up. All its children are then stopped.
#[derive(Drop, Debug, Error)]
pub enum PoolFault {
    /// Two attempts on one prompt failed.
    #[error("query server failed twice")]
    ServerFault,
    /// This line, as shown, is no proper reply.
    #[error("bad reply")]
    BadReply(Chars),
    /// A server complained that a source doesn't compile.
    #[error("a source doesn't compile")]
    Compile,
    /// No path is known for the language.
    #[error("unknown language")]
    UnknownLanguage,
    /// Memory ran out.
    #[error("out of memory")]
    NoMemory,
}

impl From<NoMemory> for PoolFault {
    ghost from_gives = { λ _ e. e ≡ OutOfMemory };

    fn from(_error: NoMemory) -> PoolFault {
        PoolFault::NoMemory
    }
}
