//! Why a line is no reply.

ghost use Rattle.std.specs.Prelude.{◌≡◌};
ghost use Rattle.query_protocol.specs.declared.fault.ReplyFault.TheVariants.{NoMemory as OutOfMemory};

use json_terms::NoMemory;
use thiserror::Error;

/// Why a line is no reply.
#[derive(Clone, Copy, Debug, PartialEq, Eq, Error)]
pub enum ReplyFault {
    /// The line is no log line, no complaint that is asked for, and no proper answer.
    #[error("no proper reply")]
    BadReply,
    /// Memory ran out.
    #[error("out of memory")]
    NoMemory,
}

impl From<NoMemory> for ReplyFault {
    ghost from_gives = { λ _ e. e ≡ OutOfMemory };

    fn from(_error: NoMemory) -> ReplyFault {
        ReplyFault::NoMemory
    }
}
