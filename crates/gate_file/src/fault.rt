//! Why a call on a gate file is refused.

ghost use Rattle.std.specs.Prelude.{◌≡◌};
ghost use Rattle.gate_file.specs.declared.fault.GateFault.TheVariants.{DiskFault, NoMemory as OutOfMemory};

use json_terms::NoMemory;
use std::alloc::AllocError;
use thiserror::Error;
use view_ports::{FileName, PortFault};

/// Why a call on a gate file is refused.
#[derive(Clone, Copy, Debug, PartialEq, Eq, Error)]
pub enum GateFault {
    /// The folder failed, and counted it.
    #[error("the disk failed")]
    DiskFault,
    /// A limit of the file: of its length, which is named then, or of the number of its commits.
    #[error("the file is full")]
    Full { name: FileName, length: Option<u64> },
    /// What stands at this place of the file is not what was written there.
    #[error("the file is damaged")]
    Damaged { name: FileName, offset: u64 },
    /// Memory ran out.
    #[error("out of memory")]
    NoMemory,
}

impl From<PortFault> for GateFault {
    ghost from_gives = { λ _ e. e ≡ DiskFault };

    fn from(_fault: PortFault) -> GateFault {
        GateFault::DiskFault
    }
}

impl From<NoMemory> for GateFault {
    ghost from_gives = { λ _ e. e ≡ OutOfMemory };

    fn from(_fault: NoMemory) -> GateFault {
        GateFault::NoMemory
    }
}

impl From<AllocError> for GateFault {
    ghost from_gives = { λ _ e. e ≡ OutOfMemory };

    fn from(_fault: AllocError) -> GateFault {
        GateFault::NoMemory
    }
}
