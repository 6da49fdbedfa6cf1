//! Why an update is refused.

ghost use Rattle.std.specs.Prelude.{◌≡◌};
ghost use Rattle.tree_updater.specs.Faults.{by_index, by_mapping, by_pool};

use change_mapper::MappingFault;
use child_pool::PoolFault;
use gate_file::GateFault;
use thiserror::Error;
use tree_index::IndexFault;

/// Why an update is refused.
#[derive(Debug, Drop, Error)]
pub enum UpdateFault {
    /// The query servers gave up, over a document or a reduce.
    #[error("a query server: {0}")]
    Pool(PoolFault),
    /// The index could not be read or written.
    #[error("the index: {0}")]
    Index(IndexFault),
    /// The documents could not be read.
    #[error("the documents: {0}")]
    Docs(GateFault),
    /// Memory ran out.
    #[error("out of memory")]
    NoMemory,
}

impl From<PoolFault> for UpdateFault {
    ghost from_gives = { λ fault e. e ≡ by_pool fault };

    fn from(fault: PoolFault) -> UpdateFault {
        match fault {
            PoolFault::NoMemory => UpdateFault::NoMemory,
            other => UpdateFault::Pool(other),
        }
    }
}

impl From<MappingFault> for UpdateFault {
    ghost from_gives = { λ fault e. e ≡ by_mapping fault };

    fn from(fault: MappingFault) -> UpdateFault {
        match fault {
            MappingFault::Pool(fault) => fault.into(),
            MappingFault::Docs(fault) => UpdateFault::Docs(fault),
            MappingFault::NoMemory => UpdateFault::NoMemory,
        }
    }
}

impl From<IndexFault> for UpdateFault {
    ghost from_gives = { λ fault e. e ≡ by_index fault };

    fn from(fault: IndexFault) -> UpdateFault {
        match fault {
            IndexFault::Summer(fault) => fault.into(),
            IndexFault::NoMemory => UpdateFault::NoMemory,
            other => UpdateFault::Index(other),
        }
    }
}
