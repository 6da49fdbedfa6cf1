//! Why documents aren't mapped.

ghost use Rattle.std.specs.Prelude.{◌≡◌};
ghost use Rattle.change_mapper.specs.declared.fault.MappingFault.TheVariants.{NoMemory as OutOfMemory};
ghost use Rattle.change_mapper.specs.Faults.{by_documents, by_pool};

use child_pool::PoolFault;
use doc_file::DocFault;
use gate_file::GateFault;
use json_terms::NoMemory;
use thiserror::Error;

/// Why the documents that were written since a sequence aren't mapped.
#[derive(Debug, Drop, Error)]
pub enum MappingFault {
    /// The query servers gave up.
    #[error("a query server: {0}")]
    Pool(PoolFault),
    /// The documents could not be read.
    #[error("the documents: {0}")]
    Docs(GateFault),
    /// Memory ran out.
    #[error("out of memory")]
    NoMemory,
}

impl From<PoolFault> for MappingFault {
    ghost from_gives = { λ fault e. e ≡ by_pool fault };

    fn from(fault: PoolFault) -> MappingFault {
        match fault {
            PoolFault::NoMemory => MappingFault::NoMemory,
            other => MappingFault::Pool(other),
        }
    }
}

impl From<DocFault> for MappingFault {
    ghost from_gives = { λ fault e. e ≡ by_documents fault };

    fn from(fault: DocFault) -> MappingFault {
        match fault {
            DocFault::Gate(fault) => MappingFault::Docs(fault),
            _ => MappingFault::NoMemory,
        }
    }
}

impl From<NoMemory> for MappingFault {
    ghost from_gives = { λ _ e. e ≡ OutOfMemory };

    fn from(_fault: NoMemory) -> MappingFault {
        MappingFault::NoMemory
    }
}
