//! Why a call on an index is refused.

ghost use Rattle.std.specs.Prelude.{◌≡◌};
ghost use Rattle.tree_index.specs.declared.fault.IndexFault.TheVariants.{NoMemory as OutOfMemory};
ghost use Rattle.tree_index.specs.Faults.{folder_fault, index_fault, reduce_fault, trees_fault, walk_fault};

use child_pool::PoolFault;
use gate_file::GateFault;
use json_terms::NoMemory;
use std::alloc::{AllocError, AllocFailed};
use thiserror::Error;
use tree_laws::TreeFault;
use view_ports::{FileName, FolderFault};

/// Why a call on an index is refused.
#[derive(Debug, Drop, Error)]
pub enum IndexFault {
    /// A call on the index's files failed, one of them is full, or what stands there is no root record or no node that fits.
    #[error("the index's file: {0}")]
    Store(GateFault),
    /// A query server gave up over a reduce.
    #[error("a reduce: {0}")]
    Summer(PoolFault),
    /// Memory ran out.
    #[error("out of memory")]
    NoMemory,
}

impl From<GateFault> for IndexFault {
    ghost from_gives = { λ fault e. e ≡ index_fault fault };

    fn from(fault: GateFault) -> IndexFault {
        match fault {
            GateFault::NoMemory => IndexFault::NoMemory,
            other => IndexFault::Store(other),
        }
    }
}

impl From<FolderFault> for IndexFault {
    ghost from_gives = { λ fault e. e ≡ folder_fault fault };

    fn from(fault: FolderFault) -> IndexFault {
        match fault {
            FolderFault::Failed => IndexFault::Store(GateFault::DiskFault),
            FolderFault::NoMemory => IndexFault::NoMemory,
        }
    }
}

impl From<NoMemory> for IndexFault {
    ghost from_gives = { λ _ e. e ≡ OutOfMemory };

    fn from(_fault: NoMemory) -> IndexFault {
        IndexFault::NoMemory
    }
}

impl From<AllocError> for IndexFault {
    ghost from_gives = { λ _ e. e ≡ OutOfMemory };

    fn from(_fault: AllocError) -> IndexFault {
        IndexFault::NoMemory
    }
}

impl<T: Drop> From<AllocFailed<T>> for IndexFault {
    ghost from_gives = { λ _ e. e ≡ OutOfMemory };

    fn from(_fault: AllocFailed<T>) -> IndexFault {
        IndexFault::NoMemory
    }
}

impl From<PoolFault> for IndexFault {
    ghost from_gives = { λ fault e. e ≡ reduce_fault fault };

    fn from(fault: PoolFault) -> IndexFault {
        match fault {
            PoolFault::NoMemory => IndexFault::NoMemory,
            other => IndexFault::Summer(other),
        }
    }
}

/// A fault of trees in the file of this name: a bad node is damage at its place.
pub(crate) fn of_trees(name: FileName, fault: TreeFault<GateFault, PoolFault>) -> IndexFault
    ensures { result ≡ trees_fault name fault }
{
    match fault {
        TreeFault::Store(fault) => fault.into(),
        TreeFault::BadNode(at) => IndexFault::Store(GateFault::Damaged { name, offset: at }),
        TreeFault::Summer(fault) => fault.into(),
        TreeFault::NoMemory => IndexFault::NoMemory,
    }
}

/// The same of a walk, which asks no reduce.
pub(crate) fn of_walk(name: FileName, fault: TreeFault<GateFault, NoMemory>) -> IndexFault
    ensures { result ≡ walk_fault name fault }
{
    match fault {
        TreeFault::Store(fault) => fault.into(),
        TreeFault::BadNode(at) => IndexFault::Store(GateFault::Damaged { name, offset: at }),
        TreeFault::Summer(_) | TreeFault::NoMemory => IndexFault::NoMemory,
    }
}
