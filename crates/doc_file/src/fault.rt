//! Why a call on documents is refused.

ghost use Rattle.std.specs.Prelude.{◌≡◌};
ghost use Rattle.doc_file.specs.declared.fault.DocFault.TheVariants.{NoMemory as OutOfMemory};
ghost use Rattle.doc_file.specs.Faults.{bad_design, doc_fault};

use design_docs::DesignFault;
use gate_file::GateFault;
use json_terms::{Chars, NoMemory};
use std::alloc::{AllocError, AllocFailed};
use thiserror::Error;

/// Why a call on documents is refused.
#[derive(Debug, Drop, Error)]
pub enum DocFault {
    /// The `_id` is no text, is empty, or begins with an underscore and is no design document's.
    #[error("bad id")]
    BadId,
    /// The member with this name is one that no document may have, and the first such.
    #[error("bad member")]
    BadMember(Chars),
    /// The `_rev` has not the form of a revision.
    #[error("bad revision")]
    BadRev,
    /// The document's text has more than 524,288 bytes, its `_rev` and `_deleted` left out.
    #[error("too large")]
    TooLarge,
    /// Objects and arrays nest more than 64 deep.
    #[error("too deep")]
    TooDeep,
    /// The design document has no design, for this fault.
    #[error("bad design: {0}")]
    BadDesign(DesignFault),
    /// The revision that was given isn't the present one, or none was given where one is needed.
    #[error("conflict")]
    Conflict,
    /// The id was never written.
    #[error("missing")]
    Missing,
    /// The last write of the id was a deletion.
    #[error("deleted")]
    Deleted,
    /// A call on the documents' file failed, or what stands there is no root record or no body.
    #[error("the documents' file: {0}")]
    Gate(GateFault),
    /// Memory ran out.
    #[error("out of memory")]
    NoMemory,
}

impl From<GateFault> for DocFault {
    ghost from_gives = { λ fault e. e ≡ doc_fault fault };

    fn from(fault: GateFault) -> DocFault {
        match fault {
            GateFault::NoMemory => DocFault::NoMemory,
            other => DocFault::Gate(other),
        }
    }
}

impl From<DesignFault> for DocFault {
    ghost from_gives = { λ fault e. e ≡ bad_design fault };

    fn from(fault: DesignFault) -> DocFault {
        match fault {
            DesignFault::NoMemory => DocFault::NoMemory,
            other => DocFault::BadDesign(other),
        }
    }
}

impl From<NoMemory> for DocFault {
    ghost from_gives = { λ _ e. e ≡ OutOfMemory };

    fn from(_fault: NoMemory) -> DocFault {
        DocFault::NoMemory
    }
}

impl From<AllocError> for DocFault {
    ghost from_gives = { λ _ e. e ≡ OutOfMemory };

    fn from(_fault: AllocError) -> DocFault {
        DocFault::NoMemory
    }
}

impl<T: Drop> From<AllocFailed<T>> for DocFault {
    ghost from_gives = { λ _ e. e ≡ OutOfMemory };

    fn from(_fault: AllocFailed<T>) -> DocFault {
        DocFault::NoMemory
    }
}
