//! Why a request isn't done: a refusal, or a fault that ends it.

ghost use Rattle.std.specs.Prelude.{◌≡◌};
ghost use Rattle.view_engine.specs.declared.halt.Halt.TheVariants.{Stopped};
ghost use Rattle.view_engine.specs.declared.halt.StepFault.TheVariants.{NoMemory as OutOfMemory};
ghost use Rattle.view_engine.specs.Halts.{halted_as, halted_by};

use crate::refusal::Refusal;
use doc_file::DocFault;
use gate_file::GateFault;
use json_terms::NoMemory;
use std::alloc::{AllocError, AllocFailed};
use thiserror::Error;
use view_ports::FileName;

/// Why a line was not answered, or an engine not opened. After each but `NoMemory` the engine is not to be used again.
#[derive(Clone, Copy, Debug, PartialEq, Eq, Error)]
pub enum StepFault {
    /// The folder failed, and counted it.
    #[error("the disk failed")]
    DiskFault,
    /// What stands at this place of the file is not what was written there.
    #[error("a file is damaged")]
    Damaged { name: FileName, offset: u64 },
    /// A limit of the file: of its length, which is named then, or of the number of its commits.
    #[error("a file is full")]
    Full { name: FileName, length: Option<u64> },
    /// Memory ran out.
    #[error("out of memory")]
    NoMemory,
}

impl From<NoMemory> for StepFault {
    ghost from_gives = { λ _ fault. fault ≡ OutOfMemory };

    fn from(_error: NoMemory) -> StepFault {
        StepFault::NoMemory
    }
}

/// Why a request isn't done.
#[derive(Drop)]
pub(crate) enum Halt {
    /// It is refused.
    Refused(Refusal),
    /// It could not be answered.
    Stopped(StepFault),
}

impl From<Refusal> for Halt {
    ghost from_gives = { λ refusal halt. halt ≡ halted_by refusal };

    fn from(refusal: Refusal) -> Halt {
        match refusal {
            Refusal::NoMemory => Halt::Stopped(StepFault::NoMemory),
            other => Halt::Refused(other),
        }
    }
}

impl From<NoMemory> for Halt {
    ghost from_gives = { λ _ halt. halt ≡ Stopped OutOfMemory };

    fn from(_error: NoMemory) -> Halt {
        Halt::Stopped(StepFault::NoMemory)
    }
}

impl From<AllocError> for Halt {
    ghost from_gives = { λ _ halt. halt ≡ Stopped OutOfMemory };

    fn from(_error: AllocError) -> Halt {
        Halt::Stopped(StepFault::NoMemory)
    }
}

impl<T: Drop> From<AllocFailed<T>> for Halt {
    ghost from_gives = { λ _ halt. halt ≡ Stopped OutOfMemory };

    fn from(_failed: AllocFailed<T>) -> Halt {
        Halt::Stopped(StepFault::NoMemory)
    }
}

impl From<DocFault> for Halt {
    ghost from_gives = { λ fault halt. halt ≡ halted_as fault };

    fn from(fault: DocFault) -> Halt {
        match fault {
            DocFault::BadId => Halt::Refused(Refusal::BadId),
            DocFault::BadMember(name) => Halt::Refused(Refusal::BadMember(name)),
            DocFault::BadRev => Halt::Refused(Refusal::BadRev),
            DocFault::TooLarge => Halt::Refused(Refusal::DocumentTooLarge),
            DocFault::TooDeep => Halt::Refused(Refusal::DocumentTooDeep),
            DocFault::BadDesign(fault) => Halt::Refused(Refusal::InvalidDesign(fault)),
            DocFault::Conflict => Halt::Refused(Refusal::Conflict),
            DocFault::Missing => Halt::Refused(Refusal::Missing),
            DocFault::Deleted => Halt::Refused(Refusal::Deleted),
            DocFault::Gate(GateFault::DiskFault) => Halt::Stopped(StepFault::DiskFault),
            DocFault::Gate(GateFault::Damaged { name, offset }) => {
                Halt::Stopped(StepFault::Damaged { name, offset })
            }
            DocFault::Gate(GateFault::Full { name, length }) => {
                Halt::Stopped(StepFault::Full { name, length })
            }
            DocFault::Gate(GateFault::NoMemory) | DocFault::NoMemory => {
                Halt::Stopped(StepFault::NoMemory)
            }
        }
    }
}
