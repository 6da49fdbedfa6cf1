//! A folder in memory.

ghost use Rattle.crash_disk.specs.Told.{IsTied, IsTied-prop};

use crate::counters::Counters;
use crate::held_files::HeldFiles;
use crate::moments::Moments;
use std::alloc::Global;

/// A folder in memory, whose calls fail where they are to, and which keeps its moments or doesn't.
/// Where it keeps them it tells its disk.
#[derive(Drop)]
pub struct MemoryFolder {
    pub(crate) alloc: Global,
    // What a read gives. It is kept beside the moments, so that no read replays them.
    pub(crate) files: HeldFiles,
    pub(crate) moments: Option<Moments>,
    pub(crate) counters: Counters,
    ghost tied: { IsTied moments files } by { IsTied-prop moments files },
}
