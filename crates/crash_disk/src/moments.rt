//! The moments of a folder: what it held at first, and what each call did, as long as it keeps that.

ghost use Rattle.crash_disk.specs.Held.{bytes_of};
ghost use Rattle.crash_disk.specs.Moments.{AllFit, AllFit-prop, disk_at};

use crate::did::Did;
use crate::held_files::HeldFiles;

/// What a folder held before its first call, where nothing was pending, and what each call did, the
/// first one first.
#[derive(Drop)]
pub struct Moments {
    pub start: HeldFiles,
    pub log: Vec<Did>,
    ghost fit: { AllFit (disk_at (bytes_of start.files.items)).now log.items } by { AllFit-prop (disk_at (bytes_of start.files.items)).now log.items },
}
