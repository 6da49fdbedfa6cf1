//! The lock on the folder in which the program was started.

use crate::diagnostics::Diagnostics;
use crate::file_fault::FileFault;
use crate::open_file::above_streams;
use std::fs::{File, TryLockError};
use std::io;

const ENOSYS: i32 = 38;

const EOPNOTSUPP: i32 = 95;

/// What the system answers where a file system has no such lock: that the call isn't there, that it isn't supported, and that
/// what it was asked can't be.
const NO_LOCKS: [i32; 3] = [ENOSYS, EOPNOTSUPP, libc::EINVAL];

/// Opens the folder and takes the system's exclusive lock on it (`flock`), without waiting. The lock lasts as long as the
/// file that is given, or as the program; children don't get it. `InUse` where another program has it. Where the file system
/// has no such lock, that is said, and the folder is used without one.
pub fn lock_folder(rt: &HostRuntime, diagnostics: Diagnostics) -> Result<File, FileFault> {
    let opened = File::open(rt, ".").map_err(FileFault::NotOpened)?;
    let folder = above_streams(opened)?;
    match folder.try_lock() {
        Ok(()) => {}
        Err(TryLockError::WouldBlock) => return Err(FileFault::InUse),
        Err(TryLockError::Error(error)) if has_no_locks(&error) => diagnostics.say(
            "the file system has no lock for this folder: see to it that no other program uses it",
        ),
        Err(TryLockError::Error(error)) => return Err(FileFault::NotOpened(error)),
    }
    Ok(folder)
}

fn has_no_locks(error: &io::Error) -> bool {
    match error.raw_os_error() {
        Some(number) => NO_LOCKS.contains(&number),
        None => false,
    }
}
