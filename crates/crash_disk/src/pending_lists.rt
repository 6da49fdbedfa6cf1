//! Lists of files with what is pending on them, and of their images.

ghost use Rattle.std.specs.Prelude.{◌≡◌, IfOk, All};
ghost use Rattle.crash_disk.specs.Chosen.{IsChosen, IsSound};
ghost use Rattle.crash_disk.specs.Pending.{file_of};
ghost use Rattle.crash_disk.specs.PendingList.{AreMatched, IsSettled};

use crate::digits::Digits;
use crate::held_file::HeldFile;
use crate::pending::Pending;
use crate::pending_file::PendingFile;
use json_terms::NoMemory;
use std::alloc::Global;

/// A list of files with the same names and bytes, and nothing pending.
pub fn settled_list(alloc: Global, held: &[HeldFile]) -> Result<Vec<PendingFile>, NoMemory>
    ensures { IfOk result (λ files. AreMatched IsSettled files.items held.now) }
{
    let mut files = Vec::new(alloc);
    for file in held {
        files.push(PendingFile {
            name: file.name,
            pending: Pending::settled(alloc, &file.bytes)?,
        })?;
    }
    Ok(files)
}

/// An image of each file.
pub fn image_list(
    alloc: Global,
    files: &[PendingFile],
    choice: u64,
) -> Result<Vec<HeldFile>, NoMemory>
    requires { All (λ file. IsSound (file_of file.pending)) files.now }
    ensures { IfOk result (λ held. AreMatched (IsChosen choice) files.now held.items) }
{
    let mut held = Vec::new(alloc);
    let mut digits = Digits {
        rest: choice.saturating_sub(3),
    };
    for file in files {
        held.push(HeldFile {
            name: file.name,
            bytes: file.pending.image(alloc, choice, &mut digits)?,
        })?;
    }
    Ok(held)
}
