//! What a crash within a call leaves, as a folder of its own.

ghost use Rattle.std.specs.Prelude.{◌≡◌, ◌<◌, ℕ, [], Some, IfOk};
ghost use Rattle.view_ports.specs.declared.file_name.FileName.{FileName};
ghost use Rattle.view_ports.specs.Disk.{IfTold};
ghost use Rattle.crash_disk.specs.HeldFiles.{bytes_in};
ghost use Rattle.crash_disk.specs.Moments.{disk_at};
ghost use Rattle.crash_disk.specs.State.{calls_told, counts, told, uncalled};
ghost use Rattle.crash_disk.specs.Torn.{IsLeft};

use crate::counters::Counters;
use crate::held_files::HeldFiles;
use crate::memory_folder::MemoryFolder;
use crate::moments::Moments;
use crate::pending_files::PendingFiles;
use json_terms::NoMemory;
use std::alloc::Global;

// A copy: all that there is of the files where nothing is pending.
fn copied(alloc: Global, files: &HeldFiles) -> Result<HeldFiles, NoMemory>
    ensures { IfOk result (λ copy. (name : FileName)
        → bytes_in copy name ≡ bytes_in files.now name) }
{
    PendingFiles::settled(alloc, files)?.images(alloc, 1)
}

// A folder with these files and its own moments, to which nothing happened so far.
fn folder_of(alloc: Global, files: HeldFiles) -> Result<MemoryFolder, NoMemory>
    ensures told { IfOk result (λ folder. told folder ≡ Some (disk_at (bytes_in files))) }
    ensures counts { IfOk result (λ folder. counts folder ≡ uncalled []) }
{
    let start = copied(alloc, &files)?;
    Ok(MemoryFolder {
        alloc,
        files,
        moments: Some(Moments {
            start,
            log: Vec::new(alloc),
        }),
        counters: Counters {
            fail: Vec::new(alloc),
            calls: 0,
            faults: 0,
            reads: 0,
        },
    })
}

impl MemoryFolder {
    /// How many calls were made and noted, which is 0 where no moments are kept.
    pub fn calls_noted(&self) -> u64
        ensures { result ≡ calls_told (told self.now) }
    {
        match &self.moments {
            Some(moments) => moments.log.len() as u64,
            None => 0,
        }
    }

    /// What a crash within the call leaves, as a folder of its own, which keeps its moments and has no
    /// failing calls; nothing is pending on it. Calls are counted from 0, without those that found no
    /// memory to be noted. The folder has to keep its moments, and the call to have been made: `call` is
    /// less than `calls_noted`.
    ///
    /// A crash within a call finds its change pending with the earlier ones; within a sync it finds
    /// what was pending before. Choice 0 keeps nothing that wasn't synced, 1 keeps all, and 2 is 1 with
    /// 255 in each place that was written since the last sync of its file. The digits of a further
    /// choice less 3 mix these, file by file and the lowest digit first: which of its lengths since its
    /// last sync the file has (0 the newest one; the base is their number); for each range that was
    /// added since (newest first, in base 2) whether its bytes are the durable ones (0) or zero (1); and
    /// for each range that was written since (newest first, in base 3) whether its bytes are the durable
    /// ones (0), those that a read gives (1) or 255 (2).
    pub fn image_at(&self, alloc: Global, call: u64, choice: u64) -> Result<MemoryFolder, NoMemory>
        requires { call < calls_told (told self.now) }
        ensures image { IfTold (told self.now) (λ disk.
            IfOk result (λ folder. IsLeft disk call choice (told folder))) }
        ensures counts { IfOk result (λ folder. counts folder ≡ uncalled []) }
    {
        let Some(moments) = &self.moments else {
            unreachable!()
        };
        let pending = moments.torn(alloc, call as usize)?;
        let files = pending.images(alloc, choice)?;
        folder_of(alloc, files)
    }
}
