//! The files as a crash within a call finds them.

ghost use Rattle.std.specs.Prelude.{◌≡◌, ◌<◌, length, slice_index_or, IfOk, ℕ};
ghost use Rattle.view_ports.specs.declared.file_name.FileName.{FileName};
ghost use Rattle.crash_disk.specs.declared.did.Did.{Did};
ghost use Rattle.crash_disk.specs.HeldFiles.{bytes_in};
ghost use Rattle.crash_disk.specs.Moments.{disk_at};
ghost use Rattle.crash_disk.specs.PendingFiles.{file_in};
ghost use Rattle.crash_disk.specs.Within.{is_sync, within, files_before};

use crate::did::{Change, Did};
use crate::moments::Moments;
use crate::pending_files::PendingFiles;
use json_terms::NoMemory;
use std::alloc::Global;

fn syncs(did: &Did) -> bool
    ensures { result ≡ is_sync did.now }
{
    matches!(did, Did::Changed(_, Change::Synced))
}

impl Moments {
    /// The files with what is pending within the call: after it, or before it where it is a sync.
    pub fn torn(&self, alloc: Global, call: usize) -> Result<PendingFiles, NoMemory>
        requires { call < length self.now.log.items }
        ensures { IfOk result (λ pending. (did : Did) (name : FileName)
            → file_in pending name ≡ within (slice_index_or self.now.log.items call did)
            (files_before (disk_at (bytes_in self.now.start)) self.now.log.items call) name) }
    {
        let mut pending = PendingFiles::settled(alloc, &self.start)?;
        let earlier = &self.log[..call];
        for did in earlier {
            pending.apply(alloc, did)?;
        }
        let last = &self.log[call];
        if !syncs(last) {
            pending.apply(alloc, last)?;
        }
        Ok(pending)
    }
}
