//! Appending bytes of which the last ones become the root record.

ghost use Rattle.std.specs.Prelude.{◌≡◌, ◌↔◌, ◌+◌, ◌<◌, ◌≤◌, ◌^◌, Err, length, IfErr, OnOk, OnErr, IsTrue};
ghost use Rattle.gate_file.specs.Calls.{too_long, used_up, IsCounted, IsWriteFault, KeepsIn, Moved, Told};
ghost use Rattle.gate_file.specs.GateFile.{commits_of, name_of, start_of};
ghost use Rattle.gate_file.specs.Publish.{published, IsFull, IsTooLong, IsUsedUp, Publishes};

use super::GateFile;
use crate::fault::GateFault;
use crate::root::MAX_COMMITS;
use view_ports::Folder;

impl GateFile {
    /// Whether the file may get so many bytes more, but has all of its commits.
    fn is_used_up(&self, count: u64) -> bool
        ensures { IsTrue result ↔ IsUsedUp self.now count }
    {
        self.commits >= MAX_COMMITS && self.has_room(count)
    }

    /// Appends bytes, and makes those behind the first `skipped` of them the root record, by one
    /// commit. At each moment a crash leaves the old root with what was durable, or the new root with
    /// all of the bytes. Nothing is pending after it.
    ///
    /// `Full` comes with the file's length where it would pass 2^40 bytes, and without one where 2^50
    /// commits were made, and then nothing was done; `DiskFault` where the folder failed. After a fault
    /// the object is not to be used again.
    pub fn publish<F: Folder>(
        &mut self,
        folder: &mut F,
        bytes: &[u8],
        skipped: usize,
    ) -> Result<(), GateFault>
        requires keeps { Told F.Folder folder.old (KeepsIn self.old) }
        requires inside { skipped ≤ length bytes.now }
        ensures done { OnOk result (self.new ≡ published self.old (length bytes.now) skipped) }
        ensures few { OnOk result (commits_of self.old < 2 ^ 50) }
        ensures commits { OnErr result (commits_of self.new ≡ commits_of self.old) }
        ensures name { name_of self.new ≡ name_of self.old }
        ensures disk { Moved F.Folder folder.old folder.new (Publishes self.old bytes.now skipped result) }

        // It fails exactly where the file would be too long, where it has all of its commits, and where
        // the disk fails.
        ensures long { IsTooLong self.old (length bytes.now) ↔ (result ≡ Err (too_long self.old)) }
        ensures spent { IsUsedUp self.old (length bytes.now) ↔ (result ≡ Err (used_up self.old)) }
        ensures faults { IfErr result (IsWriteFault self.old) }
        ensures cause { IsCounted F.Folder folder.old folder.new result }

        ensures err { IsFull self.old (length bytes.now) → self.new ≡ self.old }
        ensures untouched { IsFull self.old (length bytes.now) → folder.new ≡ folder.old }
        ensures reads { F.reads folder.new ≡ F.reads folder.old }
    {
        // It is looked at first, so that nothing is appended that can't be committed.
        if self.is_used_up(bytes.len() as u64) {
            return Err(GateFault::Full {
                name: self.name,
                length: None,
            });
        }
        let at = self.append(folder, bytes)?;
        self.commit(folder, at + skipped as u64, (bytes.len() - skipped) as u64)
    }
}
