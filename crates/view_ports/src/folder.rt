//! The port to a folder of files on a disk that may stop at any moment.

ghost use Rattle.std.specs.Prelude.{◌≡◌, ℕ, ◌+◌, ◌≤◌, ◌^◌, Option, IfOk, length};
ghost use Rattle.std.specs.Io.{ReadsAtMost};
ghost use Rattle.view_ports.specs.declared.file_name.FileName.{FileName};
ghost use Rattle.view_ports.specs.declared.folder.FolderFault.TheVariants.{Failed};
ghost use Rattle.view_ports.specs.Causes.{HasCauseIf, one_more};
ghost use Rattle.view_ports.specs.Disk.{Disk, IfTold, Tells, SeenStays};
ghost use Rattle.view_ports.specs.Faults.{CountsOnce, CountsOnly, HasCause};
ghost use Rattle.view_ports.specs.File.{emptied, grew, synced, wrote};
ghost use Rattle.view_ports.specs.FolderCalls.{Changes, IsListing, IsReadAt, Passes};

use crate::file_name::FileName;
use crate::ports::PortFault;
use std::alloc::Global;
use thiserror::Error;

/// Why the names of a folder could not be listed.
#[derive(Clone, Copy, Debug, PartialEq, Eq, Error)]
pub enum FolderFault {
    #[error("the device failed")]
    Failed,
    #[error("out of memory")]
    NoMemory,
}

/// A folder of files. Where it tells its disk, each call says what a crash may leave at each moment.
pub trait Folder {
    /// The files, what a crash may leave of them and what they were before, where the folder tells it.
    ghost disk: { Self → Option (Disk FileName) };

    /// How many faults the device had.
    ghost faults: { Self → ℕ };

    /// How many times `read_at` was called. It never falls, and stands still at `u64::MAX`.
    ghost reads: { Self → ℕ };

    /// The length of the file in bytes. A file that isn't there has length 0.
    fn len(&mut self, name: FileName) -> Result<u64, PortFault>
        ensures length { IfTold (disk self.old) (λ d. IfOk result
            (λ count. count ≡ length (d.now name).seen)) }
        ensures disk { Tells (disk self.old) (disk self.new) Passes }
        ensures cause { HasCause (faults self.old) (faults self.new) result }
        ensures counted { CountsOnce (faults self.old) (faults self.new) result }
        ensures reads { reads self.new ≡ reads self.old };

    /// Reads the bytes from the place `at` on into the front of `into`, and answers how many: as many
    /// as the file has there and `into` has room for.
    fn read_at(&mut self, name: FileName, at: u64, into: &mut [u8]) -> Result<usize, PortFault>
        ensures bound { ReadsAtMost result into.new }
        ensures bytes { IfTold (disk self.old) (λ d. IfOk result
            (λ count. IsReadAt (d.now name).seen at count into.new)) }
        ensures disk { Tells (disk self.old) (disk self.new) Passes }
        ensures cause { HasCause (faults self.old) (faults self.new) result }
        ensures counted { CountsOnce (faults self.old) (faults self.new) result }
        ensures reads { reads self.new ≡ one_more (reads self.old) };

    /// Writes the bytes of `from` over those from the place `at` on.
    fn write_at(&mut self, name: FileName, at: u64, from: &[u8]) -> Result<(), PortFault>
        requires { IfTold (disk self.old) (λ d. at + length from.now ≤ length (d.now name).seen) }
        ensures disk { Tells (disk self.old) (disk self.new)
            (Changes name (wrote at from.now) result) }
        ensures cause { HasCause (faults self.old) (faults self.new) result }
        ensures counted { CountsOnce (faults self.old) (faults self.new) result }
        ensures reads { reads self.new ≡ reads self.old };

    /// Adds so many zero bytes at the end of the file, which is made if it isn't there.
    fn grow(&mut self, name: FileName, by: u64) -> Result<(), PortFault>
        requires { IfTold (disk self.old) (λ d. length (d.now name).seen + by ≤ 2 ^ 40) }
        ensures disk { Tells (disk self.old) (disk self.new) (Changes name (grew by) result) }
        ensures cause { HasCause (faults self.old) (faults self.new) result }
        ensures counted { CountsOnce (faults self.old) (faults self.new) result }
        ensures reads { reads self.new ≡ reads self.old };

    /// Takes all bytes of the file away.
    fn cut_to_zero(&mut self, name: FileName) -> Result<(), PortFault>
        ensures disk { Tells (disk self.old) (disk self.new) (Changes name emptied result) }
        ensures cause { HasCause (faults self.old) (faults self.new) result }
        ensures counted { CountsOnce (faults self.old) (faults self.new) result }
        ensures reads { reads self.new ≡ reads self.old };

    /// Makes sure of the file as it is now: from then on a crash leaves what a read gives.
    fn sync(&mut self, name: FileName) -> Result<(), PortFault>
        ensures disk { Tells (disk self.old) (disk self.new) (Changes name synced result) }
        ensures cause { HasCause (faults self.old) (faults self.new) result }
        ensures counted { CountsOnce (faults self.old) (faults self.new) result }
        ensures reads { reads self.new ≡ reads self.old };

    /// The names of all files of this program that have bytes, each once, in any order.
    fn names(&mut self, alloc: Global) -> Result<Vec<FileName>, FolderFault>
        ensures names { IfTold (disk self.old) (λ d. IfOk result
            (λ names. IsListing d.now names.items)) }
        ensures disk { Tells (disk self.old) (disk self.new) Passes }
        ensures cause { HasCauseIf (λ error. error ≡ Failed) (faults self.old)
            (faults self.new) result }
        ensures counted { CountsOnly Failed (faults self.old) (faults self.new) result }
        ensures reads { reads self.new ≡ reads self.old };

    /// What is read is one of the images that a crash may leave now.
    ghost seen_may_stay: { (folder : Self) → IfTold (disk folder) SeenStays };
}
