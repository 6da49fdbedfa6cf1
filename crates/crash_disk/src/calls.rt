//! The calls on a folder in memory.

ghost use Rattle.std.specs.Prelude.{◌≡◌, ◌↔◌, ℕ, ◌+◌, ◌≤◌, ◌^◌, [], length, Some, None, Err, IfOk, OnOk, OnErr, IsErr, IsTrue, cond, is_err};
ghost use Rattle.std.specs.Io.{ReadsAtMost};
ghost use Rattle.view_ports.specs.declared.folder.FolderFault.TheVariants.{Failed};
ghost use Rattle.view_ports.specs.Causes.{HasCauseIf, one_more};
ghost use Rattle.view_ports.specs.Disk.{IfTold, Tells};
ghost use Rattle.view_ports.specs.Faults.{CountsOnce, CountsOnly, HasCause};
ghost use Rattle.view_ports.specs.File.{emptied, grew, synced, wrote};
ghost use Rattle.view_ports.specs.FolderCalls.{Changes, IsListing, IsReadAt, Passes};
ghost use Rattle.crash_disk.specs.Moments.{disk_at};
ghost use Rattle.crash_disk.specs.State.{ChangedNothing, HasPassed, HasTaken, called, counted, counts, failed, is_failing, told, uncalled, was_read};
ghost use Rattle.crash_disk.specs.Law.{told_stays};

use crate::counters::Counters;
use crate::did::Did;
use crate::held_files::HeldFiles;
use crate::memory_folder::MemoryFolder;
use crate::moments::Moments;
use crate::noted::note;
use json_terms::NoMemory;
use std::alloc::Global;
use view_ports::{FileName, Folder, FolderFault, PortFault};

impl MemoryFolder {
    /// An empty folder. The calls whose numbers are in `fail` fail, change nothing and are counted as
    /// faults; all calls of `Folder` are counted together, from 0. Where `moments` is true the folder
    /// keeps what each call did, and tells its disk. A call other than `names` that finds no memory
    /// fails in the same way. A call that finds no memory to note it is no moment. A write that does not
    /// lie within its file, which only a folder that tells nothing can be asked for, fails too.
    pub fn new(alloc: Global, fail: Vec<u64>, moments: bool) -> Result<MemoryFolder, NoMemory>
        ensures told { IfOk result (λ folder. told folder ≡ cond moments
            (Some (disk_at (λ name. []))) None) }
        ensures counts { IfOk result (λ folder. counts folder ≡ uncalled fail.items) }
    {
        let moments = if moments {
            Some(Moments {
                start: HeldFiles::new(alloc),
                log: Vec::new(alloc),
            })
        } else {
            None
        };
        Ok(MemoryFolder {
            alloc,
            files: HeldFiles::new(alloc),
            moments,
            counters: Counters {
                fail,
                calls: 0,
                faults: 0,
                reads: 0,
            },
        })
    }
}

impl Folder for MemoryFolder {
    ghost disk = { told };

    ghost faults = { λ folder. (counts folder).faults };

    ghost reads = { λ folder. (counts folder).reads };

    fn len(&mut self, name: FileName) -> Result<u64, PortFault>
        ensures length { IfTold (told self.old) (λ d. IfOk result
            (λ count. count ≡ length (d.now name).seen)) }
        ensures disk { Tells (told self.old) (told self.new) Passes }
        ensures cause { HasCause (counts self.old).faults (counts self.new).faults result }
        ensures counted { CountsOnce (counts self.old).faults (counts self.new).faults result }
        ensures reads { (counts self.new).reads ≡ (counts self.old).reads }

        // It fails where its number is listed, and where no memory is left; then it is a fault.
        ensures listed { IsTrue (is_failing (counts self.old)) → IsErr result }
        ensures unkept { told self.old ≡ None → is_err result ≡ is_failing (counts self.old) }
        ensures ok { OnOk result (counts self.new ≡ called (counts self.old)) }
        ensures err { OnErr result (counts self.new ≡ failed (counts self.old)) }

        // It is one moment more, or none where it found no memory to be noted.
        ensures passed { OnOk result (HasPassed (told self.old) (told self.new)) }
        ensures same { OnErr result (ChangedNothing (told self.old) (told self.new)) }
    {
        self.pass()?;
        Ok(self.files.bytes(name).len() as u64)
    }

    fn read_at(&mut self, name: FileName, at: u64, into: &mut [u8]) -> Result<usize, PortFault>
        ensures bound { ReadsAtMost result into.new }
        ensures bytes { IfTold (told self.old) (λ d. IfOk result
            (λ count. IsReadAt (d.now name).seen at count into.new)) }
        ensures disk { Tells (told self.old) (told self.new) Passes }
        ensures cause { HasCause (counts self.old).faults (counts self.new).faults result }
        ensures counted { CountsOnce (counts self.old).faults (counts self.new).faults result }
        ensures reads { (counts self.new).reads ≡ one_more (counts self.old).reads }

        // It fails where its number is listed, and where no memory is left; then it is a fault.
        ensures listed { IsTrue (is_failing (counts self.old)) → IsErr result }
        ensures unkept { told self.old ≡ None → is_err result ≡ is_failing (counts self.old) }
        ensures ok { OnOk result (counts self.new ≡ called (was_read (counts self.old))) }
        ensures err { OnErr result (counts self.new ≡ failed (was_read (counts self.old))) }

        // It is one moment more, or none where it found no memory to be noted.
        ensures passed { OnOk result (HasPassed (told self.old) (told self.new)) }
        ensures same { OnErr result (ChangedNothing (told self.old) (told self.new)) }
    {
        self.counters.read();
        self.pass()?;
        let bytes = self.files.bytes(name);
        let start = bytes.len().min(at as usize);
        let left = &bytes[start..];
        let count = into.len().min(left.len());
        into[..count].copy_from_slice(&left[..count]);
        Ok(count)
    }

    fn write_at(&mut self, name: FileName, at: u64, from: &[u8]) -> Result<(), PortFault>
        requires { IfTold (told self.old) (λ d. at + length from.now ≤ length (d.now name).seen) }
        ensures disk { Tells (told self.old) (told self.new)
            (Changes name (wrote at from.now) result) }
        ensures cause { HasCause (counts self.old).faults (counts self.new).faults result }
        ensures counted { CountsOnce (counts self.old).faults (counts self.new).faults result }
        ensures reads { (counts self.new).reads ≡ (counts self.old).reads }

        // It fails where its number is listed, and where no memory is left; then it is a fault.
        ensures listed { IsTrue (is_failing (counts self.old)) → IsErr result }
        ensures ok { OnOk result (counts self.new ≡ called (counts self.old)) }

        // Its step is taken as a whole, or not at all.
        ensures taken { OnOk result (HasTaken (told self.old) (told self.new) name
            (wrote at from.now)) }
        ensures err { OnErr result (counts self.new ≡ failed (counts self.old)) }
        ensures same { OnErr result (ChangedNothing (told self.old) (told self.new)) }
    {
        if self.counters.begin() {
            return Err(self.fail());
        }
        match self.write(name, at, from) {
            Ok(()) => Ok(()),
            Err(_) => Err(self.fail()),
        }
    }

    fn grow(&mut self, name: FileName, by: u64) -> Result<(), PortFault>
        requires { IfTold (told self.old) (λ d. length (d.now name).seen + by ≤ 2 ^ 40) }
        ensures disk { Tells (told self.old) (told self.new) (Changes name (grew by) result) }
        ensures cause { HasCause (counts self.old).faults (counts self.new).faults result }
        ensures counted { CountsOnce (counts self.old).faults (counts self.new).faults result }
        ensures reads { (counts self.new).reads ≡ (counts self.old).reads }

        // It fails where its number is listed, and where no memory is left; then it is a fault.
        ensures listed { IsTrue (is_failing (counts self.old)) → IsErr result }
        ensures ok { OnOk result (counts self.new ≡ called (counts self.old)) }

        // Its step is taken as a whole, or not at all.
        ensures taken { OnOk result (HasTaken (told self.old) (told self.new) name (grew by)) }
        ensures err { OnErr result (counts self.new ≡ failed (counts self.old)) }
        ensures same { OnErr result (ChangedNothing (told self.old) (told self.new)) }
    {
        if self.counters.begin() {
            return Err(self.fail());
        }
        match self.extend(name, by) {
            Ok(()) => Ok(()),
            Err(_) => Err(self.fail()),
        }
    }

    fn cut_to_zero(&mut self, name: FileName) -> Result<(), PortFault>
        ensures disk { Tells (told self.old) (told self.new) (Changes name emptied result) }
        ensures cause { HasCause (counts self.old).faults (counts self.new).faults result }
        ensures counted { CountsOnce (counts self.old).faults (counts self.new).faults result }
        ensures reads { (counts self.new).reads ≡ (counts self.old).reads }

        // It fails where its number is listed, and where no memory is left; then it is a fault.
        ensures listed { IsTrue (is_failing (counts self.old)) → IsErr result }
        ensures unkept { told self.old ≡ None → is_err result ≡ is_failing (counts self.old) }
        ensures ok { OnOk result (counts self.new ≡ called (counts self.old)) }

        // Its step is taken as a whole, or not at all.
        ensures taken { OnOk result (HasTaken (told self.old) (told self.new) name emptied) }
        ensures err { OnErr result (counts self.new ≡ failed (counts self.old)) }
        ensures same { OnErr result (ChangedNothing (told self.old) (told self.new)) }
    {
        if self.counters.begin() {
            return Err(self.fail());
        }
        match self.clear(name) {
            Ok(()) => Ok(()),
            Err(_) => Err(self.fail()),
        }
    }

    fn sync(&mut self, name: FileName) -> Result<(), PortFault>
        ensures disk { Tells (told self.old) (told self.new) (Changes name synced result) }
        ensures cause { HasCause (counts self.old).faults (counts self.new).faults result }
        ensures counted { CountsOnce (counts self.old).faults (counts self.new).faults result }
        ensures reads { (counts self.new).reads ≡ (counts self.old).reads }

        // It fails where its number is listed, and where no memory is left; then it is a fault.
        ensures listed { IsTrue (is_failing (counts self.old)) → IsErr result }
        ensures unkept { told self.old ≡ None → is_err result ≡ is_failing (counts self.old) }
        ensures ok { OnOk result (counts self.new ≡ called (counts self.old)) }

        // Its step is taken as a whole, or not at all.
        ensures taken { OnOk result (HasTaken (told self.old) (told self.new) name synced) }
        ensures err { OnErr result (counts self.new ≡ failed (counts self.old)) }
        ensures same { OnErr result (ChangedNothing (told self.old) (told self.new)) }
    {
        if self.counters.begin() {
            return Err(self.fail());
        }
        match self.settle(name) {
            Ok(()) => Ok(()),
            Err(_) => Err(self.fail()),
        }
    }

    fn names(&mut self, alloc: Global) -> Result<Vec<FileName>, FolderFault>
        ensures names { IfTold (told self.old) (λ d. IfOk result
            (λ names. IsListing d.now names.items)) }
        ensures disk { Tells (told self.old) (told self.new) Passes }
        ensures cause { HasCauseIf (λ error. error ≡ Failed) (counts self.old).faults
            (counts self.new).faults result }
        ensures counted { CountsOnly Failed (counts self.old).faults (counts self.new).faults result }
        ensures reads { (counts self.new).reads ≡ (counts self.old).reads }

        // It fails exactly where its number is listed; want of memory is no fault.
        ensures listed { IsTrue (is_failing (counts self.old)) ↔ (result ≡ Err Failed) }
        ensures counts { counts self.new ≡ counted (counts self.old) }

        // It is one moment more, or none where it found no memory to be noted.
        ensures passed { OnOk result (HasPassed (told self.old) (told self.new)) }
        ensures same { OnErr result (ChangedNothing (told self.old) (told self.new)) }
    {
        if self.counters.begin() {
            let _ = self.fail();
            return Err(FolderFault::Failed);
        }
        if note(&mut self.moments, Did::Passed).is_err() {
            return Err(FolderFault::NoMemory);
        }
        match self.files.names(alloc) {
            Ok(names) => Ok(names),
            Err(_) => Err(FolderFault::NoMemory),
        }
    }

    ghost seen_may_stay = { told_stays };
}
