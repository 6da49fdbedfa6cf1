//! Calls on a folder in memory that note what they do, and take all of their step or none of it.

ghost use Rattle.std.specs.Prelude.{◌≡◌, ℕ, ◌+◌, ◌-◌, ◌≤◌, length, OnOk, OnErr, IsTrue, IsErr, IsOk, None, is_err, option_map};
ghost use Rattle.view_ports.specs.Disk.{IfTold, Tells};
ghost use Rattle.view_ports.specs.File.{emptied, grew, synced, wrote};
ghost use Rattle.view_ports.specs.FolderCalls.{Passes};
ghost use Rattle.view_ports.specs.Faults.{HasCause, next_count};
ghost use Rattle.crash_disk.specs.Told.{disk_of};
ghost use Rattle.crash_disk.specs.State.{ChangedNothing, HasPassed, HasTaken, called, counts, failed, is_failing, told};
ghost use Rattle.crash_disk.specs.Moments.{Fits, noted};

use crate::did::{Change, Did};
use crate::memory_folder::MemoryFolder;
use crate::moments::Moments;
use json_terms::NoMemory;
use std::alloc::Global;
use view_ports::{FileName, PortFault};

/// Notes what a call did, where moments are kept.
pub fn note(moments: &mut Option<Moments>, did: Did) -> Result<(), NoMemory>
    requires { IfTold (disk_of moments.old) (λ disk. Fits did disk.now) }
    ensures ok { OnOk result (disk_of moments.new ≡ option_map (noted did) (disk_of moments.old)) }
    ensures unkept { disk_of moments.old ≡ None → IsOk result }
    ensures err { OnErr result (disk_of moments.new ≡ disk_of moments.old) }
{
    if let Some(moments) = moments {
        moments.log.push(did)?;
    }
    Ok(())
}

// Notes a write, with a copy of what is written where moments are kept.
fn note_write(
    moments: &mut Option<Moments>,
    alloc: Global,
    name: FileName,
    at: u64,
    from: &[u8],
) -> Result<(), NoMemory>
    requires { IfTold (disk_of moments.old) (λ disk. at + length from.now ≤ length
        (disk.now name).seen) }
    ensures ok { OnOk result (HasTaken (disk_of moments.old) (disk_of moments.new) name
        (wrote at from.now)) }
    ensures err { OnErr result (disk_of moments.new ≡ disk_of moments.old) }
{
    if moments.is_none() {
        return Ok(());
    }
    let bytes = from.to_vec(alloc)?;
    note(moments, Did::Changed(name, Change::Wrote(at, bytes)))
}

impl MemoryFolder {
    /// Counts a call that looks at the folder, and notes it.
    pub(crate) fn pass(&mut self) -> Result<(), PortFault>
        ensures ok_disk { OnOk result (HasPassed (told self.old) (told self.new)) }
        ensures err_disk { OnErr result (ChangedNothing (told self.old) (told self.new)) }
        ensures disk { Tells (told self.old) (told self.new) Passes }
        ensures files { self.new.files ≡ self.old.files }
        ensures listed { IsTrue (is_failing (counts self.old)) → IsErr result }
        ensures unkept { told self.old ≡ None → is_err result ≡ is_failing (counts self.old) }
        ensures ok { OnOk result (counts self.new ≡ called (counts self.old)) }
        ensures err { OnErr result (counts self.new ≡ failed (counts self.old)) }
        ensures cause { HasCause (counts self.old).faults (counts self.new).faults result }
    {
        if self.counters.begin() {
            return Err(self.fail());
        }
        match note(&mut self.moments, Did::Passed) {
            Ok(()) => Ok(()),
            Err(_) => Err(self.fail()),
        }
    }

    /// Notes a call that changes nothing as a fault.
    pub(crate) fn fail(&mut self) -> PortFault
        ensures nothing { ChangedNothing (told self.old) (told self.new) }
        ensures disk { Tells (told self.old) (told self.new) Passes }
        ensures files { self.new.files ≡ self.old.files }
        ensures counts { self.new.counters ≡ record self.old.counters { faults = next_count self.old.counters.faults } }
        ensures later { self.old.counters.faults ≤ self.new.counters.faults }
    {
        // Where no memory is left the call is no moment of its own.
        let _ = note(&mut self.moments, Did::Passed);
        self.counters.fault()
    }

    /// Writes, where the bytes lie within the file.
    pub(crate) fn write(&mut self, name: FileName, at: u64, from: &[u8]) -> Result<(), NoMemory>
        requires { IfTold (told self.old) (λ disk. at + length from.now ≤ length
            (disk.now name).seen) }
        ensures ok { OnOk result (HasTaken (told self.old) (told self.new) name
            (wrote at from.now)) }
        ensures err { OnErr result (told self.new ≡ told self.old) }
        ensures counts { self.new.counters ≡ self.old.counters }
    {
        let long = self.files.bytes(name).len();
        let start = at as usize;
        // Only a folder that tells nothing can be asked for this.
        if start > long || from.len() > long - start {
            return Err(NoMemory);
        }
        note_write(&mut self.moments, self.alloc, name, at, from)?;
        self.files.overwrite(name, start, from);
        Ok(())
    }

    /// Adds zero bytes.
    pub(crate) fn extend(&mut self, name: FileName, by: u64) -> Result<(), NoMemory>
        ensures ok { OnOk result (HasTaken (told self.old) (told self.new) name (grew by)) }
        ensures err { OnErr result (told self.new ≡ told self.old) }
        ensures counts { self.new.counters ≡ self.old.counters }
    {
        self.files.extend(self.alloc, name, by as usize)?;
        if note(&mut self.moments, Did::Changed(name, Change::Grew(by))).is_err() {
            self.files.cut_back(name, by as usize);
            return Err(NoMemory);
        }
        Ok(())
    }

    /// Takes all bytes away.
    pub(crate) fn clear(&mut self, name: FileName) -> Result<(), NoMemory>
        ensures ok { OnOk result (HasTaken (told self.old) (told self.new) name emptied) }
        ensures unkept { told self.old ≡ None → IsOk result }
        ensures err { OnErr result (told self.new ≡ told self.old) }
        ensures counts { self.new.counters ≡ self.old.counters }
    {
        note(&mut self.moments, Did::Changed(name, Change::Emptied))?;
        self.files.clear(name);
        Ok(())
    }

    /// Makes sure of what the file is.
    pub(crate) fn settle(&mut self, name: FileName) -> Result<(), NoMemory>
        ensures ok { OnOk result (HasTaken (told self.old) (told self.new) name synced) }
        ensures unkept { told self.old ≡ None → IsOk result }
        ensures err { OnErr result (told self.new ≡ told self.old) }
        ensures counts { self.new.counters ≡ self.old.counters }
    {
        note(&mut self.moments, Did::Changed(name, Change::Synced))
    }
}
