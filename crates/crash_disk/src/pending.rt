//! One file with what is pending on it.

ghost use Rattle.std.specs.Prelude.{◌≡◌, ℕ, ◌+◌, ◌≤◌, length, IfOk, OnOk};
ghost use Rattle.view_ports.specs.File.{emptied, grew, settled, synced, wrote};
ghost use Rattle.crash_disk.specs.Moments.{FitsIn, stepped};
ghost use Rattle.crash_disk.specs.Pending.{file_of};

use crate::did::Change;
use crate::patch::{add_zeros, write_over};
use json_terms::NoMemory;
use std::alloc::Global;

/// What a file is between two calls. Ranges are pairs of the first place and the number of places.
#[derive(Drop)]
pub struct Pending {
    /// What a read gives.
    pub seen: Vec<u8>,
    /// What the last sync made sure of.
    pub durable: Vec<u8>,
    // Since that sync, the newest first: what was written, what was added, and each length.
    pub written: Vec<(u64, u64)>,
    pub added: Vec<(u64, u64)>,
    pub lengths: Vec<u64>,
}

impl Pending {
    /// A file with these bytes, and nothing pending.
    pub fn settled(alloc: Global, bytes: &[u8]) -> Result<Pending, NoMemory>
        ensures { IfOk result (λ pending. file_of pending ≡ settled bytes.now) }
    {
        let mut lengths = Vec::new(alloc);
        lengths.push(bytes.len() as u64)?;
        Ok(Pending {
            seen: bytes.to_vec(alloc)?,
            durable: bytes.to_vec(alloc)?,
            written: Vec::new(alloc),
            added: Vec::new(alloc),
            lengths,
        })
    }

    /// Makes the change, unless memory runs out.
    pub fn apply(&mut self, alloc: Global, change: &Change) -> Result<(), NoMemory>
        requires { FitsIn change.now (file_of self.old) }
        ensures { OnOk result (file_of self.new ≡ stepped change.now (file_of self.old)) }
    {
        match change {
            Change::Wrote(at, bytes) => self.write(*at, bytes),
            Change::Grew(by) => self.grow(*by),
            Change::Emptied => self.empty(),
            Change::Synced => self.sync(alloc),
        }
    }

    fn write(&mut self, at: u64, bytes: &[u8]) -> Result<(), NoMemory>
        requires { at + length bytes.now ≤ length self.old.seen.items }
        ensures { OnOk result (file_of self.new ≡ wrote at bytes.now (file_of self.old)) }
    {
        write_over(&mut self.seen, at as usize, bytes);
        self.written.insert(0, (at, bytes.len() as u64))?;
        Ok(())
    }

    fn grow(&mut self, by: u64) -> Result<(), NoMemory>
        ensures { OnOk result (file_of self.new ≡ grew by (file_of self.old)) }
    {
        let long = self.seen.len() as u64;
        add_zeros(&mut self.seen, by as usize)?;
        self.added.insert(0, (long, by))?;
        self.lengths.insert(0, self.seen.len() as u64)?;
        Ok(())
    }

    fn empty(&mut self) -> Result<(), NoMemory>
        ensures { OnOk result (file_of self.new ≡ emptied (file_of self.old)) }
    {
        self.seen.clear();
        self.lengths.insert(0, 0)?;
        Ok(())
    }

    fn sync(&mut self, alloc: Global) -> Result<(), NoMemory>
        ensures { OnOk result (file_of self.new ≡ synced (file_of self.old)) }
    {
        self.durable = self.seen.as_slice().to_vec(alloc)?;
        self.written.clear();
        self.added.clear();
        self.lengths.clear();
        self.lengths.push(self.seen.len() as u64)?;
        Ok(())
    }
}
