//! Files with what is pending on them, found by their names.

ghost use Rattle.crash_disk.specs.PendingList.{ArePendingApart, ArePendingApart-prop};

use crate::did::{Change, Did};
use crate::held_files::HeldFiles;
use crate::pending::Pending;
use crate::pending_file::PendingFile;
use crate::pending_lists::{image_list, settled_list};
use json_terms::NoMemory;
use std::alloc::Global;
use view_ports::FileName;

/// Files, of which no two have the same name. A file that isn't there has no bytes, and nothing is
/// pending on it.
#[derive(Drop)]
pub struct PendingFiles {
    files: Vec<PendingFile>,
    ghost apart: { ArePendingApart files.items } by { ArePendingApart-prop files.items },
}

impl PendingFiles {
    ghost use Rattle.std.specs.Prelude.{◌≡◌, ℕ, cond, MatchOption, OnOk, IfOk};
    ghost use Rattle.view_ports.specs.declared.file_name.FileName.{FileName};
    ghost use Rattle.view_ports.specs.File.{settled};
    ghost use Rattle.crash_disk.specs.Names.{is_same};
    ghost use Rattle.crash_disk.specs.HeldFiles.{bytes_in};
    ghost use Rattle.crash_disk.specs.Moments.{Fits, FitsIn, after, stepped};
    ghost use Rattle.crash_disk.specs.Chosen.{IsChosen, IsSound};
    ghost use Rattle.crash_disk.specs.PendingList.{IsPendingAbsent, IsPendingIndex};
    ghost use Rattle.crash_disk.specs.PendingFiles.{file_in};

    /// The files as they are held, with nothing pending.
    pub fn settled(alloc: Global, held: &HeldFiles) -> Result<PendingFiles, NoMemory>
        ensures { IfOk result (λ pending. (name : FileName)
            → file_in pending name ≡ settled (bytes_in held.now name)) }
    {
        Ok(PendingFiles {
            files: settled_list(alloc, &held.files)?,
        })
    }

    // The place of the file in the list.
    fn place(&self, name: FileName) -> Option<usize>
        ensures { MatchOption result (IsPendingAbsent name self.now.files.items)
            (λ at. IsPendingIndex name self.now.files.items at) }
    {
        for (at, file) in self.files.iter().enumerate() {
            if file.name == name {
                return Some(at);
            }
        }
        None
    }

    // The place of the file in the list, where it is put if it isn't there.
    fn place_or_new(&mut self, alloc: Global, name: FileName) -> Result<usize, NoMemory>
        ensures same { (n : FileName) → file_in self.new n ≡ file_in self.old n }
        ensures ok { IfOk result (λ at. IsPendingIndex name self.new.files.items at) }
    {
        if let Some(place) = self.place(name) {
            return Ok(place);
        }
        self.files.push(PendingFile {
            name,
            pending: Pending::settled(alloc, &[])?,
        })?;
        Ok(self.files.len() - 1)
    }

    // Makes the change, unless memory runs out.
    fn change(&mut self, alloc: Global, name: FileName, change: &Change) -> Result<(), NoMemory>
        requires { FitsIn change.now (file_in self.old name) }
        ensures { OnOk result ((n : FileName) → file_in self.new n ≡ cond (is_same name n)
            (stepped change.now (file_in self.old n)) (file_in self.old n)) }
    {
        let place = self.place_or_new(alloc, name)?;
        let file = &mut self.files[place];
        file.pending.apply(alloc, change)
    }

    /// Does what the call did, unless memory runs out.
    pub fn apply(&mut self, alloc: Global, did: &Did) -> Result<(), NoMemory>
        requires { Fits did.now (file_in self.old) }
        ensures { OnOk result ((n : FileName) → file_in self.new n ≡ after did.now
            (file_in self.old) n) }
    {
        match did {
            Did::Passed => Ok(()),
            Did::Changed(name, change) => self.change(alloc, *name, change),
        }
    }

    /// An image of all files.
    pub fn images(&self, alloc: Global, choice: u64) -> Result<HeldFiles, NoMemory>
        requires { (name : FileName) → IsSound (file_in self.now name) }
        ensures { IfOk result (λ held. (name : FileName)
            → IsChosen choice (file_in self.now name) (bytes_in held name)) }
    {
        Ok(HeldFiles {
            files: image_list(alloc, &self.files, choice)?,
        })
    }
}
