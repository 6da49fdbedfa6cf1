//! Files in memory, found by their names.

ghost use Rattle.crash_disk.specs.Held.{AreApart, AreApart-prop};

use crate::held_file::HeldFile;
use crate::patch::{add_zeros, write_over};
use json_terms::NoMemory;
use std::alloc::Global;
use view_ports::FileName;

/// Files, of which no two have the same name. A file that isn't there has no bytes.
#[derive(Drop)]
pub struct HeldFiles {
    pub(crate) files: Vec<HeldFile>,
    ghost apart: { AreApart files.items } by { AreApart-prop files.items },
}

impl HeldFiles {
    ghost use Rattle.std.specs.Prelude.{◌≡◌, ℕ, ◌+◌, ◌-◌, ◌≤◌, ◌++◌, [], cond, length, take, replicate, MatchOption, OnOk, OnErr, IfOk};
    ghost use Rattle.view_ports.specs.declared.file_name.FileName.{FileName};
    ghost use Rattle.view_ports.specs.File.{splice};
    ghost use Rattle.crash_disk.specs.Names.{is_same};
    ghost use Rattle.crash_disk.specs.Held.{IsAbsent, IsIndexOf, names_of};
    ghost use Rattle.crash_disk.specs.HeldFiles.{bytes_in};

    /// No files.
    pub fn new(alloc: Global) -> HeldFiles
        ensures { (name : FileName) → bytes_in result name ≡ [] }
    {
        HeldFiles {
            files: Vec::new(alloc),
        }
    }

    // The place of the file in the list.
    fn place(&self, name: FileName) -> Option<usize>
        ensures { MatchOption result (IsAbsent name self.now.files.items)
            (λ at. IsIndexOf name self.now.files.items at) }
    {
        for (at, file) in self.files.iter().enumerate() {
            if file.name == name {
                return Some(at);
            }
        }
        None
    }

    /// The bytes of the file.
    pub fn bytes(&self, name: FileName) -> &[u8]
        ensures { result.now ≡ bytes_in self.now name }
    {
        match self.place(name) {
            Some(at) => &self.files[at].bytes,
            None => &[],
        }
    }

    /// Writes the bytes of `from` over those from the place `at` on.
    pub fn overwrite(&mut self, name: FileName, at: usize, from: &[u8])
        requires { at + length from.now ≤ length (bytes_in self.old name) }
        ensures { (n : FileName) → bytes_in self.new n ≡ cond (is_same name n)
            (splice (bytes_in self.old n) at from.now) (bytes_in self.old n) }
    {
        if let Some(place) = self.place(name) {
            let file = &mut self.files[place];
            write_over(&mut file.bytes, at, from);
        }
    }

    /// Takes all bytes of the file away.
    pub fn clear(&mut self, name: FileName)
        ensures { (n : FileName) → bytes_in self.new n ≡ cond (is_same name n) []
            (bytes_in self.old n) }
    {
        if let Some(place) = self.place(name) {
            let file = &mut self.files[place];
            file.bytes.clear();
        }
    }

    /// Adds so many zero bytes at the end of the file, or changes nothing.
    pub fn extend(&mut self, alloc: Global, name: FileName, by: usize) -> Result<(), NoMemory>
        ensures ok { OnOk result ((n : FileName) → bytes_in self.new n ≡ cond (is_same name n)
            (bytes_in self.old n ++ replicate by 0) (bytes_in self.old n)) }
        ensures err { OnErr result ((n : FileName) → bytes_in self.new n ≡ bytes_in self.old n) }
    {
        let place = self.place_or_new(alloc, name)?;
        let file = &mut self.files[place];
        add_zeros(&mut file.bytes, by)
    }

    // The place of the file in the list, where it is put if it isn't there.
    fn place_or_new(&mut self, alloc: Global, name: FileName) -> Result<usize, NoMemory>
        ensures same { (n : FileName) → bytes_in self.new n ≡ bytes_in self.old n }
        ensures ok { IfOk result (λ at. IsIndexOf name self.new.files.items at) }
    {
        if let Some(place) = self.place(name) {
            return Ok(place);
        }
        self.files.push(HeldFile {
            name,
            bytes: Vec::new(alloc),
        })?;
        Ok(self.files.len() - 1)
    }

    /// Takes the last bytes of the file away.
    pub fn cut_back(&mut self, name: FileName, by: usize)
        ensures { (n : FileName) → bytes_in self.new n ≡ cond (is_same name n)
            (take (length (bytes_in self.old n) - by) (bytes_in self.old n)) (bytes_in self.old n) }
    {
        if let Some(place) = self.place(name) {
            let file = &mut self.files[place];
            let long = file.bytes.len().saturating_sub(by);
            file.bytes.truncate(long);
        }
    }

    /// The names of the files that have bytes.
    pub fn names(&self, alloc: Global) -> Result<Vec<FileName>, NoMemory>
        ensures { IfOk result (λ names. names.items ≡ names_of self.now.files.items) }
    {
        let names = self
            .files
            .iter()
            .filter(|file| !file.bytes.is_empty())
            .map(|file| file.name)
            .collect(alloc)?;
        Ok(names)
    }
}
