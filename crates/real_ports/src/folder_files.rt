//! The files of the folder in which the program was started.

ghost use Rattle.std.specs.Io.{ReadsAtMost};

use crate::diagnostics::Diagnostics;
use crate::file_fault::FileFault;
use crate::file_names::read_file_name;
use crate::folder_lock::lock_folder;
use crate::known_file::KnownFile;
use crate::open_file::OpenFile;
use std::alloc::Global;
use std::fs::{self, DirEntry, File};
use std::io::{self, ErrorKind};
use view_ports::FileName;

/// How many files are open at most, beside the folder.
const OPEN_LIMIT: usize = 64;

/// The files of the folder in which the program was started. The folder is locked at the first call, and a file that was used
/// stays open until another one is to be opened and too many are.
#[derive(Drop)]
pub struct FolderFiles {
    rt: HostRuntime,
    diagnostics: Diagnostics,
    // The folder, with the lock on it. None before the first call.
    folder: Option<File>,
    // The files that were opened or made. The one that was used last stands last.
    known: Vec<KnownFile>,
    // A sync failed. What the disk has is unknown from then on, also where a later sync succeeds.
    is_lost: bool,
}

impl FolderFiles {
    /// The files, of which none is open.
    pub fn new(rt: HostRuntime, diagnostics: Diagnostics) -> FolderFiles {
        FolderFiles {
            rt,
            diagnostics,
            folder: None,
            known: Vec::new(rt.alloc()),
            is_lost: false,
        }
    }

    /// The length of the file in bytes, which is 0 where it isn't there.
    pub fn len(&mut self, name: FileName) -> Result<u64, FileFault> {
        match self.find(name)? {
            Some(file) => file.len(),
            None => Ok(0),
        }
    }

    /// Reads the bytes from the place `at` on into the front of `into`, and answers how many.
    pub fn read_at(&mut self, name: FileName, at: u64, into: &mut [u8]) -> Result<usize, FileFault>
        ensures { ReadsAtMost result into.new }
    {
        match self.find(name)? {
            Some(file) => file.read_at(at, into),
            None => Ok(0),
        }
    }

    /// Writes the bytes of `from` over those from the place `at` on. It fails where the file doesn't have these places.
    pub fn write_at(&mut self, name: FileName, at: u64, from: &[u8]) -> Result<(), FileFault> {
        match self.find(name)? {
            Some(file) => file.write_at(at, from),
            None if from.is_empty() && at == 0 => Ok(()),
            None => Err(FileFault::PastEnd),
        }
    }

    /// Adds so many zero bytes at the end of the file, which is made if it isn't there.
    pub fn grow(&mut self, name: FileName, by: u64) -> Result<(), FileFault> {
        match self.find(name)? {
            Some(file) => file.grow(by),
            None => self.make(name, by),
        }
    }

    /// Takes all bytes of the file away.
    pub fn cut_to_zero(&mut self, name: FileName) -> Result<(), FileFault> {
        match self.find(name)? {
            Some(file) => file.cut_to_zero(),
            None => Ok(()),
        }
    }

    /// Makes sure of the file as it is, also where it isn't there. Where the system fails to, every later call fails.
    pub fn sync(&mut self, name: FileName) -> Result<(), FileFault> {
        let is_there = self.find(name)?.is_some();
        let synced = self.sync_found(is_there);
        self.is_lost = synced.is_err();
        synced
    }

    // Makes sure of the file that was found, or of the folder where it isn't there.
    fn sync_found(&mut self, is_there: bool) -> Result<(), FileFault> {
        let Some(folder) = &self.folder else {
            return Err(FileFault::Lost);
        };
        match self.known.last_mut() {
            Some(file) if is_there => file.sync(&self.rt, folder),
            _ => Ok(folder.sync_all()?),
        }
    }

    /// The names of the files that have bytes, each once.
    pub fn names(&mut self, alloc: Global) -> Result<Vec<FileName>, FileFault> {
        self.check()?;
        let mut names = Vec::new(alloc);
        for entry in fs::read_dir(&self.rt, ".")? {
            if let Some(name) = listed_name(entry)?
                && !names.contains(&name)
            {
                names.push(name).map_err(|_| FileFault::NoMemory)?;
            }
        }
        Ok(names)
    }

    // The file, which is opened if it isn't open. `None` where it isn't there.
    fn find(&mut self, name: FileName) -> Result<Option<&mut OpenFile>, FileFault> {
        let is_there = self.bring(name)?;
        match self.known.last_mut() {
            Some(file) if is_there => Ok(Some(file.opened(&self.rt)?)),
            _ => Ok(None),
        }
    }

    // Puts the file behind the other known ones, with room to open it if it is closed. `false` where it isn't there.
    fn bring(&mut self, name: FileName) -> Result<bool, FileFault> {
        self.check()?;
        let Some(at) = self.known.iter().rposition(|file| file.has_name(name)) else {
            return self.open_new(name);
        };
        self.known[at..].rotate_left(1);
        if self.known.last().is_some_and(|file| !file.is_open()) {
            self.make_room()?;
        }
        Ok(true)
    }

    // Opens a file that isn't known.
    fn open_new(&mut self, name: FileName) -> Result<bool, FileFault> {
        self.make_room()?;
        match OpenFile::open(&self.rt, name)? {
            Some(file) => self.add(name, file).map(|_| true),
            None => Ok(false),
        }
    }

    fn add(&mut self, name: FileName, file: OpenFile) -> Result<(), FileFault> {
        let known = KnownFile::new(name, file);
        self.known.push(known).map_err(|_| FileFault::NoMemory)
    }

    // Closes the file that was not used for the longest time, where no more may be open. Where it can't be synced before,
    // every later call fails.
    fn make_room(&mut self) -> Result<(), FileFault> {
        let open = self.known.iter().filter(|file| file.is_open()).count();
        if open < OPEN_LIMIT {
            return Ok(());
        }
        match self.known.iter_mut().find(|file| file.is_open()) {
            Some(file) => {
                let closed = file.close();
                self.is_lost = closed.is_err();
                closed
            }
            None => Ok(()),
        }
    }

    // Makes the file, of so many zero bytes.
    fn make(&mut self, name: FileName, length: u64) -> Result<(), FileFault> {
        let mut file = OpenFile::make(&self.rt, name)?;
        let grown = file.grow(length);
        self.add(name, file)?;
        grown
    }

    // Locks the folder, if it isn't locked yet.
    fn check(&mut self) -> Result<(), FileFault> {
        if self.is_lost {
            return Err(FileFault::Lost);
        }
        if self.folder.is_none() {
            self.folder = Some(lock_folder(&self.rt, self.diagnostics)?);
        }
        Ok(())
    }
}

// The name of an entry, where it is a plain file of this program and has bytes.
fn listed_name(entry: io::Result<DirEntry>) -> io::Result<Option<FileName>> {
    let entry = match entry {
        Ok(entry) => entry,
        // Its name is no text.
        Err(error) if error.kind() == ErrorKind::InvalidFilename => return Ok(None),
        Err(error) => return Err(error),
    };
    let Some(name) = read_file_name(entry.file_name().as_bytes()) else {
        return Ok(None);
    };
    let found = entry.metadata()?;
    Ok((found.is_file() && found.len() > 0).then_some(name))
}
