//! The folder in which the program was started.

use crate::diagnostics::Diagnostics;
use crate::file_fault::FileFault;
use crate::file_names::{FILE_TEXT_LIMIT, file_text};
use crate::folder_files::FolderFiles;
use std::alloc::Global;
use std::str;
use view_ports::{FileName, Folder, FolderFault, PortFault};

/// The folder in which the program was started. It tells nothing of what its files hold.
///
/// The first call takes the system's exclusive lock on the folder, which lasts as long as this value or the program: so of
/// two programs in one folder the second one's calls fail. Nobody else may change the files meanwhile.
///
/// Each call that fails counts one fault, and says on standard error of which file and why. A call fails where the system
/// fails, another program has the folder, a file finds no memory to be opened, no file may have the name, or what has it is
/// no plain file, one with another name too or one of no database; a `write_at` also past the end of the file. At most 64
/// files are open, and one that is closed for another is synced before. Once a `sync` or such a closing has failed every later
/// call fails, since nothing is known of the disk from then on.
#[derive(Drop)]
pub struct RealFolder {
    files: FolderFiles,
    diagnostics: Diagnostics,
    faults: u64,
    reads: u64,
}

impl RealFolder {
    ghost use Rattle.std.specs.Prelude.{◌≡◌, IfOk};
    ghost use Rattle.view_ports.specs.Faults.{CountsOnce, HasCause};

    /// The folder, of which no file is open yet.
    pub fn new(rt: HostRuntime, diagnostics: Diagnostics) -> RealFolder
        ensures faults { result.faults ≡ 0 }
        ensures reads { result.reads ≡ 0 }
    {
        RealFolder {
            files: FolderFiles::new(rt, diagnostics),
            diagnostics,
            faults: 0,
            reads: 0,
        }
    }

    // What a call on a file, or on the folder itself, gave. Where it failed one more fault is counted, and it is said what
    // could not be done.
    fn counted<T>(
        &mut self,
        name: Option<FileName>,
        task: &'static str,
        given: Result<T, FileFault>,
    ) -> Result<T, PortFault>
        ensures value { IfOk result (λ value. given ≡ Ok value) }
        ensures cause { HasCause self.old.faults self.new.faults result }
        ensures counted { CountsOnce self.old.faults self.new.faults result }
        ensures reads { self.new.reads ≡ self.old.reads }
    {
        match given {
            Ok(value) => Ok(value),
            Err(fault) => {
                let mut room = [0; FILE_TEXT_LIMIT];
                let file = name.filter(|_| !matches!(fault, FileFault::InUse));
                let what = shown(file, &mut room);
                let undone = fault.undone(task);
                self.diagnostics
                    .say(format_args!("{what} can't be {undone}: {fault}"));
                self.faults = self.faults.saturating_add(1);
                Err(PortFault)
            }
        }
    }
}

// How a file, or the folder itself, is named in what is said of it.
fn shown(name: Option<FileName>, room: &mut [u8; FILE_TEXT_LIMIT]) -> &str {
    match name {
        Some(name) => str::from_utf8(file_text(&name, room)).unwrap_or("a file"),
        None => "the folder",
    }
}

impl Folder for RealFolder {
    ghost use Rattle.std.specs.Prelude.{None};

    ghost disk = { λ _. None };

    ghost faults = { λ folder. folder.faults };

    ghost reads = { λ folder. folder.reads };

    fn len(&mut self, name: FileName) -> Result<u64, PortFault> {
        let length = self.files.len(name);
        self.counted(Some(name), "measured", length)
    }

    fn read_at(&mut self, name: FileName, at: u64, into: &mut [u8]) -> Result<usize, PortFault> {
        self.reads = self.reads.saturating_add(1);
        let count = self.files.read_at(name, at, into);
        self.counted(Some(name), "read", count)
    }

    fn write_at(&mut self, name: FileName, at: u64, from: &[u8]) -> Result<(), PortFault> {
        let written = self.files.write_at(name, at, from);
        self.counted(Some(name), "written", written)
    }

    fn grow(&mut self, name: FileName, by: u64) -> Result<(), PortFault> {
        let grown = self.files.grow(name, by);
        self.counted(Some(name), "made longer", grown)
    }

    fn cut_to_zero(&mut self, name: FileName) -> Result<(), PortFault> {
        let cut = self.files.cut_to_zero(name);
        self.counted(Some(name), "emptied", cut)
    }

    fn sync(&mut self, name: FileName) -> Result<(), PortFault> {
        let synced = self.files.sync(name);
        self.counted(Some(name), "synced", synced)
    }

    fn names(&mut self, alloc: Global) -> Result<Vec<FileName>, FolderFault> {
        match self.files.names(alloc) {
            Err(FileFault::NoMemory) => Err(FolderFault::NoMemory),
            names => self
                .counted(None, "listed", names)
                .map_err(|_| FolderFault::Failed),
        }
    }

    ghost seen_may_stay = { λ folder. tt };
}
