//! A file that was opened or made in this run, open or closed.

use crate::file_fault::FileFault;
use crate::open_file::OpenFile;
use std::fs::File;
use view_ports::FileName;

/// A file that was opened or made in this run. It may have been closed since.
#[derive(Drop)]
pub struct KnownFile {
    name: FileName,
    open: Option<OpenFile>,
    // The folder was synced since the file was first opened or made.
    is_listed: bool,
}

impl KnownFile {
    /// The file, which was just opened or made for the first time.
    pub fn new(name: FileName, file: OpenFile) -> KnownFile {
        KnownFile {
            name,
            open: Some(file),
            is_listed: false,
        }
    }

    /// Whether this is the file of the name.
    pub fn has_name(&self, name: FileName) -> bool {
        self.name == name
    }

    /// Whether the file is open.
    pub fn is_open(&self) -> bool {
        self.open.is_some()
    }

    /// The file, which is opened again if it was closed. It fails where it can't be, also where it is there no more.
    pub fn opened(&mut self, rt: &HostRuntime) -> Result<&mut OpenFile, FileFault> {
        let file = match self.open.take() {
            Some(file) => file,
            None => OpenFile::open_again(rt, self.name)?,
        };
        Ok(self.open.insert(file))
    }

    /// Makes sure of the file, and at the first time of its entry in the folder too, since the program that made it may have
    /// been stopped before it did.
    pub fn sync(&mut self, rt: &HostRuntime, folder: &File) -> Result<(), FileFault> {
        self.opened(rt)?.sync()?;
        if !self.is_listed {
            folder.sync_all()?;
            self.is_listed = true;
        }
        Ok(())
    }

    /// Closes the file, once all that was written to it is synced. Where that fails it stays open.
    pub fn close(&mut self) -> Result<(), FileFault> {
        if let Some(file) = &mut self.open {
            file.prepare_to_close()?;
        }
        self.open = None;
        Ok(())
    }
}
