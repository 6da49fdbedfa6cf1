//! One open file of the folder.

ghost use Rattle.std.specs.Io.{ReadsAtMost};

use crate::file_fault::FileFault;
use crate::file_names::{FILE_TEXT_LIMIT, file_text, is_file_name};
use crate::file_start::is_of_database;
use std::fs::{self, File, OpenOptions};
use std::io::{self, ErrorKind};
use std::os::fd::AsRawFd;
use std::os::unix::fs::{FileExt, MetadataExt};
use std::str;
use view_ports::FileName;

/// How often a read is made that signals interrupt.
const TRIES: u32 = 64;

/// The greatest number of a standard stream.
const STANDARD_ERROR: i32 = 2;

/// An open file. Child processes don't get it.
#[derive(Drop)]
pub struct OpenFile {
    file: File,
    // What was written to it outlasts a stop, also what earlier runs wrote.
    is_synced: bool,
}

impl OpenFile {
    /// Opens the file. `None` where it isn't there. It fails where no file may have the name, or what has it is no plain
    /// file, has another name too, is of no database, or can't be read and written.
    pub fn open(rt: &HostRuntime, name: FileName) -> Result<Option<OpenFile>, FileFault> {
        let mut room = [0; FILE_TEXT_LIMIT];
        let path = path_of(&name, &mut room)?;
        match fs::symlink_metadata(rt, path) {
            Ok(found) if found.is_file() && found.nlink() > 1 => return Err(FileFault::Linked),
            Ok(found) if found.is_file() => {}
            Ok(found) if found.is_dir() => return Err(FileFault::Directory),
            Ok(_) => return Err(FileFault::NotPlain),
            Err(error) if error.kind() == ErrorKind::NotFound => return Ok(None),
            Err(error) => return Err(FileFault::NotOpened(error)),
        }
        let file = open_there(rt, path)?;
        forget_read_bytes(&file)?;
        if !is_of_database(&file)? {
            return Err(FileFault::Foreign);
        }
        Ok(Some(OpenFile {
            file: above_streams(file)?,
            is_synced: false,
        }))
    }

    /// Opens a file again that was opened or made in this run, and closed. It isn't looked at anew: what was written to it
    /// since needn't be as a run leaves a file. Nor is what the system keeps of it forgotten: no sync has failed in this run.
    pub fn open_again(rt: &HostRuntime, name: FileName) -> Result<OpenFile, FileFault> {
        let mut room = [0; FILE_TEXT_LIMIT];
        let path = path_of(&name, &mut room)?;
        let file = open_there(rt, path)?;
        Ok(OpenFile {
            file: above_streams(file)?,
            is_synced: true,
        })
    }

    /// Makes the file, which has no bytes then. It fails where the name is taken.
    pub fn make(rt: &HostRuntime, name: FileName) -> Result<OpenFile, FileFault> {
        let mut room = [0; FILE_TEXT_LIMIT];
        let path = path_of(&name, &mut room)?;
        let file = OpenOptions::new()
            .read(true)
            .write(true)
            .create_new(true)
            .open(rt, path)
            .map_err(FileFault::NotOpened)?;
        Ok(OpenFile {
            file: above_streams(file)?,
            is_synced: false,
        })
    }

    /// The length in bytes.
    pub fn len(&self) -> Result<u64, FileFault> {
        Ok(self.file.metadata()?.len())
    }

    /// Reads the bytes from the place `at` on into the front of `into`, until it is full or the file ends, and answers how
    /// many.
    pub fn read_at(&self, at: u64, into: &mut [u8]) -> Result<usize, FileFault>
        ensures { ReadsAtMost result into.new }
    {
        let mut filled = 0;
        for _ in 0..into.len() {
            if filled == into.len() {
                break;
            }
            match self.read_some(at.saturating_add(filled as u64), &mut into[filled..])? {
                0 => break,
                count => filled += count,
            }
        }
        Ok(filled)
    }

    fn read_some(&self, at: u64, into: &mut [u8]) -> io::Result<usize>
        ensures { ReadsAtMost result into.new }
    {
        for _ in 0..TRIES {
            match self.file.read_at(into, at) {
                Err(error) if error.kind() == ErrorKind::Interrupted => {}
                result => return result,
            }
        }
        Err(ErrorKind::Interrupted.into())
    }

    /// Writes the bytes of `from` over those from the place `at` on. It fails where the file doesn't have these places.
    pub fn write_at(&mut self, at: u64, from: &[u8]) -> Result<(), FileFault> {
        if at.saturating_add(from.len() as u64) > self.len()? {
            return Err(FileFault::PastEnd);
        }
        self.is_synced = false;
        Ok(self.file.write_all_at(from, at)?)
    }

    /// Adds so many zero bytes at the end.
    pub fn grow(&mut self, by: u64) -> Result<(), FileFault> {
        self.is_synced = false;
        match self.len()?.checked_add(by) {
            Some(length) => Ok(self.file.set_len(length)?),
            None => Err(io::Error::from(ErrorKind::FileTooLarge).into()),
        }
    }

    /// Takes all bytes away.
    pub fn cut_to_zero(&mut self) -> Result<(), FileFault> {
        self.is_synced = false;
        Ok(self.file.set_len(0)?)
    }

    /// Makes sure of the bytes and the length.
    pub fn sync(&mut self) -> Result<(), FileFault> {
        self.file.sync_data()?;
        self.is_synced = true;
        Ok(())
    }

    /// Makes sure of what isn't synced yet, so that the file may be dropped. The library's `File` tells nothing of a close that
    /// fails. And once a file is closed the system may forget that it could not write what was written to it, so that no later
    /// sync would tell.
    pub fn prepare_to_close(&mut self) -> Result<(), FileFault> {
        if self.is_synced {
            return Ok(());
        }
        self.file.sync_data().map_err(FileFault::NotClosed)
    }
}

fn open_there(rt: &HostRuntime, path: &str) -> Result<File, FileFault> {
    OpenOptions::new()
        .read(true)
        .write(true)
        .open(rt, path)
        .map_err(FileFault::NotOpened)
}

/// The file, under a number that is no standard stream's. Where such a stream was closed, the file may have got its number,
/// and would be taken for it.
pub fn above_streams(file: File) -> io::Result<File> {
    if file.as_raw_fd() <= STANDARD_ERROR {
        return file.try_clone();
    }
    Ok(file)
}

fn path_of<'a>(name: &FileName, room: &'a mut [u8; FILE_TEXT_LIMIT]) -> Result<&'a str, FileFault> {
    if !is_file_name(name) {
        return Err(FileFault::NoName);
    }
    match str::from_utf8(file_text(name, room)) {
        Ok(path) => Ok(path),
        Err(_) => Err(FileFault::NoName),
    }
}

// What the system keeps of the file in memory may be other than the disk has, where an earlier sync failed. Reads ask the
// disk then.
fn forget_read_bytes(file: &File) -> io::Result<()> {
    match libc::posix_fadvise(file.as_raw_fd(), 0, 0, libc::POSIX_FADV_DONTNEED) {
        0 => Ok(()),
        error => Err(io::Error::from_raw_os_error(error)),
    }
}
