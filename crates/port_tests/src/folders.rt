//! Steps on any folder, and what its files hold then.

ghost use Rattle.std.specs.Io.{ReadsAtMost};

use json_terms::NoMemory;
use std::alloc::Global;
use view_ports::{FileName, Folder, PortFault, Stem};

pub const DOCS: FileName = FileName {
    stem: Stem::Docs,
    side: false,
};

#[derive(Clone, Copy)]
pub enum Step {
    Write(u64, &'static [u8]),
    Grow(u64),
    Cut,
    Sync,
}

// Takes the step where the file has room for it. It makes two calls.
pub fn take<F: Folder>(folder: &mut F, name: FileName, step: Step) -> Result<(), PortFault> {
    let long = folder.len(name)?;
    match step {
        Step::Write(at, from) => {
            if at > long || from.len() as u64 > long - at {
                return Err(PortFault);
            }
            folder.write_at(name, at, from)
        }
        Step::Grow(by) => {
            if long > 1000 || by > 1000 {
                return Err(PortFault);
            }
            folder.grow(name, by)
        }
        Step::Cut => folder.cut_to_zero(name),
        Step::Sync => folder.sync(name),
    }
}

// Takes the steps on the file of documents, and answers how many were refused.
pub fn run<F: Folder>(folder: &mut F, steps: &[Step]) -> u64 {
    let mut refused = 0_u64;
    for step in steps {
        if take(folder, DOCS, *step).is_err() {
            refused = refused.saturating_add(1);
        }
    }
    refused
}

pub fn read<F: Folder>(
    folder: &mut F,
    name: FileName,
    at: u64,
    into: &mut [u8],
) -> Result<usize, PortFault>
    ensures { ReadsAtMost result into.new }
{
    folder.read_at(name, at, into)
}

// The first 16 bytes of a file. Nothing where they can't be read.
pub fn bytes<F: Folder>(
    folder: &mut F,
    alloc: Global,
    name: FileName,
) -> Result<Vec<u8>, NoMemory> {
    let mut into = [0; 16];
    let Ok(count) = read(folder, name, 0, &mut into) else {
        return Ok(Vec::new(alloc));
    };
    Ok(into[..count].to_vec(alloc)?)
}
