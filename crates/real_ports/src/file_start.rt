//! How the files of a database begin, by which they are told from other files of the same names.

use std::fs::File;
use std::io;
use std::os::unix::fs::FileExt;

/// The first bytes of each slot that was written, at the places 0 and 4,096.
const SLOT_START: [u8; 8] = *b"CVIEW001";

/// The length of a slot. Data begin behind two slots.
const SLOT: usize = 4096;

/// The place in a slot of the byte that says whether its commit counts, and that byte then. The header ends behind it.
const GATE: usize = 64;

const OPEN: u8 = 1;

/// Whether a run of this program can have left the file. From the first commit on one slot always begins as slots do and has
/// its gate open. Before that the first slot holds nothing but zeros, and so does the second one behind its header, which a
/// stop may leave torn. What stands behind the slots isn't looked at.
pub fn is_of_database(file: &File) -> io::Result<bool> {
    let mut first = [0; SLOT];
    file.read_at(&mut first, 0)?;
    if is_committed(&first) {
        return Ok(true);
    }
    let mut second = [0; SLOT];
    file.read_at(&mut second, SLOT as u64)?;
    Ok(is_committed(&second) || (is_zero(&first) && is_zero(&second[GATE + 1..])))
}

/// Whether a commit stands in the slot.
fn is_committed(slot: &[u8; SLOT]) -> bool {
    slot.starts_with(&SLOT_START) && slot[GATE] == OPEN
}

fn is_zero(bytes: &[u8]) -> bool {
    bytes.iter().all(|byte| *byte == 0)
}
