//! The last write of an id, as the root record keeps it.

ghost use Rattle.std.specs.Prelude.{◌≡◌, ◌+◌, ◌≤◌, slice_range, length};
ghost use Rattle.std.specs.Int.{from_le_bytes, w32, w64};
ghost use Rattle.doc_file.specs.Record.{last_bytes, flag_byte};
ghost use Rattle.doc_file.specs.Reading.{last_at, is_sound};

use json_terms::{Chars, NoMemory};
use std::alloc::Global;

/// How many bytes the parts of a last write take that have one length.
pub(crate) const LAST_LENGTH: usize = 29;

/// The last write of an id. A deletion is a tombstone, whose body's place and length are 0.
#[derive(Clone, Copy, Debug, PartialEq, Eq)]
pub struct LastWrite {
    /// Its number among all writes, from 1.
    pub seq: u64,
    /// How many writes the id has had with it.
    pub generation: u64,
    /// Whether it was a deletion.
    pub deleted: bool,
    /// The place of the stored document in the file.
    pub offset: u64,
    /// The length of the stored document's spelling in bytes.
    pub length: u32,
}

/// An id and its last write.
#[derive(Drop)]
pub struct Entry {
    pub id: Chars,
    pub last: LastWrite,
}

impl Entry {
    ghost use Rattle.std.specs.Prelude.{◌≡◌, IfOk};

    /// An equal entry. The one error is want of memory.
    pub(crate) fn copy(&self, alloc: Global) -> Result<Entry, NoMemory>
        ensures { IfOk result (λ entry. entry ≡ self.now) }
    {
        Ok(Entry {
            id: self.id.copy(alloc)?,
            last: self.last,
        })
    }
}

impl LastWrite {
    ghost use Rattle.std.specs.Prelude.{◌≡◌, ◌↔◌, IsTrue};
    ghost use Rattle.doc_file.specs.Record.{last_bytes};
    ghost use Rattle.doc_file.specs.Reading.{last_at, is_sound};

    /// The bytes of the parts, in their order.
    pub(crate) fn to_bytes(self) -> [u8; 29]
        ensures { result ≡ last_bytes self }
    {
        let mut bytes = [0; LAST_LENGTH];
        bytes[0..8].copy_from_slice(&self.seq.to_le_bytes());
        bytes[8..16].copy_from_slice(&self.generation.to_le_bytes());
        bytes[16] = flag(self.deleted);
        bytes[17..25].copy_from_slice(&self.offset.to_le_bytes());
        bytes[25..29].copy_from_slice(&self.length.to_le_bytes());
        bytes
    }

    /// What the bytes say.
    pub(crate) fn from_bytes(bytes: &[u8; 29]) -> LastWrite
        ensures { result ≡ last_at bytes.now }
    {
        LastWrite {
            seq: whole_at(bytes, 0),
            generation: whole_at(bytes, 8),
            deleted: bytes[16] == 1,
            offset: whole_at(bytes, 17),
            length: count_at(bytes, 25),
        }
    }

    /// Whether these are its bytes.
    pub(crate) fn is_told_by(self, bytes: &[u8; 29]) -> bool
        ensures { IsTrue result ↔ (last_bytes self ≡ bytes.now) }
    {
        self.to_bytes() == *bytes
    }

    /// Whether it has a body only where it is no tombstone.
    pub(crate) fn is_sound(self) -> bool
        ensures { result ≡ is_sound self }
    {
        !self.deleted || (self.offset == 0 && self.length == 0)
    }
}

fn flag(is_set: bool) -> u8
    ensures { result ≡ flag_byte is_set }
{
    if is_set { 1 } else { 0 }
}

fn whole_at(bytes: &[u8], at: usize) -> u64
    requires { at + 8 ≤ length bytes.now }
    ensures { result ≡ from_le_bytes w64 (slice_range bytes.now at (at + 8)) }
{
    let mut part = [0; 8];
    part.copy_from_slice(&bytes[at..at + 8]);
    u64::from_le_bytes(part)
}

fn count_at(bytes: &[u8], at: usize) -> u32
    requires { at + 4 ≤ length bytes.now }
    ensures { result ≡ from_le_bytes w32 (slice_range bytes.now at (at + 4)) }
{
    let mut part = [0; 4];
    part.copy_from_slice(&bytes[at..at + 4]);
    u32::from_le_bytes(part)
}
