//! The bytes of a slot, and what they say.

ghost use Rattle.std.specs.Prelude.{◌≡◌, ◌+◌, ◌≤◌, ◌<◌, ◌^◌, ◌↔◌, IsTrue, length, slice_range};
ghost use Rattle.std.specs.Int.{from_le_bytes, w64};
ghost use Rattle.gate_file.specs.Commit.{header as header_bytes};
ghost use Rattle.gate_file.specs.Header.{data_start, root_in, place_of, IsFound};

use crate::root::{DATA, MAX_COMMITS, Root, place_of};

/// How many bytes of a slot are used, its gate being the last.
pub(crate) const SLOT: usize = 65;

/// The place of the gate in a slot.
pub(crate) const GATE: u64 = 64;

const MAGIC: [u8; 8] = *b"CVIEW001";

/// What is found in a slot.
#[derive(Clone, Copy, Debug, PartialEq, Eq)]
pub(crate) enum Slot {
    /// The gate is closed.
    Closed,
    /// The gate is open, and the slot is as a commit leaves it.
    Open(Root),
    /// The gate is open, and the slot is not as a commit leaves it.
    Damaged,
}

/// The bytes of a slot before its gate.
pub(crate) fn header_of(root: Root) -> [u8; 32]
    ensures { result ≡ header_bytes root }
{
    let mut header = *b"CVIEW001........................";
    header[8..16].copy_from_slice(&root.number.to_le_bytes());
    header[16..24].copy_from_slice(&root.offset.to_le_bytes());
    header[24..32].copy_from_slice(&root.length.to_le_bytes());
    header
}

fn number_at(slot: &[u8], at: usize) -> u64
    requires { at + 8 ≤ length slot.now }
    ensures { result ≡ from_le_bytes w64 (slice_range slot.now at (at + 8)) }
{
    let mut bytes = [0; 8];
    bytes.copy_from_slice(&slot[at..at + 8]);
    u64::from_le_bytes(bytes)
}

fn root_of(slot: &[u8]) -> Root
    requires { length slot.now ≡ 65 }
    ensures { result ≡ root_in slot.now }
{
    Root {
        number: number_at(slot, 8),
        offset: number_at(slot, 16),
        length: number_at(slot, 24),
    }
}

/// Whether a record stands in the data of a file with this length.
fn is_inside(root: Root, size: u64) -> bool
    ensures { IsTrue result ↔ ((data_start ≤ root.offset) × (root.offset + root.length ≤ size)) }
{
    root.offset >= DATA && root.offset <= size && root.length <= size - root.offset
}

/// Whether the number is that of a commit whose slot is at this place.
fn is_of_slot(number: u64, at: u64) -> bool
    ensures { IsTrue result ↔ ((0 < number) × (number ≤ 2 ^ 50) × (place_of number ≡ at)) }
{
    number > 0 && number <= MAX_COMMITS && place_of(number) == at
}

/// What the bytes of the slot at a place say, in a file with this length.
pub(crate) fn found_in(slot: &[u8], at: u64, size: u64) -> Slot
    requires { length slot.now ≡ 65 }
    ensures { IsFound at size slot.now result }
{
    if slot[64] != 1 {
        return Slot::Closed;
    }
    let root = root_of(slot);
    if slot[..8] == MAGIC[..] && is_of_slot(root.number, at) && is_inside(root, size) {
        Slot::Open(root)
    } else {
        Slot::Damaged
    }
}
