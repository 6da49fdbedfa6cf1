//! The names of files as text.

ghost use Rattle.std.specs.Prelude.{◌≡◌, ◌↔◌, IfSome, IsTrue, EachIndex, slice_index};
ghost use Rattle.view_ports.specs.declared.file_name.FileName.{FileName};
ghost use Rattle.view_ports.specs.declared.file_name.Stem.{Stem};
ghost use Rattle.real_ports.specs.FileNames.{file_text, stem_text, IsFileName, IsHexDigit, IsStem};

use view_ports::{FileName, Stem};

/// How many bytes the text of a name has at most.
pub const FILE_TEXT_LIMIT: usize = 34;

/// The text of the name, which is written into the front of `room`.
pub fn file_text<'a>(name: &FileName, room: &'a mut [u8; FILE_TEXT_LIMIT]) -> &'a [u8]
    ensures { result.now ≡ file_text name.now }
{
    let stem: &[u8] = match &name.stem {
        Stem::Docs => b"docs",
        Stem::View(digits) => digits,
    };
    let side: &[u8] = if name.side { b".1" } else { b".0" };
    let end = stem.len() + side.len();
    room[..stem.len()].copy_from_slice(stem);
    room[stem.len()..end].copy_from_slice(side);
    &room[..end]
}

/// Whether a file may have this name: a signature has lowercase hexadecimal digits alone.
pub fn is_file_name(name: &FileName) -> bool
    ensures { IsTrue result ↔ IsFileName name.now }
{
    match &name.stem {
        Stem::Docs => true,
        Stem::View(digits) => are_hex_digits(digits),
    }
}

/// The name whose text this is. `None` where it is not the text of a name that a file may have.
pub fn read_file_name(text: &[u8]) -> Option<FileName>
    ensures given { IfSome result (λ name. IsFileName name × (file_text name ≡ text.now)) }
    ensures all { (name : FileName) → IsFileName name → file_text name ≡ text.now
        → result ≡ Some name }
{
    match text {
        [stem @ .., b'.', b'0'] => read_stem(stem).map(|stem| FileName { stem, side: false }),
        [stem @ .., b'.', b'1'] => read_stem(stem).map(|stem| FileName { stem, side: true }),
        _ => None,
    }
}

fn read_stem(text: &[u8]) -> Option<Stem>
    ensures given { IfSome result (λ stem. IsStem stem × (stem_text stem ≡ text.now)) }
    ensures all { (stem : Stem) → IsStem stem → stem_text stem ≡ text.now → result ≡ Some stem }
{
    if text == b"docs".as_slice() {
        return Some(Stem::Docs);
    }
    let digits = <[u8; 32]>::try_from(text).ok()?;
    are_hex_digits(&digits).then_some(Stem::View(digits))
}

fn are_hex_digits(digits: &[u8]) -> bool
    ensures { IsTrue result ↔ EachIndex digits.now (λ k. IsHexDigit (slice_index digits.now k)) }
{
    digits
        .iter()
        .all(|digit| matches!(digit, b'0'..=b'9' | b'a'..=b'f'))
}
