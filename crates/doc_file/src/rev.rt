//! Revisions.

ghost use Rattle.std.specs.Prelude.{◌≡◌, ℕ, ◌≤◌, ◌<◌, ◌^◌, ◌↔◌, IfOk, IsTrue, EachIndex, slice_index, string_bytes, decimal, option_map};
ghost use Rattle.doc_file.specs.Writes.{IsGiven};
ghost use Rattle.view_ports.specs.Stored.{IsHexDigit, IsGeneration, IsSequence, IsRevision};
ghost use Rattle.design_docs.specs.Revision.{revision};

use itoa::Buffer;
use json_terms::NoMemory;
use std::alloc::Global;

/// The length of a revision whose generation has few digits, in bytes.
const USUAL_LENGTH: usize = 40;

/// The length of a dash and 32 digits, in bytes.
const SEQUENCE_LENGTH: usize = 33;

/// The greatest generation that a revision can name, and one.
const GENERATIONS: u64 = 1 << 63;

/// The revision of a write: how many writes its id has had with it, and its number among all writes.
#[derive(Clone, Copy, Debug, PartialEq, Eq)]
pub struct Rev {
    pub generation: u64,
    pub seq: u64,
}

impl Rev {
    ghost use Rattle.std.specs.Prelude.{◌≡◌, IfOk, string_bytes};
    ghost use Rattle.design_docs.specs.Revision.{revision};

    /// The generation in decimal, a dash, and the number of the write in 32 hexadecimal digits. The one error is want of
    /// memory.
    pub fn text(self, alloc: Global) -> Result<String, NoMemory>
        ensures { IfOk result (λ text. string_bytes text ≡ revision self.generation self.seq) }
    {
        let digits = hex::encode(alloc, u128::from(self.seq).to_be_bytes())?;
        let mut buffer = Buffer::new();
        let mut text = String::with_capacity(alloc, USUAL_LENGTH)?;
        text.push_str(buffer.format(self.generation))?;
        text.push_str("-")?;
        text.push_str(digits.as_str())?;
        Ok(text)
    }
}

/// Whether a text has the form of a revision: a decimal number from 1 to 2^63 - 1 without leading zeros, a dash, and 32
/// digits of `0` to `9` and `a` to `f`. It takes no memory.
pub fn is_revision(text: &str) -> bool
    ensures { IsTrue result ↔ IsRevision text.now }
{
    let bytes = text.as_bytes();
    if bytes.len() < SEQUENCE_LENGTH {
        return false;
    }
    let (generation, seq) = bytes.split_at(bytes.len() - SEQUENCE_LENGTH);
    if !is_generation(generation) {
        return false;
    }
    is_sequence(seq)
}

/// Whether no revision is given, or one of the form of a revision.
pub(crate) fn is_given(rev: Option<&str>) -> bool
    ensures { IsTrue result ↔ IsGiven (option_map (λ text. text.now) rev.entry) }
{
    match rev {
        Some(text) => is_revision(text),
        None => true,
    }
}

fn is_generation(digits: &[u8]) -> bool
    ensures { IsTrue result ↔ IsGeneration digits.now }
{
    match std::str::from_utf8(digits) {
        Ok(text) => is_generation_text(text),
        Err(_) => false,
    }
}

fn is_generation_text(text: &str) -> bool
    ensures { IsTrue result ↔ IsGeneration text.now }
{
    match text.parse::<u64>() {
        Ok(generation) => {
            if generation == 0 {
                return false;
            }
            if generation >= GENERATIONS {
                return false;
            }
            is_decimal(text, generation)
        }
        Err(_) => false,
    }
}

/// Whether the text is the number in decimal.
fn is_decimal(text: &str, number: u64) -> bool
    ensures { IsTrue result ↔ (text.now ≡ decimal number) }
{
    let mut buffer = Buffer::new();
    text == buffer.format(number)
}

fn is_sequence(text: &[u8]) -> bool
    ensures { IsTrue result ↔ IsSequence text.now }
{
    match text {
        [b'-', digits @ ..] => digits.len() == 32 && are_hex_digits(digits),
        _ => false,
    }
}

fn are_hex_digits(digits: &[u8]) -> bool
    ensures { IsTrue result ↔ EachIndex digits.now (λ k. IsHexDigit (slice_index digits.now k)) }
{
    digits.iter().all(|digit| (*digit >= 48 && *digit <= 57) || (*digit >= 97 && *digit <= 102))
}
