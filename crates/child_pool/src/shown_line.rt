//! Received lines, as a refusal shows them.

ghost use Rattle.std.specs.Prelude.{◌≡◌, IfOk, take};
ghost use Rattle.child_pool.specs.Shown as spec;

use json_terms::{Chars, NoMemory};
use std::alloc::Global;

/// How many bytes of a line are shown at most.
const SHOWN_LIMIT: usize = 1_000;

/// The first 1,000 bytes of a line, each byte outside 0x20 to 0x7E replaced by `?`.
pub fn shown_line(alloc: Global, line: &[u8]) -> Result<Chars, NoMemory>
    ensures { IfOk result (λ c. c ≡ spec.shown line.now) }
{
    let mut text = String::new(alloc);
    for byte in first_bytes(line) {
        text.push(shown_byte(*byte))?;
    }
    Ok(Chars::new(text))
}

fn shown_byte(byte: u8) -> char
    ensures { result ≡ spec.shown_byte byte }
{
    if 32 <= byte && byte <= 126 {
        char::from(byte)
    } else {
        '?'
    }
}

fn first_bytes(line: &[u8]) -> &[u8]
    ensures { result.now ≡ take spec.shown_limit line.now }
{
    if line.len() > SHOWN_LIMIT {
        &line[..SHOWN_LIMIT]
    } else {
        line
    }
}
