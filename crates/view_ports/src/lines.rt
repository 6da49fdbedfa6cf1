//! Lines cut from bytes that come in pieces, and what is proved of such a cut.

ghost use Rattle.std.specs.Prelude.{◌≡◌, ◌≤◌, ◌++◌, ℕ, List, OnErr, OnOk, option_map, take, vec_len};
ghost use Rattle.view_ports.specs.Lines.{CutsLine, IsCut};

use json_terms::NoMemory;
use memchr::memchr;

/// The first line of the bytes, which a newline ends, and what stands behind that newline. None where there is no newline.
pub fn cut_line(bytes: &[u8]) -> Option<(&[u8], &[u8])>
    ensures { CutsLine bytes.now (option_map (λ r. (r.0.now, r.1.now)) result) }
{
    let length = memchr(b'\n', bytes)?;
    Some((&bytes[..length], &bytes[length + 1..]))
}

/// Adds bytes to a line, of which the first `most` bytes are kept. Where memory runs out, the line is as it was.
pub fn keep_bytes(line: &mut Vec<u8>, more: &[u8], most: usize) -> Result<(), NoMemory>
    requires { vec_len line.old ≤ most }
    ensures ok { OnOk result (line.new.items ≡ take most (line.old.items ++ more.now)) }
    ensures err { OnErr result (line.new.items ≡ line.old.items) }
    ensures short { vec_len line.new ≤ most }
{
    let room = most - line.len();
    line.extend_from_slice(&more[..more.len().min(room)])?;
    Ok(())
}

/// Does nothing: its contract is the law that any bytes are cut at newlines in exactly one way.
pub fn cut_in_one_way()
    ensures some { (bytes : List ℕ) → (lines : List (List ℕ)) × (rest : List ℕ)
        × IsCut bytes lines rest }
    ensures one { (bytes : List ℕ) (lines others : List (List ℕ)) (rest other : List ℕ)
        → IsCut bytes lines rest → IsCut bytes others other → (lines ≡ others) × (rest ≡ other) }
{}
