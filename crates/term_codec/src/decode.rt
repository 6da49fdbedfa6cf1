//! Reading a term from its spelling. Each function reads from the front of bytes, and answers what it read and the bytes
//! behind it, or none where no spelling stands there.

ghost use Rattle.std.specs.Prelude.{◌≡◌, ℕ, ◌≤◌, ◌⊎◌, ◌↔◌, List, length, Option, option_map, IfOk, IfErr, IsTrue, true};
ghost use Rattle.json_terms.specs.Json.{Json};
ghost use Rattle.json_terms.specs.Seen.{json, pair_of};
ghost use Rattle.term_codec.specs.SpelledAt.{IsSpelledAt};
ghost use Rattle.term_codec.specs.Spelling.{count_bytes, number_bytes, whole_bytes, short_bytes};
ghost use Rattle.term_codec.specs.Reading.{count_in, whole_in, short_in, number_in, text_of_length, text_in, string_in, array_in, array_of_count, object_in, object_of_count, member_after, follows, reading};

use crate::fault::CodecFault;
use json_terms::{Chars, DEPTH_LIMIT, Member, Members, NoMemory, Term, Terms};
use std::alloc::Global;

/// The term whose spelling stands at the place `at`, and the place behind it. `at` isn't past the end.
///
/// Want of memory aside, `NotATerm(at)` comes exactly where no spelling of a term stands there: where the bytes end too
/// early, a kind is unknown, a text isn't UTF-8, the names of an object don't rise strictly by bytes, or objects and
/// arrays nest more than 100 deep. A count or a length is compared with the bytes that are left before memory is taken for
/// it, so the memory and the time grow as the bytes do.
pub fn decode_term(alloc: Global, bytes: &[u8], at: usize) -> Result<(Term, usize), CodecFault>
    requires { at ≤ length bytes.now }
    ensures ok { IfOk result (λ r. IsSpelledAt (json r.0) bytes.now at r.1) }
    ensures only { IfOk result (λ r. (t : Json) (end : ℕ) → IsSpelledAt t bytes.now at end
        → (t ≡ json r.0) × (end ≡ r.1)) }
    ensures err { IfErr result (λ e. (e ≡ CodecFault.NotATerm at) ⊎ (e ≡ CodecFault.NoMemory)) }
    ensures none { result ≡ Err (CodecFault.NotATerm at) → (t : Json) (end : ℕ)
        → IsSpelledAt t bytes.now at end → ⊥ }
{
    let (_, behind) = bytes.split_at(at);
    match read_value(alloc, behind, DEPTH_LIMIT)? {
        Some((term, rest)) => Ok((term, bytes.len() - rest.len())),
        None => Err(CodecFault::NotATerm(at)),
    }
}

// The count with these bytes.
fn count_of(bytes: [u8; 4]) -> u32
    ensures { count_bytes result ≡ bytes }
{
    u32::from_le_bytes(bytes)
}

// The number with these bytes.
fn number_of(bytes: [u8; 8]) -> i64
    ensures { number_bytes result ≡ bytes }
{
    u64::from_le_bytes(bytes).cast_signed()
}

/// The count or the length in the first 4 bytes, and the bytes behind it; none where there are fewer.
pub fn read_count(bytes: &[u8]) -> Option<(usize, &[u8])>
    ensures { option_map (λ r. (r.0, r.1.now)) result ≡ count_in bytes.now }
{
    match bytes.split_first_chunk::<4>() {
        Some((head, rest)) => Some((count_of(*head) as usize, rest)),
        None => None,
    }
}

// The natural number with these 8 bytes.
fn whole_of(bytes: [u8; 8]) -> u64
    ensures { whole_bytes result ≡ bytes }
{
    u64::from_le_bytes(bytes)
}

/// The natural number in the first 8 bytes, and the bytes behind it; none where there are fewer.
pub fn read_whole(bytes: &[u8]) -> Option<(u64, &[u8])>
    ensures { option_map (λ r. (r.0, r.1.now)) result ≡ whole_in bytes.now }
{
    match bytes.split_first_chunk::<8>() {
        Some((head, rest)) => Some((whole_of(*head), rest)),
        None => None,
    }
}

// The natural number with these 2 bytes.
fn short_of(bytes: [u8; 2]) -> u16
    ensures { short_bytes result ≡ bytes }
{
    u16::from_le_bytes(bytes)
}

/// The natural number in the first 2 bytes, and the bytes behind it; none where there are fewer.
pub fn read_short(bytes: &[u8]) -> Option<(u16, &[u8])>
    ensures { option_map (λ r. (r.0, r.1.now)) result ≡ short_in bytes.now }
{
    match bytes.split_first_chunk::<2>() {
        Some((head, rest)) => Some((short_of(*head), rest)),
        None => None,
    }
}

fn read_number(bytes: &[u8]) -> Option<(Term, &[u8])>
    ensures { option_map (λ r. (json r.0, r.1.now)) result ≡ number_in bytes.now }
{
    match bytes.split_first_chunk::<8>() {
        Some((head, rest)) => Some((Term::Int(number_of(*head)), rest)),
        None => None,
    }
}

// So many bytes, which are UTF-8.
fn text_of_length(count: usize, bytes: &[u8]) -> Option<(&str, &[u8])>
    ensures { option_map (λ r. (r.0.now, r.1.now)) result ≡ text_of_length count bytes.now }
{
    if count > bytes.len() {
        return None;
    }
    let (text, rest) = bytes.split_at(count);
    match std::str::from_utf8(text) {
        Ok(text) => Some((text, rest)),
        Err(_) => None,
    }
}

/// The text that is spelled at the front, its length in 4 bytes and then its bytes, and the bytes behind it. There is none
/// where the bytes end too early or aren't UTF-8.
pub fn read_text(bytes: &[u8]) -> Option<(&str, &[u8])>
    ensures { option_map (λ r. (r.0.now, r.1.now)) result ≡ text_in bytes.now }
{
    match read_count(bytes) {
        Some((count, rest)) => text_of_length(count, rest),
        None => None,
    }
}

fn read_chars(alloc: Global, bytes: &[u8]) -> Result<Option<(Term, &[u8])>, NoMemory>
    ensures { IfOk result (λ found.
        option_map (λ r. (json r.0, r.1.now)) found ≡ string_in bytes.now) }
{
    match read_text(bytes) {
        Some((text, rest)) => Ok(Some((Term::Text(Chars::from_text(alloc, text)?), rest))),
        None => Ok(None),
    }
}

// Whether the name is greater than the last name of these members.
fn follows(name: &str, members: &Members) -> bool
    ensures { result ≡ follows name.now members.now }
{
    match members.as_slice().last() {
        Some(last) => last.name.as_str() < name,
        None => true,
    }
}

// A value that nests at most `limit` deep.
#[cycle(read)]
fn read_value(alloc: Global, bytes: &[u8], limit: u32) -> Result<Option<(Term, &[u8])>, NoMemory>
    ensures { IfOk result (λ found.
        option_map (λ r. (json r.0, r.1.now)) found ≡ reading limit bytes.now) }
{
    match bytes.split_first() {
        Some((kind, rest)) => match *kind {
            1 => Ok(read_number(rest)),
            2 => Ok(Some((Term::False, rest))),
            3 => Ok(Some((Term::Null, rest))),
            4 => Ok(Some((Term::True, rest))),
            5 if limit > 0 => read_object(alloc, rest, limit - 1),
            6 if limit > 0 => read_array(alloc, rest, limit - 1),
            7 => read_chars(alloc, rest),
            _ => Ok(None),
        },
        None => Ok(None),
    }
}

#[cycle(read)]
fn read_array(alloc: Global, bytes: &[u8], limit: u32) -> Result<Option<(Term, &[u8])>, NoMemory>
    ensures { IfOk result (λ found. option_map (λ r. (json r.0, r.1.now)) found ≡ array_in
        (reading limit) bytes.now) }
{
    match read_count(bytes) {
        Some((count, rest)) => read_terms(alloc, count, rest, limit),
        None => Ok(None),
    }
}

#[cycle(read)]
fn read_terms(
    alloc: Global,
    count: usize,
    bytes: &[u8],
    limit: u32,
) -> Result<Option<(Term, &[u8])>, NoMemory>
    ensures { IfOk result (λ found. option_map (λ r. (json r.0, r.1.now)) found ≡ array_of_count
        (reading limit) count bytes.now) }
{
    if count > bytes.len() {
        return Ok(None);
    }
    let mut terms = Terms::new(alloc);
    let mut rest = bytes;
    for _index in 0..count {
        match read_value(alloc, rest, limit)? {
            Some((term, behind)) => {
                terms.push(term)?;
                rest = behind;
            }
            None => return Ok(None),
        }
    }
    Ok(Some((Term::Array(terms), rest)))
}

#[cycle(read)]
fn read_object(alloc: Global, bytes: &[u8], limit: u32) -> Result<Option<(Term, &[u8])>, NoMemory>
    ensures { IfOk result (λ found. option_map (λ r. (json r.0, r.1.now)) found ≡ object_in
        (reading limit) bytes.now) }
{
    match read_count(bytes) {
        Some((count, rest)) => read_members(alloc, count, rest, limit),
        None => Ok(None),
    }
}

#[cycle(read)]
fn read_members(
    alloc: Global,
    count: usize,
    bytes: &[u8],
    limit: u32,
) -> Result<Option<(Term, &[u8])>, NoMemory>
    ensures { IfOk result (λ found. option_map (λ r. (json r.0, r.1.now)) found ≡ object_of_count
        (reading limit) count bytes.now) }
{
    if count > bytes.len() {
        return Ok(None);
    }
    let mut members = Members::new(alloc);
    let mut rest = bytes;
    for _index in 0..count {
        match read_member(alloc, &members, rest, limit)? {
            Some((member, behind)) => {
                members.push(member.name, member.value)?;
                rest = behind;
            }
            None => return Ok(None),
        }
    }
    Ok(Some((Term::Object(members), rest)))
}

// A member whose name is greater than the last of those that were read.
#[cycle(read)]
fn read_member<'a>(
    alloc: Global,
    members: &Members,
    bytes: &'a [u8],
    limit: u32,
) -> Result<Option<(Member, &'a [u8])>, NoMemory>
    ensures { IfOk result (λ found. option_map (λ r. (pair_of r.0, r.1.now)) found ≡ member_after
        (reading limit) members.now bytes.now) }
{
    match read_text(bytes) {
        Some((name, behind)) => {
            if !follows(name, members) {
                return Ok(None);
            }
            match read_value(alloc, behind, limit)? {
                Some((value, rest)) => {
                    let name = Chars::from_text(alloc, name)?;
                    Ok(Some((Member { name, value }, rest)))
                }
                None => Ok(None),
            }
        }
        None => Ok(None),
    }
}
