//! Writing the spelling of a term.

ghost use Rattle.std.specs.Prelude.{◌≡◌, ◌^◌, ◌<◌, ◌++◌, length, map, OnOk, OnErr};
ghost use Rattle.json_terms.specs.Json.{items_of, members_of};
ghost use Rattle.json_terms.specs.Seen.{json, pair_of};
ghost use Rattle.term_codec.specs.Spelling.{spelling, items_spelling, members_spelling, count_bytes, number_bytes, whole_bytes, short_bytes, text_bytes};
ghost use Rattle.term_codec.specs.SpelledAt.{IsWithin, CountsFit, ItemsFit, MembersFit};

use json_terms::{Member, NoMemory, Term};
use std::alloc::Global;

/// Writes the spelling of a term behind what `out` holds.
///
/// The term has depth 100 at most, and each of its counts and lengths is below 2^32. The one error is want of memory,
/// and `out` then holds what it held.
pub fn encode_term(alloc: Global, term: &Term, out: &mut Vec<u8>) -> Result<(), NoMemory>
    requires { IsWithin (json term.now) }
    ensures ok { OnOk result (out.new.items ≡ out.old.items ++ spelling (json term.now)) }
    ensures err { OnErr result (out.new.items ≡ out.old.items) }
{
    let mut spelled = Vec::new(alloc);
    put_term(term, &mut spelled)?;
    out.extend_from_slice(spelled.as_slice())?;
    Ok(())
}

/// Writes a count or a length below 2^32 behind what `out` holds, in 4 bytes. Where memory runs out, `out` holds what it
/// held.
pub fn put_count(count: usize, out: &mut Vec<u8>) -> Result<(), NoMemory>
    requires { count < 2 ^ 32 }
    ensures ok { OnOk result (out.new.items ≡ out.old.items ++ count_bytes count) }
    ensures err { OnErr result (out.new.items ≡ out.old.items) }
{
    out.extend_from_slice(&(count as u32).to_le_bytes())?;
    Ok(())
}

/// Writes a natural number behind what `out` holds, in 8 bytes. Where memory runs out, `out` holds what it held.
pub fn put_whole(number: u64, out: &mut Vec<u8>) -> Result<(), NoMemory>
    ensures ok { OnOk result (out.new.items ≡ out.old.items ++ whole_bytes number) }
    ensures err { OnErr result (out.new.items ≡ out.old.items) }
{
    out.extend_from_slice(&number.to_le_bytes())?;
    Ok(())
}

/// The same in 2 bytes.
pub fn put_short(number: u16, out: &mut Vec<u8>) -> Result<(), NoMemory>
    ensures ok { OnOk result (out.new.items ≡ out.old.items ++ short_bytes number) }
    ensures err { OnErr result (out.new.items ≡ out.old.items) }
{
    out.extend_from_slice(&number.to_le_bytes())?;
    Ok(())
}

fn put_number(n: i64, out: &mut Vec<u8>) -> Result<(), NoMemory>
    ensures { OnOk result (out.new.items ≡ out.old.items ++ number_bytes n) }
{
    out.extend_from_slice(&n.to_le_bytes())?;
    Ok(())
}

/// Writes a text behind what `out` holds: its length, below 2^32, in 4 bytes, and then its bytes. Where memory runs out,
/// `out` holds what it held.
pub fn put_text(text: &str, out: &mut Vec<u8>) -> Result<(), NoMemory>
    requires { length text.now < 2 ^ 32 }
    ensures ok { OnOk result (out.new.items ≡ out.old.items ++ text_bytes text.now) }
    ensures err { OnErr result (out.new.items ≡ out.old.items) }
{
    let before = out.len();
    put_count(text.len(), out)?;
    match out.extend_from_slice(text.as_bytes()) {
        Ok(()) => Ok(()),
        Err(_) => {
            out.truncate(before);
            Err(NoMemory)
        }
    }
}

// The spelling of a term. Where memory runs out some of it may be written.
#[cycle(put)]
fn put_term(term: &Term, out: &mut Vec<u8>) -> Result<(), NoMemory>
    requires { CountsFit (json term.now) }
    ensures { OnOk result (out.new.items ≡ out.old.items ++ spelling (json term.now)) }
{
    match term {
        Term::Int(n) => {
            out.push(1)?;
            put_number(*n, out)
        }
        Term::False => Ok(out.push(2)?),
        Term::Null => Ok(out.push(3)?),
        Term::True => Ok(out.push(4)?),
        Term::Object(members) => {
            out.push(5)?;
            put_count(members.len(), out)?;
            put_members(members.as_slice(), out)
        }
        Term::Array(terms) => {
            out.push(6)?;
            put_count(terms.len(), out)?;
            put_terms(terms.as_slice(), out)
        }
        Term::Text(chars) => {
            out.push(7)?;
            put_text(chars.as_str(), out)
        }
    }
}

#[cycle(put)]
fn put_terms(terms: &[Term], out: &mut Vec<u8>) -> Result<(), NoMemory>
    requires { ItemsFit (items_of (map json terms.now)) }
    ensures { OnOk result (out.new.items ≡ out.old.items ++ items_spelling
        (items_of (map json terms.now))) }
{
    for term in terms {
        put_term(term, out)?;
    }
    Ok(())
}

#[cycle(put)]
fn put_members(members: &[Member], out: &mut Vec<u8>) -> Result<(), NoMemory>
    requires { MembersFit (members_of (map pair_of members.now)) }
    ensures { OnOk result (out.new.items ≡ out.old.items ++ members_spelling
        (members_of (map pair_of members.now))) }
{
    for member in members {
        put_text(member.name.as_str(), out)?;
        put_term(&member.value, out)?;
    }
    Ok(())
}
