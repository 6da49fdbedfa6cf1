//! The text of a term.

ghost use Rattle.std.specs.Prelude.{◌≡◌, ◌≢◌, ◌≤◌, ◌++◌, Ok, map, All, OnOk, OnErr};
ghost use Rattle.json_terms.specs.Json.{string, depth, items_of, members_of};
ghost use Rattle.json_terms.specs.Seen.{json, pair_of};
ghost use Rattle.json_terms.specs.Text.{text_of};
ghost use Rattle.json_terms.specs.Tokens.{tokens_of, items_tokens_of, members_tokens_of};
ghost use Rattle.json_terms.specs.Reading.{reading, depth_limit};

use crate::fault::NoMemory;
use crate::term::{Member, Term};
use json::Writer;
use std::alloc::{AllocError, Global};
use std::mem;

/// Writes a term's text behind what `out` holds: compact JSON as `serde_json` writes it, with the names of an object in
/// their order. A term of depth 100 at most is what its text reads as.
///
/// A number has 20 bytes at most, and a byte of a text or of a name 6 at most. The one error is want of memory, and
/// `out` then holds what it held.
pub fn write_term(alloc: Global, term: &Term, out: &mut Vec<u8>) -> Result<(), NoMemory>
    ensures ok { OnOk result (out.new.items ≡ out.old.items ++ text_of (json term.now)) }
    ensures err { OnErr result (out.new.items ≡ out.old.items) }
    ensures reads { OnOk result (depth (json term.now) ≤ depth_limit
        → reading (text_of (json term.now)) ≡ Ok (json term.now)) }
{
    term.validity();
    let len = out.len();
    let mut writer = Writer::new(mem::replace(out, Vec::new(alloc)));
    let written = put_term(term, &mut writer);
    *out = writer.into_inner();
    match written {
        Ok(()) => Ok(()),
        Err(_) => {
            out.truncate(len);
            Err(NoMemory)
        }
    }
}

/// Writes the JSON text of a string behind what `out` holds: in quotes, and each of its bytes as 6 at most.
///
/// The one error is want of memory, and `out` then holds what it held.
pub fn write_text(alloc: Global, text: &str, out: &mut Vec<u8>) -> Result<(), NoMemory>
    ensures ok { OnOk result (out.new.items ≡ out.old.items ++ text_of (string text.now)) }
    ensures err { OnErr result (out.new.items ≡ out.old.items) }
{
    let len = out.len();
    let mut writer = Writer::new(mem::replace(out, Vec::new(alloc)));
    let written = writer.string(text);
    *out = writer.into_inner();
    match written {
        Ok(()) => Ok(()),
        Err(_) => {
            out.truncate(len);
            Err(NoMemory)
        }
    }
}

/// Tells the prover that no byte of a term's text is a newline. It takes constant time.
pub fn text_is_line(term: &Term)
    ensures { All (λ byte. byte ≢ 10) (text_of (json term.now)) }
{
    term.validity();
}

// The tokens of a term. Where memory runs out some of them may be written.
#[cycle(put)]
fn put_term(term: &Term, writer: &mut Writer) -> Result<(), AllocError>
    ensures tokens { OnOk result (writer.new.tokens ≡ writer.old.tokens ++ tokens_of
        (json term.now)) }
    ensures before { writer.new.before ≡ writer.old.before }
{
    match term {
        Term::Int(n) => writer.i64(*n),
        Term::False => writer.boolean(false),
        Term::Null => writer.null(),
        Term::True => writer.boolean(true),
        Term::Object(members) => {
            writer.begin_object()?;
            put_members(members.as_slice(), writer)
        }
        Term::Array(terms) => {
            writer.begin_array()?;
            put_terms(terms.as_slice(), writer)
        }
        Term::Text(chars) => writer.string(chars.as_str()),
    }
}

// The elements and the closing bracket.
// The tokens of a term. Where memory runs out some of them may be written.
#[cycle(put)]
fn put_terms(terms: &[Term], writer: &mut Writer) -> Result<(), AllocError>
    ensures tokens { OnOk result (writer.new.tokens ≡ writer.old.tokens ++ items_tokens_of
        (items_of (map json terms.now))) }
    ensures before { writer.new.before ≡ writer.old.before }
{
    for term in terms {
        put_term(term, writer)?;
    }
    writer.end_array()
}

// The members and the closing bracket.
#[cycle(put)]
fn put_members(members: &[Member], writer: &mut Writer) -> Result<(), AllocError>
    ensures tokens { OnOk result (writer.new.tokens ≡ writer.old.tokens ++ members_tokens_of
        (members_of (map pair_of members.now))) }
    ensures before { writer.new.before ≡ writer.old.before }
{
    for member in members {
        writer.key(member.name.as_str())?;
        put_term(&member.value, writer)?;
    }
    writer.end_object()
}
