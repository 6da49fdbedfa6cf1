//! The bytes of an item.

ghost use Rattle.std.specs.Prelude.{◌≡◌, ◌++◌, ℕ, List, Some, IfOk, IfSome, OnOk};
ghost use Rattle.json_terms.specs.Seen.{json};
ghost use Rattle.json_terms.specs.Terms.{IsTerm};
ghost use Rattle.json_terms.specs.declared.term.Row.{Row as RowSeen};
ghost use Rattle.json_terms.specs.declared.term.Term.{Term as TermSeen};
ghost use Rattle.term_codec.specs.Spelling.{spelling};
ghost use Rattle.term_codec.specs.SpelledAt.{IsWithin};
ghost use Rattle.builtin_reduces.specs.Front.{read_of};
ghost use Rattle.builtin_reduces.specs.Kept.{IsKept, item_bytes};

use json_terms::{Chars, NoMemory, Row, Term};
use std::alloc::Global;
use term_codec::{
    CodecFault, decode_term, encode_term, put_count, put_text, read_count, read_text,
};

/// Writes a row behind what `out` holds. Where memory runs out some of it may be written.
pub(crate) fn put_row(alloc: Global, row: &Row, out: &mut Vec<u8>) -> Result<(), NoMemory>
    requires { IsKept row.now }
    ensures { OnOk result (out.new.items ≡ out.old.items ++ item_bytes row.now) }
{
    encode_term(alloc, &row.key, out)?;
    put_text(row.id.as_str(), out)?;
    put_count(row.place as usize, out)?;
    encode_term(alloc, &row.value, out)
}

/// The row of these bytes, which may be out of bounds; none where they are those of no row.
pub(crate) fn read_row(alloc: Global, bytes: &[u8]) -> Result<Option<Row>, NoMemory>
    ensures sound { IfOk result (λ found. IfSome found (λ row. item_bytes row ≡ bytes.now)) }
    ensures whole { IfOk result (λ found. (row : RowSeen) → IsKept row → item_bytes row ≡ bytes.now
        → found ≡ Some row) }
{
    let Some((key, rest)) = read_term(alloc, bytes)? else {
        return Ok(None);
    };
    let Some((id, rest)) = read_text(rest) else {
        return Ok(None);
    };
    let Some((place, rest)) = read_count(rest) else {
        return Ok(None);
    };
    let Some((value, rest)) = read_term(alloc, rest)? else {
        return Ok(None);
    };
    if !rest.is_empty() {
        return Ok(None);
    }
    let id = Chars::from_text(alloc, id)?;
    let place = place as u32;
    Ok(Some(Row {
        key,
        id,
        place,
        value,
    }))
}

/// The term that is spelled at the front, and the bytes behind it.
fn read_term(alloc: Global, bytes: &[u8]) -> Result<Option<(Term, &[u8])>, NoMemory>
    ensures sound { IfOk result (λ found. IfSome found
        (λ r. bytes.now ≡ spelling (json r.0) ++ r.1.now)) }
    ensures whole { IfOk result (λ found. (term : TermSeen) (rest : List ℕ) → IsTerm (json term)
        → IsWithin (json term) → bytes.now ≡ spelling (json term) ++ rest
        → read_of found ≡ Some (term, rest)) }
{
    match decode_term(alloc, bytes, 0) {
        Ok((term, end)) => {
            let (_, rest) = bytes.split_at(end);
            Ok(Some((term, rest)))
        }
        Err(CodecFault::NotATerm(_)) => Ok(None),
        Err(CodecFault::NoMemory) => Err(NoMemory),
    }
}
