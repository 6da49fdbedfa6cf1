//! The value that a child gave for rows.

ghost use Rattle.std.specs.Prelude.{◌≡◌, ◌↔◌, ◌++◌, IfOk, IfSome, IsTrue, None, Ok, OnErr, OnOk};
ghost use Rattle.json_terms.specs.Seen.{json};
ghost use Rattle.term_codec.specs.Spelling.{spelling};
ghost use Rattle.tree_laws.specs.Spelled.{IsReadBack};
ghost use Rattle.view_ports.specs.Functions.{IsWithinBounds};

use json_terms::{NoMemory, Term};
use query_protocol::is_within_bounds;
use std::alloc::Global;
use std::marker::Model;
use term_codec::{CodecFault, decode_term, encode_term};
use tree_laws::ItemFault;

/// The value that a child gave for rows, within the bounds of what a query server may send: its text has 1,048,576 bytes at
/// most, and its depth is 96 at most. Contracts see it as the JSON value that it is.
#[derive(Drop)]
pub struct ChildSum {
    pub term: Term,
}

impl Model for ChildSum {
    ghost use Rattle.json_terms.specs.Json.{Json};
    ghost use Rattle.json_terms.specs.Code.{coded_json};

    ghost Value = { Json };

    ghost coded = { coded_json };

    ghost use Rattle.json_terms.specs.Seen.{json};
    ghost use Rattle.view_ports.specs.Functions.{IsWithinBounds};

    ghost view = { λ sum. json sum.term };

    ghost invariant = { λ sum. IsWithinBounds (json sum.term) };
}

impl ChildSum {
    /// The term as such a value, where it is within the bounds. The one error is want of memory.
    pub fn new(alloc: Global, term: Term) -> Result<Option<ChildSum>, NoMemory>
        ensures some { IfOk result (λ found. IfSome found (λ sum. sum ≡ json term)) }
        ensures within { IfOk result (λ found. IfSome found IsWithinBounds) }
        ensures none { result ≡ Ok None → IsWithinBounds (json term) → ⊥ }
    {
        if is_bounded(alloc, &term)? {
            Ok(Some(ChildSum { term }))
        } else {
            Ok(None)
        }
    }

    /// A term that is known to be within the bounds, without taking memory.
    pub(crate) fn of(term: Term) -> ChildSum
        requires { IsWithinBounds (json term) }
        ensures { result ≡ json term }
    {
        ChildSum { term }
    }

    /// Appends the spelling of the term. The one error is want of memory, and `out` then holds what it held.
    pub(crate) fn put(&self, alloc: Global, out: &mut Vec<u8>) -> Result<(), NoMemory>
        ensures ok { OnOk result (out.new.items ≡ out.old.items ++ spelling self.now) }
        ensures within { OnOk result (IsWithinBounds self.now) }
        ensures err { OnErr result (out.new.items ≡ out.old.items) }
    {
        encode_term(alloc, &self.term, out)
    }

    /// The value whose spelling these bytes are, or `ItemFault` exactly where they are that of none.
    pub(crate) fn read(alloc: Global, bytes: &[u8]) -> Result<Result<ChildSum, ItemFault>, NoMemory>
        ensures { IfOk result (IsReadBack IsWithinBounds spelling bytes.now) }
    {
        let term = match decode_term(alloc, bytes, 0) {
            Ok((term, end)) if end == bytes.len() => term,
            Ok(_) => return Ok(Err(ItemFault)),
            Err(CodecFault::NotATerm(_)) => return Ok(Err(ItemFault)),
            Err(CodecFault::NoMemory) => return Err(NoMemory),
        };
        match ChildSum::new(alloc, term)? {
            Some(sum) => Ok(Ok(sum)),
            None => Ok(Err(ItemFault)),
        }
    }
}

/// Whether the term is within the bounds.
fn is_bounded(alloc: Global, term: &Term) -> Result<bool, NoMemory>
    ensures { IfOk result (λ bounded. IsTrue bounded ↔ IsWithinBounds (json term.now)) }
{
    term.validity();
    is_within_bounds(alloc, term)
}
