//! A term from the bytes of its JSON text.

ghost use Rattle.std.specs.Prelude.{◌≡◌, ◌≢◌, ◌⊎◌, None, Some, IfOk, IfErr};
ghost use Rattle.serde_json.specs.View.{view, items_view, members_view};
ghost use Rattle.json_terms.specs.Json.{items_of, members_of};
ghost use Rattle.json_terms.specs.Seen.{json};
ghost use Rattle.json_terms.specs.Reading.{reading, value_of, items_value_of, members_value_of};

use crate::fault::TermFault;
use crate::limits::DEPTH_LIMIT;
use crate::look::depth_within;
use crate::term::{Chars, Members, Term, Terms};
use serde_json::{Map, Value};
use std::alloc::Global;

/// The term that the bytes spell. Want of memory aside, the answer is what the definition `reading` says.
///
/// Numbers are whole, from -2^63 to 2^63 - 1. Of a name that stands twice in an object the last value counts, and
/// those before it are not looked at. The faults are looked for in this order:
///
/// - `NotJson`: `serde_json` reads no value from the bytes, which is also so past 127 objects and arrays in one another;
/// - `NotWhole`: the value holds another number, as `1.5`, `1.0`, `1e2` or `-0`;
/// - `TooDeep`: objects and arrays nest more than 100 deep.
///
/// The other error is want of memory. Time and memory grow as the bytes do: `serde_json` reads the text once, its texts
/// and names are moved into the term, and each list is allocated once.
pub fn read_term(alloc: Global, bytes: &[u8]) -> Result<Term, TermFault>
    ensures ok { IfOk result (λ t. reading bytes.now ≡ Ok (json t)) }
    ensures err { IfErr result (λ e. e ≢ TermFault.NoMemory → reading bytes.now ≡ Err e) }
{
    let value = match Value::from_slice(alloc, bytes) {
        Ok(value) => value,
        Err(error) => {
            if error.is_memory() {
                return Err(TermFault::NoMemory);
            }
            return Err(TermFault::NotJson);
        }
    };
    let term = convert(alloc, value)?;
    if depth_within(&term, DEPTH_LIMIT) {
        Ok(term)
    } else {
        Err(TermFault::TooDeep)
    }
}

// The value as a term. Its texts are moved.
#[cycle(convert)]
fn convert(alloc: Global, value: Value) -> Result<Term, TermFault>
    ensures ok { IfOk result (λ t. value_of (view value) ≡ Some (json t)) }
    ensures err { IfErr result (λ e. ((e ≡ TermFault.NotWhole) × (value_of (view value) ≡ None))
        ⊎ (e ≡ TermFault.NoMemory)) }
{
    match value {
        Value::Null => Ok(Term::Null),
        Value::Bool(b) => { if b { Ok(Term::True) } else { Ok(Term::False) } }
        Value::Number(number) => match number.as_i64() {
            Some(n) => Ok(Term::Int(n)),
            None => Err(TermFault::NotWhole),
        },
        Value::String(text) => Ok(Term::Text(Chars::new(text))),
        Value::Array(values) => Ok(Term::Array(convert_items(alloc, values)?)),
        Value::Object(map) => Ok(Term::Object(convert_members(alloc, map)?)),
    }
}

#[cycle(convert)]
fn convert_items(alloc: Global, values: Vec<Value>) -> Result<Terms, TermFault>
    ensures ok { IfOk result (λ ts. items_value_of (items_view values.items) ≡ Some (items_of ts)) }
    ensures err { IfErr result (λ e. ((e ≡ TermFault.NotWhole)
        × (items_value_of (items_view values.items) ≡ None)) ⊎ (e ≡ TermFault.NoMemory)) }
{
    let mut terms = Terms::with_capacity(alloc, values.len())?;
    for value in values {
        terms.push(convert(alloc, value)?)?;
    }
    Ok(terms)
}

#[cycle(convert)]
fn convert_members(alloc: Global, map: Map<String, Value>) -> Result<Members, TermFault>
    ensures ok { IfOk result (λ ms. members_value_of (members_view map.entries) ≡ Some
        (members_of ms)) }
    ensures err { IfErr result (λ e. ((e ≡ TermFault.NotWhole)
        × (members_value_of (members_view map.entries) ≡ None)) ⊎ (e ≡ TermFault.NoMemory)) }
{
    let mut members = Members::with_capacity(alloc, map.len().saturating_add(1))?;
    for (name, value) in map {
        let term = convert(alloc, value)?;
        members.push(Chars::new(name), term)?;
    }
    Ok(members)
}
