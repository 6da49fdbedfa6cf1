//! Reading a query.

ghost use Rattle.std.specs.Prelude.{◌≡◌, IfOk, option_map, map, codes};
ghost use Rattle.json_terms.specs.Find.{member_of};
ghost use Rattle.json_terms.specs.Seen.{json};
ghost use Rattle.query_args.specs.Query as spec;
ghost use Rattle.query_args.specs.Faults.{query_fault, Finds};

use crate::check::{check_query, is_false, is_reduced, is_true, is_whole, level_of};
use crate::fault::QueryFault;
use crate::parameters::count_of;
use crate::query::{Edge, Query, Target};
use json_terms::{Chars, NoMemory, Term, Terms, copy_term, member};
use raw_collation::Level;
use std::alloc::Global;

/// What a query asks for, or the first fault of it, by CouchDB's view API. A term that is no object counts as one without
/// parameters. Want of memory may come at any time.
pub fn read_query(alloc: Global, query: &Term, target: Target) -> Result<Query, QueryFault>
    ensures fault { Finds (query_fault target (json query.now)) result }
    ensures query { IfOk result (λ read. read ≡ spec.query_of target (json query.now)) }
{
    check_query(alloc, query, target)?;
    Ok(read_parts(alloc, query, target)?)
}

/// The parts of a query.
fn read_parts(alloc: Global, query: &Term, target: Target) -> Result<Query, NoMemory>
    ensures { IfOk result (λ read. read ≡ spec.query_of target (json query.now)) }
{
    let update = !is_false(member(query, "update"));
    Ok(Query {
        start: read_start(alloc, query)?,
        end: read_end(alloc, query)?,
        keys: read_keys(alloc, query)?,
        descending: is_true(member(query, "descending")),
        skip: read_count(query, "skip").unwrap_or(0),
        limit: read_count(query, "limit"),
        reduced: is_reduced(query, target),
        level: read_level(query),
        update,
        show_seq: !update || is_true(member(query, "update_seq")),
    })
}

fn read_start(alloc: Global, query: &Term) -> Result<Option<Edge>, NoMemory>
    ensures { IfOk result (λ start. start ≡ spec.start_of (json query.now)) }
{
    let key = key_or(query, "startkey");
    read_edge(alloc, key, read_id(query, "startkey_docid"), true)
}

fn read_end(alloc: Global, query: &Term) -> Result<Option<Edge>, NoMemory>
    ensures { IfOk result (λ end. end ≡ spec.end_of (json query.now)) }
{
    let key = key_or(query, "endkey");
    let inclusive = !is_false(member(query, "inclusive_end"));
    read_edge(alloc, key, read_id(query, "endkey_docid"), inclusive)
}

/// The `key`, and where there is none the bound with this name.
fn key_or<'a>(query: &'a Term, bound: &str) -> Option<&'a Term>
    ensures { option_map (λ t. json t.now) result
        ≡ spec.key_or (member_of (codes "key") (json query.now)) (member_of bound.now (json query.now)) }
{
    match member(query, "key") {
        Some(key) => Some(key),
        None => member(query, bound),
    }
}

fn read_id<'a>(query: &'a Term, name: &str) -> Option<&'a Chars>
    ensures { option_map (λ c. c.now) result ≡ spec.id_of name.now (json query.now) }
{
    match member(query, name) {
        Some(Term::Text(id)) => Some(id),
        _ => None,
    }
}

fn read_edge(
    alloc: Global,
    key: Option<&Term>,
    id: Option<&Chars>,
    inclusive: bool,
) -> Result<Option<Edge>, NoMemory>
    ensures { IfOk result (λ edge. edge ≡ spec.edge_at (option_map (λ t. json t.now) key.entry)
        (option_map (λ c. c.now) id.entry) inclusive) }
{
    let Some(key) = key else {
        return Ok(None);
    };
    let key = copy_term(alloc, key)?;
    let id = copy_id(alloc, id)?;
    Ok(Some(Edge { key, id, inclusive }))
}

fn copy_id(alloc: Global, id: Option<&Chars>) -> Result<Option<Chars>, NoMemory>
    ensures { IfOk result (λ copy. copy ≡ option_map (λ c. c.now) id.entry) }
{
    match id {
        Some(id) => Ok(Some(id.copy(alloc)?)),
        None => Ok(None),
    }
}

fn read_keys(alloc: Global, query: &Term) -> Result<Option<Terms>, NoMemory>
    ensures { IfOk result (λ keys. keys ≡ spec.keys_of (json query.now)) }
{
    let Some(Term::Array(keys)) = member(query, "keys") else {
        return Ok(None);
    };
    Ok(Some(copy_keys(alloc, keys.as_slice())?))
}

fn copy_keys(alloc: Global, keys: &[Term]) -> Result<Terms, NoMemory>
    ensures { IfOk result (λ copies. copies ≡ map json keys.now) }
{
    let mut copies = Terms::with_capacity(alloc, keys.len())?;
    for key in keys {
        copies.push(copy_term(alloc, key)?)?;
    }
    Ok(copies)
}

fn read_count(query: &Term, name: &str) -> Option<u64>
    ensures { result ≡ spec.count_of name.now (json query.now) }
{
    count_of(member(query, name)?)
}

fn read_level(query: &Term) -> Level
    ensures { result ≡ spec.grouping_of (json query.now) }
{
    if is_whole(query) {
        return Level::Whole;
    }
    match level_of(query) {
        0 => Level::All,
        level => Level::First(level),
    }
}
