//! Looking for the first fault of a query. Memory is taken for the name in a fault alone.

ghost use Rattle.std.specs.Prelude.{◌≡◌, map, option_map};
ghost use Rattle.json_terms.specs.Json.{members_of};
ghost use Rattle.json_terms.specs.Seen.{json, pair_of};
ghost use Rattle.query_args.specs.Faults as spec;
ghost use Rattle.query_args.specs.Faults.{Finds, ◌or◌};

use crate::fault::QueryFault;
use crate::parameters::{is_allowed, level_in, may_have};
use crate::query::Target;
use json_terms::{Member, Term, member};
use std::alloc::Global;

/// Gives the first fault of a query, if it has one.
pub(crate) fn check_query(alloc: Global, query: &Term, target: Target) -> Result<(), QueryFault>
    ensures { Finds (spec.query_fault target (json query.now)) result }
{
    if let Term::Object(parameters) = query {
        check_names(alloc, parameters.as_slice(), target)?;
        check_values(alloc, parameters.as_slice())?;
    }
    check_keys(query)?;
    check_reduce(query, target)?;
    check_groups(query, target)
}

fn check_names(alloc: Global, parameters: &[Member], target: Target) -> Result<(), QueryFault>
    ensures { Finds (spec.name_fault target (members_of (map pair_of parameters.now))) result }
{
    for parameter in parameters {
        if !is_allowed(target, parameter.name.as_str()) {
            return Err(QueryFault::UnknownName(parameter.name.copy(alloc)?));
        }
    }
    Ok(())
}

fn check_values(alloc: Global, parameters: &[Member]) -> Result<(), QueryFault>
    ensures { Finds (spec.value_fault (members_of (map pair_of parameters.now))) result }
{
    for parameter in parameters {
        if !may_have(parameter.name.as_str(), &parameter.value) {
            return Err(QueryFault::BadValue(parameter.name.copy(alloc)?));
        }
    }
    Ok(())
}

fn check_keys(query: &Term) -> Result<(), QueryFault>
    ensures { Finds (spec.key_fault (json query.now)) result }
{
    let key = is_given(query, "key");
    let keys = is_given(query, "keys");
    let range = is_given(query, "startkey") || is_given(query, "endkey");
    if key && keys || key && range || keys && range {
        return Err(QueryFault::KeyAndKeys);
    }
    Ok(())
}

fn check_reduce(query: &Term, target: Target) -> Result<(), QueryFault>
    ensures { Finds (spec.reduce_fault target (json query.now)) result }
{
    if is_true(member(query, "reduce")) && !has_reduce(target) {
        return Err(QueryFault::ReduceOfMapOnly);
    }
    Ok(())
}

/// Gives the first fault of what is said of groups, of keys and of a cursor beside a reduce.
fn check_groups(query: &Term, target: Target) -> Result<(), QueryFault>
    ensures { Finds (spec.group_fault target (json query.now)
        or spec.keys_fault target (json query.now)
        or spec.cursor_fault target (json query.now)) result }
{
    let reduced = is_reduced(query, target);
    let whole = is_whole(query);
    if (whole || level_of(query) > 0) && !reduced {
        return Err(QueryFault::GroupUnreduced);
    }
    if reduced && is_given(query, "keys") && !whole {
        return Err(QueryFault::KeysNeedGroup);
    }
    if matches!(target, Target::Cursor(_)) && reduced {
        return Err(QueryFault::CursorReduces);
    }
    Ok(())
}

fn is_given(query: &Term, name: &str) -> bool
    ensures { result ≡ spec.is_given name.now (json query.now) }
{
    member(query, name).is_some()
}

/// Whether rows are reduced: there is a reduce, and `reduce` isn't false.
pub(crate) fn is_reduced(query: &Term, target: Target) -> bool
    ensures { result ≡ spec.is_reduced target (json query.now) }
{
    has_reduce(target) && !is_false(member(query, "reduce"))
}

fn has_reduce(target: Target) -> bool
    ensures { result ≡ spec.has_reduce target }
{
    match target {
        Target::AllDocs => false,
        Target::View(reduces) | Target::Cursor(reduces) => reduces,
    }
}

/// Whether rows are grouped by their whole keys.
pub(crate) fn is_whole(query: &Term) -> bool
    ensures { result ≡ spec.is_whole (json query.now) }
{
    is_true(member(query, "group"))
}

/// The level of the groups, and 0 where none is given.
pub(crate) fn level_of(query: &Term) -> u32
    ensures { result ≡ spec.level_of (json query.now) }
{
    match member(query, "group_level") {
        Some(level) => level_in(level).unwrap_or(0),
        None => 0,
    }
}

pub(crate) fn is_true(value: Option<&Term>) -> bool
    ensures { result ≡ spec.is_true_given (option_map (λ t. json t.now) value.entry) }
{
    matches!(value, Some(Term::True))
}

pub(crate) fn is_false(value: Option<&Term>) -> bool
    ensures { result ≡ spec.is_false_given (option_map (λ t. json t.now) value.entry) }
{
    matches!(value, Some(Term::False))
}
