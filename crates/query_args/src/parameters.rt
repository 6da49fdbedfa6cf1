//! The parameters of a query: their names, and which values each may have. Nothing here takes memory.

ghost use Rattle.std.specs.Prelude.{◌≡◌};
ghost use Rattle.json_terms.specs.Seen.{json};
ghost use Rattle.query_args.specs.Parameters as spec;

use crate::query::{LEVEL_LIMIT, Target};
use json_terms::Term;

/// The kinds of values that parameters have.
#[derive(Clone, Copy)]
pub(crate) enum Kind {
    /// Any term.
    Any,
    List,
    Text,
    /// A whole number, 0 or more.
    Count,
    /// Such a number up to the greatest level of groups.
    Level,
    /// True or false.
    Switch,
}

/// Whether a query of this target may have a parameter of this name.
pub(crate) fn is_allowed(target: Target, name: &str) -> bool
    ensures { result ≡ spec.is_allowed target name.now }
{
    match target {
        Target::AllDocs => is_list_name(name),
        Target::View(_) | Target::Cursor(_) => kind_of(name).is_some(),
    }
}

fn is_list_name(name: &str) -> bool
    ensures { result ≡ spec.is_list_name name.now }
{
    match name {
        "key" | "startkey" | "endkey" | "inclusive_end" => true,
        "descending" | "skip" | "limit" => true,
        _ => false,
    }
}

/// The kind of the values of the parameter with this name, where there is one.
fn kind_of(name: &str) -> Option<Kind>
    ensures { result ≡ spec.kind_of name.now }
{
    match name {
        "key" | "startkey" | "endkey" => Some(Kind::Any),
        "keys" => Some(Kind::List),
        "startkey_docid" | "endkey_docid" => Some(Kind::Text),
        "skip" | "limit" => Some(Kind::Count),
        "group_level" => Some(Kind::Level),
        "inclusive_end" | "descending" => Some(Kind::Switch),
        "reduce" | "group" => Some(Kind::Switch),
        "update" | "update_seq" => Some(Kind::Switch),
        _ => None,
    }
}

/// Whether a value is one that the parameter with this name may have.
pub(crate) fn may_have(name: &str, value: &Term) -> bool
    ensures { result ≡ spec.may_have name.now (json value.now) }
{
    match kind_of(name) {
        Some(kind) => is_of(kind, value),
        None => false,
    }
}

fn is_of(kind: Kind, value: &Term) -> bool
    ensures { result ≡ spec.is_of kind (json value.now) }
{
    match kind {
        Kind::Any => true,
        Kind::List => matches!(value, Term::Array(_)),
        Kind::Text => matches!(value, Term::Text(_)),
        Kind::Count => count_of(value).is_some(),
        Kind::Level => level_in(value).is_some(),
        Kind::Switch => matches!(value, Term::True | Term::False),
    }
}

/// The number, where a value is a whole one of 0 or more.
pub(crate) fn count_of(value: &Term) -> Option<u64>
    ensures { result ≡ spec.count_in (json value.now) }
{
    match value {
        Term::Int(n) => u64::try_from(*n).ok(),
        _ => None,
    }
}

/// The number, where a value is a level of groups.
pub(crate) fn level_in(value: &Term) -> Option<u32>
    ensures { result ≡ spec.level_in (json value.now) }
{
    match value {
        Term::Int(n) => {
            let n = u32::try_from(*n).ok()?;
            if n <= LEVEL_LIMIT { Some(n) } else { None }
        }
        _ => None,
    }
}
