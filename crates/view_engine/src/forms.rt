//! Recognising requests: one function for each number of members.

ghost use Rattle.std.specs.Prelude.{◌≡◌, ◌&&◌, ℕ, List, Option, option_map, unwrap_or, bytes_eq, length, vec_len, [], ◌∷◌, IfNone, IfSome, ◌≢◌};
ghost use Rattle.json_terms.specs.Json.{Json, list_of_members};
ghost use Rattle.json_terms.specs.Seen.{json};
ghost use Rattle.json_terms.specs.Kinds.{text_in, members_in};
ghost use Rattle.view_engine.specs.Kinds.{count_in};
ghost use Rattle.view_engine.specs.Requests.{object_in, cursor_name_in, view_name_in, on_true, form_of_one, form_of_two, form_of_three, form_of};

use crate::request::{Request, ViewName};
use json_terms::{Chars, Member, Members, Term};

/// The request that a term is, if it has one of the forms.
pub fn recognize(term: Term) -> Option<Request>
    ensures { result ≡ form_of (json term) }
{
    let Term::Object(members) = term else {
        return None;
    };
    let mut members = members.into_vec();
    let third = members.pop()?;
    let Some(second) = members.pop() else {
        return recognize_one(third);
    };
    let Some(first) = members.pop() else {
        return recognize_two(second, third);
    };
    if !members.is_empty() {
        return None;
    }
    recognize_three(first, second, third)
}

fn recognize_one(member: Member) -> Option<Request>
    ensures { result ≡ form_of_one member.name (json member.value) }
{
    let Member { name, value } = member;
    match name.as_str() {
        "all_docs" => Some(Request::AllDocs {
            query: object(value)?,
        }),
        "cleanup" => only_true(value, Request::Cleanup),
        "close" => Some(Request::Close { name: text(value)? }),
        "compact" => Some(Request::Compact {
            design: text(value)?,
        }),
        "compact_docs" => only_true(value, Request::CompactDocs),
        "delete" => Some(Request::Delete {
            id: text(value)?,
            rev: None,
        }),
        "get" => Some(Request::Get { id: text(value)? }),
        "info" => only_true(value, Request::Info),
        "put" => Some(Request::Put {
            document: object(value)?,
        }),
        "view" => Some(Request::View {
            view: view_name(value)?,
            query: None,
        }),
        _ => None,
    }
}

fn recognize_two(first: Member, second: Member) -> Option<Request>
    ensures { result ≡ form_of_two first.name (json first.value) second.name (json second.value) }
{
    if are_named(&first, "compact_step", &second, "rows") {
        let design = text(first.value)?;
        let rows = count(second.value, 10_000)?;
        Some(Request::CompactStep { design, rows })
    } else if are_named(&first, "count", &second, "next") {
        let count = count(first.value, 1_000)?;
        let name = text(second.value)?;
        Some(Request::Next { name, count })
    } else if are_named(&first, "cursor", &second, "view") {
        let name = cursor_name(first.value)?;
        let view = view_name(second.value)?;
        Some(Request::Cursor {
            name,
            view,
            query: None,
        })
    } else if are_named(&first, "delete", &second, "rev") {
        let id = text(first.value)?;
        let rev = text(second.value)?;
        Some(Request::Delete { id, rev: Some(rev) })
    } else if are_named(&first, "query", &second, "view") {
        let query = object(first.value)?;
        let view = view_name(second.value)?;
        Some(Request::View {
            view,
            query: Some(query),
        })
    } else {
        None
    }
}

fn recognize_three(first: Member, second: Member, third: Member) -> Option<Request>
    ensures { result ≡ form_of_three first.name (json first.value) second.name
        (json second.value) third.name (json third.value) }
{
    if !are_named(&first, "cursor", &second, "query") || !is_named(&third, "view") {
        return None;
    }
    let name = cursor_name(first.value)?;
    let query = object(second.value)?;
    let view = view_name(third.value)?;
    Some(Request::Cursor {
        name,
        view,
        query: Some(query),
    })
}

fn is_named(member: &Member, name: &str) -> bool
    ensures { result ≡ bytes_eq member.now.name name.now }
{
    member.name.as_str() == name
}

fn are_named(first: &Member, first_name: &str, second: &Member, second_name: &str) -> bool
    ensures { result ≡ (bytes_eq first.now.name first_name.now && bytes_eq second.now.name second_name.now) }
{
    is_named(first, first_name) && is_named(second, second_name)
}

fn text(value: Term) -> Option<Chars>
    ensures { result ≡ text_in (json value) }
{
    match value {
        Term::Text(text) => Some(text),
        _ => None,
    }
}

fn object(value: Term) -> Option<Members>
    ensures { result ≡ object_in (json value) }
{
    match value {
        Term::Object(members) => Some(members),
        _ => None,
    }
}

fn only_true(value: Term, request: Request) -> Option<Request>
    ensures { result ≡ on_true request (json value) }
{
    match value {
        Term::True => Some(request),
        _ => None,
    }
}

/// A whole number from 1 to `most`.
fn count(value: Term, most: u32) -> Option<u32>
    ensures { result ≡ count_in most (json value) }
{
    match value {
        Term::Int(n) => {
            let n = u32::try_from(n).ok()?;
            if 1 <= n && n <= most { Some(n) } else { None }
        }
        _ => None,
    }
}

/// A cursor's name has 1 to 32 bytes.
fn cursor_name(value: Term) -> Option<Chars>
    ensures { result ≡ cursor_name_in (json value) }
{
    let name = text(value)?;
    let len = name.as_str().len();
    if 1 <= len && len <= 32 {
        Some(name)
    } else {
        None
    }
}

/// An array of a design document's name and a view's.
fn view_name(value: Term) -> Option<ViewName>
    ensures { result ≡ view_name_in (json value) }
{
    let Term::Array(names) = value else {
        return None;
    };
    let Some((design, view)) = pair(names.into_vec()) else {
        return None;
    };
    let design = text(design)?;
    let view = text(view)?;
    Some(ViewName { design, view })
}

/// The two items, where there are exactly two.
fn pair<T: Drop>(mut items: Vec<T>) -> Option<(T, T)>
    ensures two { IfSome result (λ both. items.items ≡ both.0 ∷ both.1 ∷ []) }
    ensures other { IfNone result (length items.items ≢ 2) }
{
    if items.len() != 2 {
        return None;
    }
    let second = items.pop()?;
    let first = items.pop()?;
    Some((first, second))
}
