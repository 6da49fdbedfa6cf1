//! Looking into a term. Nothing here takes memory.

ghost use Rattle.std.specs.Prelude.{◌≡◌, ◌≤◌, ◌↔◌, IsTrue, option_map};
ghost use Rattle.json_terms.specs.Json.{depth, items_of, items_depth, members_of, members_depth};
ghost use Rattle.json_terms.specs.Find.{find, member_of};
ghost use Rattle.json_terms.specs.Seen.{json, pair_of};
ghost use Rattle.std.specs.Prelude.{map};

use crate::term::{Member, Term};

/// The value of the member with this name. There is none where the object has no such member, and where the term is no
/// object. It goes over the names in turn.
pub fn member<'a>(term: &'a Term, name: &str) -> Option<&'a Term>
    ensures { option_map (λ t. json t.now) result ≡ member_of name.now (json term.now) }
{
    let Term::Object(members) = term else {
        return None;
    };
    for member in members.as_slice() {
        if member.name.as_str() == name {
            return Some(&member.value);
        }
    }
    None
}

impl Term {
    ghost use Rattle.std.specs.Prelude.{◌≡◌, option_map, map};
    ghost use Rattle.json_terms.specs.Json.{items_of};
    ghost use Rattle.json_terms.specs.Kinds.{items_in, text_in};
    ghost use Rattle.json_terms.specs.Seen.{json};

    /// The text, where the term is one.
    pub fn as_text(&self) -> Option<&str>
        ensures { option_map (λ t. t.now) result ≡ text_in (json self.now) }
    {
        match self {
            Term::Text(chars) => Some(chars.as_str()),
            _ => None,
        }
    }

    /// The elements, where the term is an array.
    pub fn as_array(&self) -> Option<&[Term]>
        ensures { option_map (λ ts. items_of (map json ts.now)) result ≡ items_in (json self.now) }
    {
        match self {
            Term::Array(terms) => Some(terms.as_slice()),
            _ => None,
        }
    }
}

/// Whether objects and arrays nest at most `limit` deep. It stops at the first that is deeper.
#[cycle(depth)]
pub fn depth_within(term: &Term, limit: u32) -> bool
    ensures { IsTrue result ↔ (depth (json term.now) ≤ limit) }
{
    match term {
        Term::Array(terms) => limit > 0 && terms_within(terms.as_slice(), limit - 1),
        Term::Object(members) => limit > 0 && members_within(members.as_slice(), limit - 1),
        _ => true,
    }
}

#[cycle(depth)]
fn terms_within(terms: &[Term], limit: u32) -> bool
    ensures { IsTrue result ↔ (items_depth (items_of (map json terms.now)) ≤ limit) }
{
    for term in terms {
        if !depth_within(term, limit) {
            return false;
        }
    }
    true
}

#[cycle(depth)]
fn members_within(members: &[Member], limit: u32) -> bool
    ensures { IsTrue result ↔ (members_depth (members_of (map pair_of members.now)) ≤ limit) }
{
    for member in members {
        if !depth_within(&member.value, limit) {
            return false;
        }
    }
    true
}
