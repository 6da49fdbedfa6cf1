//! The ids of documents, and how large these may be. Nothing here takes memory.

ghost use Rattle.std.specs.Prelude.{◌≡◌};
ghost use Rattle.json_terms.specs.Seen.{json};
ghost use Rattle.design_docs.specs.Documents as spec;

use json_terms::{Term, member};

/// The greatest length of a document's text, in bytes.
pub const SIZE_LIMIT: usize = 524_288;

/// What the ids of design documents begin with.
pub const DESIGN_PREFIX: &str = "_design/";

/// The text of a document's `_id`, or the empty text where it is none.
pub fn id_of(document: &Term) -> &str
    ensures { result.now ≡ spec.id_of (json document.now) }
{
    match member(document, "_id") {
        Some(Term::Text(id)) => id.as_str(),
        _ => "",
    }
}

/// Whether an id is that of a design document.
pub fn is_design_id(id: &str) -> bool
    ensures { result ≡ spec.is_design_id id.now }
{
    id.as_bytes().starts_with(DESIGN_PREFIX.as_bytes())
}

/// Whether a name or an id begins with an underscore.
pub fn is_special(name: &str) -> bool
    ensures { result ≡ spec.is_special name.now }
{
    name.as_bytes().starts_with(b"_")
}
