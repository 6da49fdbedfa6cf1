//! Documents that are put: what they must be, and what of them is stored.

ghost use Rattle.std.specs.Prelude.{◌≡◌, ◌≤◌, ◌⊎◌, ◌↔◌, ◌&&◌, not, false, IfOk, IfErr, OnOk, IsTrue, length, map, option_map, codes, bytes_eq, string_bytes};
ghost use Rattle.json_terms.specs.Json.{members_of};
ghost use Rattle.json_terms.specs.Seen.{json, pair_of};
ghost use Rattle.json_terms.specs.Text.{text_of};
ghost use Rattle.design_docs.specs.Documents as ids;
ghost use Rattle.design_docs.specs.Documents.{size_limit};
ghost use Rattle.design_docs.specs.Faults.{HasDesign};
ghost use Rattle.view_ports.specs.Stored as documents;
ghost use Rattle.doc_file.specs.Content as parts;
ghost use Rattle.doc_file.specs.Incoming as spec;
ghost use Rattle.design_docs.specs.Revision as revision;

use crate::fault::DocFault;
use crate::rev::is_revision;
use design_docs::{DESIGN_PREFIX, SIZE_LIMIT, id_of, is_design_id, read_design};
use json_terms::{
    Chars, DOCUMENT_DEPTH, Member, Members, NoMemory, Term, depth_within, member, write_term,
};
use std::alloc::Global;

/// Room for the text of most documents, in bytes.
const USUAL_SIZE: usize = 512;

/// A document that is put.
#[derive(Drop)]
pub(crate) struct Incoming {
    pub id: Chars,
    /// The revision that it names.
    pub given: Option<Chars>,
    /// Whether the put is a deletion.
    pub deletes: bool,
    /// What is stored of it, but for its new revision.
    pub content: Term,
}

impl Incoming {
    ghost use Rattle.std.specs.Prelude.{◌≡◌, Some, None, option_map, if◌then◌else◌};
    ghost use Rattle.json_terms.specs.Seen.{json};

    /// The text of the revision that it names.
    pub(crate) fn given_text(&self) -> Option<&str>
        ensures { option_map (λ text. text.now) result ≡ self.now.given }
    {
        match &self.given {
            Some(given) => Some(given.as_str()),
            None => None,
        }
    }

    /// The id, and what is stored, which for a deletion is nothing.
    pub(crate) fn into_stored(self) -> (Chars, Option<Term>)
        ensures id { result.0 ≡ self.id }
        ensures content { option_map json result.1 ≡ (if self.deletes then None else Some (json self.content)) }
    {
        if self.deletes {
            (self.id, None)
        } else {
            (self.id, Some(self.content))
        }
    }
}

/// Reads a document that is put, or refuses it with the first cause: its id, a member that no document may have, its
/// revision, its size, its depth, its design. Want of memory may come at any time: it takes as much as the document's text has bytes.
pub(crate) fn read_incoming(alloc: Global, document: Term) -> Result<Incoming, DocFault>
    ensures ok { IfOk result (λ incoming. spec.IsReadAs (json document) incoming) }
    ensures err { IfErr result (λ e. spec.IsUnfit (json document) e ⊎ (e ≡ DocFault.NoMemory)) }
{
    if !is_id(id_of(&document)) {
        return Err(DocFault::BadId);
    }
    if let Some(name) = bad_member(&document) {
        return Err(DocFault::BadMember(Chars::from_text(alloc, name)?));
    }
    if !has_revision(&document) {
        return Err(DocFault::BadRev);
    }
    let is_shallow = depth_within(&document, DOCUMENT_DEPTH);
    let id = Chars::from_text(alloc, id_of(&document))?;
    let given = given_revision(alloc, &document)?;
    let deletes = deletes(&document);
    let content = content(alloc, document)?;
    if !is_small(alloc, &content)? {
        return Err(DocFault::TooLarge);
    }
    if !is_shallow {
        return Err(DocFault::TooDeep);
    }
    check_design(alloc, id.as_str(), deletes, &content)?;
    Ok(Incoming {
        id,
        given,
        deletes,
        content,
    })
}

/// Gives the first fault of a content's design, if it has one and is put as a design document.
fn check_design(alloc: Global, id: &str, deletes: bool, content: &Term) -> Result<(), DocFault>
    ensures ok { OnOk result (IsTrue (ids.is_design_id id.now) × (deletes ≡ false)
        → HasDesign (json content.now)) }
    ensures err { IfErr result (λ e. spec.IsBadDesign id.now deletes (json content.now) e
        ⊎ (e ≡ DocFault.NoMemory)) }
{
    if deletes || !is_design_id(id) {
        return Ok(());
    }
    read_design(alloc, content)?;
    Ok(())
}

/// The content with this `_rev`.
pub(crate) fn stored(alloc: Global, content: Term, rev: String) -> Result<Term, NoMemory>
    ensures { IfOk result (λ t. json t ≡ revision.stored_document (json content) (string_bytes rev)) }
{
    let Term::Object(mut members) = content else {
        return Ok(content);
    };
    members.insert(
        Chars::from_text(alloc, "_rev")?,
        Term::Text(Chars::new(rev)),
    )?;
    Ok(Term::Object(members))
}

/// Whether an id is that of a document: it isn't empty, and begins with an underscore only where it is that of a design
/// document with a name.
fn is_id(id: &str) -> bool
    ensures { result ≡ documents.is_id id.now }
{
    if id.is_empty() {
        return false;
    }
    if !is_special(id) {
        return true;
    }
    is_design_id(id) && id.len() > DESIGN_PREFIX.len()
}

/// Whether a name or an id begins with an underscore.
fn is_special(name: &str) -> bool
    ensures { result ≡ ids.is_special name.now }
{
    name.as_bytes().starts_with(b"_")
}

/// The name of the first member that no document may have.
fn bad_member(document: &Term) -> Option<&str>
    ensures { option_map (λ name. name.now) result ≡ spec.bad_member (json document.now) }
{
    match document {
        Term::Object(members) => first_bad(members.as_slice()),
        _ => None,
    }
}

fn first_bad(members: &[Member]) -> Option<&str>
    ensures { option_map (λ name. name.now) result ≡ spec.first_bad (members_of (map pair_of members.now)) }
{
    for member in members {
        let name = member.name.as_str();
        if is_bad(name, &member.value) {
            return Some(name);
        }
    }
    None
}

fn is_bad(name: &str, value: &Term) -> bool
    ensures { result ≡ spec.is_bad name.now (json value.now) }
{
    (is_special(name) && !is_known(name)) || (name == "_deleted" && !is_truth_value(value))
}

fn is_known(name: &str) -> bool
    ensures { result ≡ spec.is_known name.now }
{
    name == "_id" || name == "_rev" || name == "_deleted"
}

fn is_truth_value(value: &Term) -> bool
    ensures { result ≡ spec.is_truth_value (json value.now) }
{
    matches!(value, Term::True | Term::False)
}

/// Whether the `_rev` is absent or has the form of a revision.
fn has_revision(document: &Term) -> bool
    ensures { IsTrue result ↔ spec.HasRevision (json document.now) }
{
    is_revision_in(member(document, "_rev"))
}

fn is_revision_in(revision: Option<&Term>) -> bool
    ensures { IsTrue result ↔ spec.IsRevisionIn (option_map (λ t. json t.now) revision.entry) }
{
    match revision {
        None => true,
        Some(Term::Text(text)) => is_revision(text.as_str()),
        Some(_) => false,
    }
}

/// The text of the `_rev`.
fn given_revision(alloc: Global, document: &Term) -> Result<Option<Chars>, NoMemory>
    ensures { IfOk result (λ given. given ≡ spec.given_revision (json document.now)) }
{
    match member(document, "_rev") {
        Some(Term::Text(text)) => Ok(Some(text.copy(alloc)?)),
        _ => Ok(None),
    }
}

/// Whether the `_deleted` is true.
fn deletes(document: &Term) -> bool
    ensures { result ≡ spec.deletes (json document.now) }
{
    matches!(member(document, "_deleted"), Some(Term::True))
}

/// The document without its `_rev` and `_deleted`.
fn content(alloc: Global, document: Term) -> Result<Term, NoMemory>
    ensures { IfOk result (λ t. json t ≡ parts.content (json document)) }
{
    let Term::Object(members) = document else {
        return Ok(document);
    };
    Ok(Term::Object(kept(alloc, members)?))
}

/// The members but `_rev` and `_deleted`.
fn kept(alloc: Global, members: Members) -> Result<Members, NoMemory>
    ensures { IfOk result (λ left. members_of left ≡ documents.without (codes "_deleted") (documents.without (codes "_rev") (members_of members))) }
{
    members.validity();
    let mut left = Members::with_capacity(alloc, members.len())?;
    for member in members.into_vec() {
        let Member { name, value } = member;
        if !is_kept(name.as_str()) {
            continue;
        }
        left.push(name, value)?;
    }
    Ok(left)
}

fn is_kept(name: &str) -> bool
    ensures { result ≡ (not (bytes_eq name.now (codes "_rev")) && not (bytes_eq name.now (codes "_deleted"))) }
{
    name != "_rev" && name != "_deleted"
}

/// Whether the content's text is short enough.
fn is_small(alloc: Global, content: &Term) -> Result<bool, NoMemory>
    ensures { IfOk result (λ small. IsTrue small ↔ (length (text_of (json content.now)) ≤ size_limit)) }
{
    let mut text = Vec::with_capacity(alloc, USUAL_SIZE)?;
    write_term(alloc, content, &mut text)?;
    Ok(text.len() <= SIZE_LIMIT)
}
