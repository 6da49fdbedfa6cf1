//! Bodies: the spellings of stored documents.

ghost use Rattle.std.specs.Prelude.{◌≡◌, ◌↔◌, None, Ok, IfOk, IfSome, IsTrue};
ghost use Rattle.json_terms.specs.Json.{Json};
ghost use Rattle.json_terms.specs.Seen.{json};
ghost use Rattle.term_codec.specs.Spelling.{spelling};
ghost use Rattle.design_docs.specs.Faults.{HasDesign};
ghost use Rattle.doc_file.specs.Held.{IsBodyOf, IsDocument, IsObject};

use design_docs::{DesignFault, is_design_id, read_design};
use json_terms::{DOCUMENT_DEPTH, NoMemory, Term, depth_within};
use std::alloc::Global;
use term_codec::{CodecFault, decode_term};

/// The document of an id that these bytes spell, whole, or none where they spell no object of depth 64 at most, or, under the
/// id of a design document, one that has no design. The one error is want of memory.
pub fn read_body(alloc: Global, id: &str, bytes: &[u8]) -> Result<Option<Term>, NoMemory>
    ensures some { IfOk result
        (λ found. IfSome found (λ t. IsBodyOf id.now (json t) × (bytes.now ≡ spelling (json t)))) }
    ensures none { result ≡ Ok None → (t : Json) → IsBodyOf id.now t → bytes.now ≡ spelling t → ⊥ }
{
    match read_document(alloc, bytes)? {
        Some(document) => {
            if !is_design_id(id) {
                return Ok(Some(document));
            }
            if !has_design(alloc, &document)? {
                return Ok(None);
            }
            Ok(Some(document))
        }
        None => Ok(None),
    }
}

/// The document that these bytes spell, whole, or none where they spell no object of depth 64 at most.
fn read_document(alloc: Global, bytes: &[u8]) -> Result<Option<Term>, NoMemory>
    ensures some { IfOk result
        (λ found. IfSome found (λ t. IsDocument (json t) × (bytes.now ≡ spelling (json t)))) }
    ensures none { result ≡ Ok None → (t : Json) → IsDocument t → bytes.now ≡ spelling t → ⊥ }
    ensures only { IfOk result (λ found. IfSome found
        (λ t. (u : Json) → IsDocument u → bytes.now ≡ spelling u → u ≡ json t)) }
{
    match decode_term(alloc, bytes, 0) {
        Ok((term, end)) => {
            if end != bytes.len() {
                return Ok(None);
            }
            if !is_object(&term) {
                return Ok(None);
            }
            if !depth_within(&term, DOCUMENT_DEPTH) {
                return Ok(None);
            }
            Ok(Some(term))
        }
        Err(CodecFault::NotATerm(_)) => Ok(None),
        Err(CodecFault::NoMemory) => Err(NoMemory),
    }
}

fn is_object(term: &Term) -> bool
    ensures { IsTrue result ↔ IsObject (json term.now) }
{
    match term {
        Term::Object(_) => true,
        _ => false,
    }
}

/// Whether a document has a design.
fn has_design(alloc: Global, document: &Term) -> Result<bool, NoMemory>
    ensures { IfOk result (λ has. IsTrue has ↔ HasDesign (json document.now)) }
{
    match read_design(alloc, document) {
        Ok(_design) => Ok(true),
        Err(DesignFault::NoMemory) => Err(NoMemory),
        Err(_fault) => Ok(false),
    }
}
