//! The signature of a design.

ghost use Rattle.std.specs.Prelude.{◌≡◌, IfOk};
ghost use Rattle.json_terms.specs.Json.{Json};
ghost use Rattle.json_terms.specs.Seen.{json};
ghost use Rattle.design_docs.specs.Design.{IsDesignOf};
ghost use Rattle.view_signature.specs.Signature as spec;

use design_docs::Design;
use hex::encode_to_slice;
use json_terms::{NoMemory, write_term};
use md5::{Digest, Md5};
use std::alloc::Global;

/// Room for the text of most designs, in bytes.
const USUAL_SIZE: usize = 512;

/// The signature of a design. The one error is want of memory: it takes as much as the design's text has bytes.
pub fn signature(alloc: Global, design: &Design) -> Result<[u8; 32], NoMemory>
    ensures digest { IfOk result (λ digits. digits ≡ spec.digest_of (json design.now.term)) }
    ensures document { IfOk result (λ digits. (document : Json) → IsDesignOf document design.now
        → digits ≡ spec.signature_of document) }
{
    let mut text = Vec::with_capacity(alloc, USUAL_SIZE)?;
    write_term(alloc, &design.term, &mut text)?;
    let mut digits = [0; 32];
    encode_to_slice(Md5::digest(text.as_slice()), &mut digits).unwrap();
    Ok(digits)
}
