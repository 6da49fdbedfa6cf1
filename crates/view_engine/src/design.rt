//! Designs of stored documents.

ghost use Rattle.std.specs.Prelude.{IfOk};
ghost use Rattle.json_terms.specs.Seen.{json};
ghost use Rattle.design_docs.specs.Design.{IsDesignOf};
ghost use Rattle.design_docs.specs.Faults.{HasDesign};

use design_docs::{Design, DesignFault, read_design};
use json_terms::{NoMemory, Term};
use std::alloc::Global;

/// The design of a document that has one.
pub(crate) fn design_of(alloc: Global, document: &Term) -> Result<Design, NoMemory>
    requires { HasDesign (json document.now) }
    ensures { IfOk result (λ design. IsDesignOf (json document.now) design) }
{
    match read_design(alloc, document) {
        Ok(design) => Ok(design),
        Err(DesignFault::NoMemory) => Err(NoMemory),
        Err(_fault) => unreachable!(),
    }
}
