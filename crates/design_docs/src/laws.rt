//! The laws of the definitions. Each function states some, and does nothing.

ghost use Rattle.json_terms.specs.Json.{Json, Members};
ghost use Rattle.design_docs.specs.Laws.{AreInOrderOfName, AreFew, ChangesAreNumbered, HasViewsOfNames, IsNoFault, LaterAreListed, MappedAreListed, RevisionLeavesDesign};

/// The views of a design stand in strictly rising byte order of their names, and there are 32 at most.
pub fn views_are_few_and_in_order()
    ensures ordered { (document : Json) → AreInOrderOfName document }
    ensures few { (document : Json) → AreFew document }
{}

/// Among the views of a design each name has the source that stands in the document under it, and no other name has one.
pub fn views_are_found_by_name()
    ensures { (document : Json) → HasViewsOfNames document }
{}

/// Want of memory is no fault of a document.
pub fn want_of_memory_is_no_fault()
    ensures { (document : Json) → IsNoFault document }
{}

/// A document's revision has no part in its design.
pub fn revisions_leave_designs()
    ensures { (members : Members) (revision : Json) → RevisionLeavesDesign members revision }
{}

/// The documents that views map are the same in byte order of id and in the order of their writes.
pub fn mapped_documents_are_listed()
    ensures { MappedAreListed }
{}

/// So are those of them whose last write came after the first so many writes.
pub fn later_documents_are_listed()
    ensures { LaterAreListed }
{}

/// What has changed is the last write of its id, and is listed in the order of the numbers.
pub fn changes_are_numbered()
    ensures { ChangesAreNumbered }
{}
