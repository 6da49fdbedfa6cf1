//! The laws of the definitions. Each function states some, and does nothing.

ghost use Rattle.json_terms.specs.Json.{Json};
ghost use Rattle.view_signature.specs.Signature.{HaveEqualSignatures};

/// Documents with equal languages and equal views have equal signatures, whatever else stands in them.
pub fn equal_views_have_equal_signatures()
    ensures { (one other : Json) → HaveEqualSignatures one other }
{}
