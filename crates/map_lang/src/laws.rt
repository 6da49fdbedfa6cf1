//! The laws of the language. Each function states one, and does nothing.

ghost use Rattle.map_lang.specs.Laws.{ReducesInParts, CompilesOnce, StaysWithinBounds};

/// Rows may be reduced in parts, of which none is empty, and the results of the parts reduced again: this gives what all
/// rows together give. It holds of each reduce, also where a count ends at the greatest `i64`.
pub fn reduce_in_parts()
    ensures { ReducesInParts }
{}

/// A source compiles as one program at most.
pub fn compiles_once()
    ensures { CompilesOnce }
{}

/// What a program emits is 96 deep at most, and all its texts have 1,048,576 bytes at most together, whatever the document.
pub fn runs_stay_within_bounds()
    ensures { StaysWithinBounds }
{}
