//! Laws of replacements. Each holds for all values, and its function does nothing.

ghost use Rattle.row_exchange.specs.Laws.{ReplacementsAreUpdates, ReplacementsGoInBatches, ReplacementsGoInPages, ReplacementsOfNothing};

/// A replacement of the rows of all documents that were written since a sequence is an update from there.
pub fn replacements_are_updates()
    ensures { ReplacementsAreUpdates }
{}

/// A replacement may be made in batches, so the writes since a sequence may be taken page by page, beginning with none.
pub fn replacements_go_in_batches()
    ensures batches { ReplacementsGoInBatches }
    ensures pages { ReplacementsGoInPages }
    ensures nothing { ReplacementsOfNothing }
{}
