//! A law of the definitions. The function states it, and does nothing.

ghost use Rattle.fresh_view.specs.Laws.{FreshRowsAreTheViews};

/// The rows that mapping the last writes of a history gives are those of the view over it.
pub fn fresh_rows_are_the_views()
    ensures { FreshRowsAreTheViews }
{}
