//! A law of the definitions. The function states it, and does nothing.

ghost use Rattle.map_server.specs.Laws.{FollowsGrammar};

/// The program by which a source's functions are defined is the one that the grammar of the language gives. A source that
/// isn't UTF-8 has none.
pub fn programs_follow_the_grammar()
    ensures { FollowsGrammar }
{}
