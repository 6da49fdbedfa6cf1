//! The law of commands. Its function does nothing.

ghost use Rattle.command_words.specs.Laws.{NameOneCommand};

/// Words name one command at most: two that the same words name are of one kind and have the same parts.
pub fn words_name_one_command()
    ensures { NameOneCommand }
{}
