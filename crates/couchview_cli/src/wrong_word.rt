//! Why a command isn't done.
ghost use Rattle.std.specs.Prelude.{◌↔◌, IsNone};
ghost use Rattle.couchview_cli.specs.Command.{IsBuilt};

use crate::command::{LANGUAGES, is_built, is_named, is_path};
use child_pool::language_word;
use command_words::Command;
use real_ports::Shown;
use std::fmt::{self, Display, Formatter};

/// Why a command isn't done, with the word that stands in the way.
#[derive(Clone, Copy)]
pub enum WrongWord<'a> {
    /// A width other than 1 isn't built yet.
    Width(u32),
    /// More than eight languages are named.
    TooMany(&'a str),
    /// A word has no language before a `=`.
    Form(&'a str),
    /// A path begins with `builtin:` and is no server of this program.
    BuiltIn(&'a str),
    /// A language is named twice.
    Twice(&'a str),
}

impl Display for WrongWord<'_> {
    fn fmt<W: fmt::Write>(&self, f: &mut Formatter<W>) -> fmt::Result {
        let (word, why) = match self {
            WrongWord::Width(width) => return write!(f, "a width of {width} isn't built yet"),
            WrongWord::TooMany(word) => (word, "is one too many: 8 words LANG=PATH may be given"),
            WrongWord::Form(word) => (word, "has not the form LANG=PATH"),
            WrongWord::BuiltIn(word) => (word, "names no server of this program"),
            WrongWord::Twice(word) => (word, "names a language that was named before"),
        };
        let word = Shown(word);
        write!(f, "the word '{word}' {why}")
    }
}

/// Why the command isn't done. `None` where it is.
pub fn wrong_word(command: &Command) -> Option<WrongWord<'_>>
    ensures { IsNone result ↔ IsBuilt command.now }
{
    if is_built(command) {
        return None;
    }
    match command {
        Command::Serve { width, words } => {
            Some(wrong_language(words).unwrap_or(WrongWord::Width(*width)))
        }
        // A load is built, so this isn't reached.
        Command::Load { docs: _, number: _ } => None,
    }
}

/// The first of the words that may not stand behind `serve`, if there is one.
fn wrong_language(words: &[String]) -> Option<WrongWord<'_>> {
    for (place, word) in words.iter().enumerate() {
        let word = word.as_str();
        let Some((language, path)) = language_word(word) else {
            return Some(WrongWord::Form(word));
        };
        if !is_path(path) {
            return Some(WrongWord::BuiltIn(word));
        }
        if is_named(&words[..place], language) {
            return Some(WrongWord::Twice(word));
        }
        if place >= LANGUAGES {
            return Some(WrongWord::TooMany(word));
        }
    }
    None
}
