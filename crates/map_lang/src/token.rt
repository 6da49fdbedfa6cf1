//! The tokens of a source.

ghost use Rattle.std.specs.Prelude.{◌≡◌};
ghost use Rattle.map_lang.specs.Tokens.{keyword_of};

use json_terms::Chars;

/// A token: what a source is made of, between blanks.
#[derive(Drop)]
pub enum Token {
    /// A word: a letter or `_`, then letters, digits and `_`.
    Word(Chars),
    /// A whole number of 64 bits, as it is printed.
    Integer(i64),
    /// The characters between two `'`.
    Text(Chars),
    /// A mark.
    Mark(Mark),
}

/// A mark that stands between words.
#[derive(Clone, Copy, PartialEq, Eq)]
pub enum Mark {
    Comma,
    Equals,
    Dot,
    OpenBrace,
    CloseBrace,
    OpenBracket,
    CloseBracket,
}

/// A word that is no name of a variable.
#[derive(Clone, Copy, PartialEq, Eq)]
pub enum Keyword {
    Emit,
    If,
    For,
    In,
    True,
    False,
    Null,
}

/// The keyword that a word is. There is none where the word may name a variable.
pub fn keyword_of(word: &str) -> Option<Keyword>
    ensures { result ≡ keyword_of word.now }
{
    if word == "emit" {
        Some(Keyword::Emit)
    } else if word == "if" {
        Some(Keyword::If)
    } else if word == "for" {
        Some(Keyword::For)
    } else if word == "in" {
        Some(Keyword::In)
    } else if word == "true" {
        Some(Keyword::True)
    } else if word == "false" {
        Some(Keyword::False)
    } else if word == "null" {
        Some(Keyword::Null)
    } else {
        None
    }
}
