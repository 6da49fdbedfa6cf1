//! Taking tokens from the front of those that are left.

ghost use Rattle.std.specs.Prelude.{◌≡◌, None};
ghost use Rattle.map_lang.specs.Tokens.{keyword_of};
ghost use Rattle.map_lang.specs.Readings.{begins_step, ends_block, first_mark, first_keyword, TakesIf, TakesKeywordIf, TakesName};

use crate::token::{Keyword, Mark, Token, keyword_of};
use json_terms::Chars;
use std::collections::VecDeque;

// The mark that stands first.
fn first_mark(tokens: &VecDeque<Token>) -> Option<Mark>
    ensures { result ≡ first_mark tokens.now.items }
{
    match tokens.front() {
        Some(Token::Mark(mark)) => Some(*mark),
        _ => None,
    }
}

/// Takes the mark, if it stands first.
pub fn take(tokens: &mut VecDeque<Token>, mark: Mark) -> bool
    ensures { TakesIf mark result tokens.old.items tokens.new.items }
{
    if first_mark(tokens) != Some(mark) {
        return false;
    }
    let _ = tokens.pop_front();
    true
}

/// Whether a step of a path stands first.
pub fn begins_step(tokens: &VecDeque<Token>) -> bool
    ensures { result ≡ begins_step tokens.now.items }
{
    matches!(first_mark(tokens), Some(Mark::Dot | Mark::OpenBracket))
}

/// Whether a block ends here: at its closing brace, or with the source.
pub fn ends_block(tokens: &VecDeque<Token>) -> bool
    ensures { result ≡ ends_block tokens.now.items }
{
    match tokens.front() {
        None => true,
        Some(Token::Mark(mark)) => *mark == Mark::CloseBrace,
        Some(_) => false,
    }
}

// The keyword that stands first.
fn first_keyword(tokens: &VecDeque<Token>) -> Option<Keyword>
    ensures { result ≡ first_keyword tokens.now.items }
{
    match tokens.front() {
        Some(Token::Word(word)) => keyword_of(word.as_str()),
        _ => None,
    }
}

/// Takes the keyword, if it stands first.
pub fn take_keyword(tokens: &mut VecDeque<Token>, keyword: Keyword) -> bool
    ensures { TakesKeywordIf keyword result tokens.old.items tokens.new.items }
{
    if first_keyword(tokens) != Some(keyword) {
        return false;
    }
    let _ = tokens.pop_front();
    true
}

/// Takes the first token, which is to be the name of a variable.
pub fn take_name(tokens: &mut VecDeque<Token>) -> Option<Chars>
    ensures { TakesName result tokens.old.items tokens.new.items }
{
    match tokens.pop_front() {
        Some(Token::Word(word)) => match keyword_of(word.as_str()) {
            None => Some(word),
            Some(_) => None,
        },
        _ => None,
    }
}
