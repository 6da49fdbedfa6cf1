//! Lines by which a query server says something in place of an answer.

use json_terms::{Chars, Term, read_term};
use std::alloc::Global;

/// What a line that is no answer says: the message of `["log",MESSAGE]` behind `log`, and the reason of
/// `["error","compilation_error",REASON]` or another error behind its name. `None` for any other line, and where memory runs
/// out. Most answers of a query server are told from these by their first two bytes.
pub fn remark(alloc: Global, line: &[u8]) -> Option<(Chars, Chars)> {
    if !may_be_remark(line) {
        return None;
    }
    let term = read_term(alloc, line).ok()?;
    let (name, message) = texts(&term)?;
    Some((
        Chars::from_text(alloc, name).ok()?,
        Chars::from_text(alloc, message).ok()?,
    ))
}

/// Whether the line is an array that begins with a text, as far as its first bytes tell.
fn may_be_remark(line: &[u8]) -> bool {
    let mut visible = line.iter().filter(|byte| !byte.is_ascii_whitespace());
    visible.next() == Some(&b'[') && visible.next() == Some(&b'"')
}

/// The name and the text of a remark.
fn texts(term: &Term) -> Option<(&str, &str)> {
    match term.as_array()? {
        [kind, message] if is_text(kind, "log") => Some(("log", message.as_text()?)),
        [kind, name, reason] if is_text(kind, "error") || is_text(kind, "fatal") => {
            Some((name.as_text()?, reason.as_text()?))
        }
        _ => None,
    }
}

fn is_text(term: &Term, text: &str) -> bool {
    term.as_text() == Some(text)
}
