//! Texts, and comparing them.

use json_terms::{NoMemory, Term, write_term};
use std::alloc::Global;
use std::test::Fail;

/// The term as a text.
pub fn text_of(alloc: Global, term: &Term) -> Result<String, Fail> {
    let mut text = Vec::new(alloc);
    write_term(alloc, term, &mut text)?;
    Ok(String::from_utf8(text)?)
}

/// The text with so many copies of `open` before it and of `close` behind it.
pub fn nested(
    alloc: Global,
    depth: usize,
    open: &str,
    inside: &str,
    close: &str,
) -> Result<String, NoMemory> {
    let mut text = String::new(alloc);
    for _ in 0..depth {
        text.push_str(open)?;
    }
    text.push_str(inside)?;
    for _ in 0..depth {
        text.push_str(close)?;
    }
    Ok(text)
}

/// Fails the test where another text was given for what stands at `at`.
pub fn same_text(given: Result<String, Fail>, want: &str, at: &str) -> Result<(), Fail> {
    let given = given?;
    if given.as_str() != want {
        return Err(Fail::new(format_args!("{at}: {given:?} is given for {want:?}")));
    }
    Ok(())
}
