//! The answers of a query server, as text. Those that are constants are short enough for a line.

ghost use Rattle.std.specs.Prelude.{◌≤◌, IfOk};
ghost use Rattle.json_terms.specs.Json.{depth, is_true};
ghost use Rattle.json_terms.specs.Reading.{depth_limit};
ghost use Rattle.json_terms.specs.Seen.{json};
ghost use Rattle.view_ports.specs.Commands.{three_strings};
ghost use Rattle.view_ports.specs.Honest.{IsTextOf, Spells, no_compilation, no_command};

use json_terms::{Chars, NoMemory, Term, Terms, write_term};
use std::alloc::Global;

/// `true`.
pub fn true_text(alloc: Global) -> Result<Vec<u8>, NoMemory>
    ensures text { IfOk result (λ text. IsTextOf is_true text.items) }
    ensures short { IfOk result (λ text. Spells text.items is_true) }
{
    answer_text(alloc, &Term::True)
}

/// The answer to a source that doesn't compile: `["error","compilation_error","source"]`.
pub fn compilation_error_text(alloc: Global) -> Result<Vec<u8>, NoMemory>
    ensures text { IfOk result (λ text. IsTextOf no_compilation text.items) }
    ensures short { IfOk result (λ text. Spells text.items no_compilation) }
{
    three_texts(alloc, "error", "compilation_error", "source")
}

/// The answer to a line that is no proper command: `["error","bad_line","line"]`.
pub fn bad_line_text(alloc: Global) -> Result<Vec<u8>, NoMemory>
    ensures text { IfOk result (λ text. IsTextOf no_command text.items) }
    ensures short { IfOk result (λ text. Spells text.items no_command) }
{
    three_texts(alloc, "error", "bad_line", "line")
}

fn three_texts(alloc: Global, first: &str, second: &str, third: &str) -> Result<Vec<u8>, NoMemory>
    ensures { IfOk result (λ text.
        IsTextOf (three_strings first.now second.now third.now) text.items) }
{
    let mut texts = Terms::with_capacity(alloc, 3)?;
    texts.push(Term::Text(Chars::from_text(alloc, first)?))?;
    texts.push(Term::Text(Chars::from_text(alloc, second)?))?;
    texts.push(Term::Text(Chars::from_text(alloc, third)?))?;
    answer_text(alloc, &Term::Array(texts))
}

/// The text of an answer.
pub fn answer_text(alloc: Global, term: &Term) -> Result<Vec<u8>, NoMemory>
    requires { depth (json term.now) ≤ depth_limit }
    ensures { IfOk result (λ text. IsTextOf (json term.now) text.items) }
{
    let mut text = Vec::new(alloc);
    write_term(alloc, term, &mut text)?;
    Ok(text)
}
