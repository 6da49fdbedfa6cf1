//! What a program says on standard error.

use std::fmt::{self, Display, Formatter, Write};

/// How many characters of a text are shown at most.
const SHOWN: usize = 16_000;

/// The programs that say something.
#[derive(Clone, Copy, Debug, PartialEq, Eq)]
pub enum Program {
    Couchview,
    MapServer,
}

impl Program {
    fn name(self) -> &'static str {
        match self {
            Program::Couchview => "couchview",
            Program::MapServer => "map_server",
        }
    }
}

/// What a program says on standard error, beside its answers: one line each, which begins with the program's name. A line
/// that can't be written is left out, and nothing else comes of it.
#[derive(Clone, Copy)]
pub struct Diagnostics {
    rt: HostRuntime,
    program: Program,
}

impl Diagnostics {
    /// The diagnostics of this program.
    pub fn new(rt: HostRuntime, program: Program) -> Diagnostics {
        Diagnostics { rt, program }
    }

    /// Says one line.
    pub fn say<D: Display + Drop>(&self, what: D) {
        let program = self.program.name();
        let _ = eprintln!(self.rt; "{program}: {what}");
    }
}

/// A text from outside, shown in one line: a character that would move the cursor is shown as an escape or as `?`, and of a
/// long text 16,000 characters are shown.
#[derive(Clone, Copy)]
pub struct Shown<'a>(pub &'a str);

impl Display for Shown<'_> {
    fn fmt<W: fmt::Write>(&self, f: &mut Formatter<W>) -> fmt::Result {
        for character in self.0.chars().take(SHOWN) {
            match character {
                '\n' => f.write_str("\\n")?,
                '\t' => f.write_str("\\t")?,
                '\r' => f.write_str("\\r")?,
                _ if character.is_control() => f.write_char('?')?,
                _ => f.write_char(character)?,
            }
        }
        if self.0.len() > SHOWN && self.0.chars().nth(SHOWN).is_some() {
            f.write_str("...")?;
        }
        Ok(())
    }
}
