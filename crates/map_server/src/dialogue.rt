//! A session that answers the lines of a run.

ghost use Rattle.std.specs.Prelude.{IfOk, [], ◌≡◌};
ghost use Rattle.view_ports.specs.Functions.{line_limit as longest_line};
ghost use Rattle.map_server.specs.Serving.{AnswersLine};

use crate::session::Session;
use json_terms::NoMemory;
use line_loop::Responder;
use std::alloc::Global;

/// The session, and its answer to the last line.
#[derive(Drop)]
pub struct Dialogue {
    alloc: Global,
    session: Session,
    text: Vec<u8>,
}

impl Dialogue {
    /// A dialogue in which no line was answered yet. The one error is want of memory.
    pub fn open(alloc: Global) -> Result<Dialogue, NoMemory>
        ensures { IfOk result (λ dialogue. dialogue.session ≡ []) }
    {
        Ok(Dialogue {
            alloc,
            session: Session::new(alloc)?,
            text: Vec::new(alloc),
        })
    }
}

impl Responder for Dialogue {
    type Error = NoMemory;

    ghost line_limit = { longest_line };

    ghost is_ready = { λ dialogue. Unit {0} };

    ghost text = { λ dialogue. dialogue.text.items };

    ghost answers = { λ before line after.
        AnswersLine before.session (record { line = line; text = after.text.items }) after.session };

    ghost stops = { λ before line error after. Unit {0} };

    fn answer(&mut self, line: &[u8]) -> Result<(), NoMemory> {
        self.text.clear();
        self.session.step(self.alloc, line, &mut self.text)?;
        self.text.push(b'\n')?;
        Ok(())
    }

    fn text(&self) -> &[u8] {
        &self.text
    }
}
