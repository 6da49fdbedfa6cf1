//! A session that answers lines one after another.

ghost use Rattle.std.specs.Prelude.{◌≡◌, ◌++◌, [], IfOk, OnErr, OnOk};
ghost use Rattle.view_ports.specs.Commands.{command};
ghost use Rattle.map_server.specs.Honesty.{AnswersHonestly};
ghost use Rattle.map_server.specs.Replies.{answer_text, sources_after_line};

use crate::change::Reply;
use crate::pick_session::PickSession;
use json_terms::NoMemory;
use std::alloc::Global;
use std::marker::Model;
use view_ports::{LINE_LIMIT, ServerSession, bad_line_text};

/// A session of the map server, seen by contracts as the list of the sources that were added and not forgotten.
#[derive(Drop)]
pub struct Session {
    pick: PickSession,
}

impl Model for Session {
    ghost use Rattle.std.specs.Prelude.{List, ℕ};
    ghost use Rattle.std.specs.Coded.{coded_list, coded_ℕ};

    ghost Value = { List (List ℕ) };

    ghost coded = { coded_list (coded_list coded_ℕ) };

    ghost view = { λ s. s.pick };
}

impl Session {
    /// A session without functions. The one error is want of memory.
    pub fn new(alloc: Global) -> Result<Session, NoMemory>
        ensures { IfOk result (λ session. session ≡ []) }
    {
        Ok(Session {
            pick: <PickSession as ServerSession>::new(alloc)?,
        })
    }

    /// Answers a line as an honest query server of the language: appends the text of the answer to `out`, without a newline,
    /// and nothing besides. A line that is no proper command, an
    /// empty one too, and one that is longer than 134,217,728 bytes are answered with `["error","bad_line","line"]`. The
    /// one error is want of memory: the session and `out` are then as they were.
    pub fn step(&mut self, alloc: Global, line: &[u8], out: &mut Vec<u8>) -> Result<(), NoMemory>
        ensures honest { OnOk result (AnswersHonestly self.old line.now
            (answer_text self.old line.now) self.new) }
        ensures answer { OnOk result (out.new.items ≡ out.old.items ++ answer_text self.old line.now) }
        ensures sources { OnOk result (self.new ≡ sources_after_line self.old line.now) }
        ensures same { OnErr result (self.new ≡ self.old) }
        ensures unwritten { OnErr result (out.new.items ≡ out.old.items) }
    {
        if line.len() > LINE_LIMIT {
            out.extend_from_slice(&bad_line_text(alloc)?)?;
            return Ok(());
        }
        let Reply { text, change } = self.pick.reply(alloc, line)?;
        let len = out.len();
        out.extend_from_slice(&text)?;
        match self.pick.change(change) {
            Ok(()) => Ok(()),
            Err(NoMemory) => {
                out.truncate(len);
                Err(NoMemory)
            }
        }
    }
}
