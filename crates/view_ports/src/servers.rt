//! Query servers: child processes that run the functions of design documents, a line for a line.

ghost use Rattle.std.specs.Prelude.{◌≡◌, ◌≢◌, ◌<◌, ℕ, List, All, Option, IfOk, is_ok};
ghost use Rattle.view_ports.specs.Faults.{CountsOnly, HasCauseOf};
ghost use Rattle.view_ports.specs.Calls.{Call, child, start, send, receive, stop};
ghost use Rattle.view_ports.specs.Functions.{Functions};
ghost use Rattle.view_ports.specs.Honest.{AnswersChild};
ghost use Rattle.view_ports.specs.Servers.{Goes, line_of};

use crate::servers_fault::ServersFault;
use std::alloc::Global;

/// How many slots there are: eight for maps and one for reduces.
pub const SLOT_COUNT: usize = 9;

/// Query servers, in numbered slots of which each has one child at most. A child reads lines and writes an answer to
/// each, with log lines before it (CouchDB documentation, "Query Server Protocol").
///
/// A call that fails ends what is known of the slot's child until it is started again, and a start that fails leaves none.
pub trait Servers {
    /// Whether these may be the calls so far, the newest first. Servers that don't tell follow no calls, and those over
    /// which nothing is known follow any.
    ghost may_follow: { Self → List Call → Type 0 };

    /// How many faults the children had.
    ghost faults: { Self → ℕ };

    /// The functions of each path.
    ghost functions: { List ℕ → Functions };

    /// The paths whose children answer as these functions say.
    ghost honest: { List ℕ → Type 0 };

    /// Starts a child by this path in the slot, in place of the one that is there.
    fn start(&mut self, alloc: Global, slot: u32, path: &str) -> Result<(), ServersFault>
        requires { slot < SLOT_COUNT }
        ensures told { Goes (may_follow self.old) (may_follow self.new)
            (start slot path.now (is_ok result)) }
        ensures cause { HasCauseOf ServersFault.Failed (faults self.old) (faults self.new) result }
        ensures counted { CountsOnly ServersFault.Failed (faults self.old) (faults self.new) result };

    /// Sends a line, without its newline, to the child of the slot.
    fn send(&mut self, alloc: Global, slot: u32, line: &[u8]) -> Result<(), ServersFault>
        requires slot { slot < SLOT_COUNT }
        requires line { All (λ byte. byte ≢ 10) line.now }
        ensures told { Goes (may_follow self.old) (may_follow self.new)
            (send slot line.now (is_ok result)) }
        ensures cause { HasCauseOf ServersFault.Failed (faults self.old) (faults self.new) result }
        ensures counted { CountsOnly ServersFault.Failed (faults self.old) (faults self.new) result };

    /// Receives the next line, without its newline, from the child of the slot. It waits until there is one.
    fn receive(&mut self, alloc: Global, slot: u32) -> Result<Vec<u8>, ServersFault>
        requires { slot < SLOT_COUNT }
        ensures told { Goes (may_follow self.old) (may_follow self.new)
            (receive slot (line_of result)) }
        ensures answers { IfOk result (λ line. (calls : List Call) → may_follow self.old calls
            → AnswersChild functions honest (child slot calls) line.items) }
        ensures cause { HasCauseOf ServersFault.Failed (faults self.old) (faults self.new) result }
        ensures counted { CountsOnly ServersFault.Failed (faults self.old) (faults self.new) result };

    /// Ends the child of the slot, if there is one.
    fn stop(&mut self, slot: u32)
        requires { slot < SLOT_COUNT }
        ensures told { Goes (may_follow self.old) (may_follow self.new) (stop slot) }
        ensures cause { faults self.new ≡ faults self.old };
}
