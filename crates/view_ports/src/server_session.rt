//! A query server's session without a child process.

ghost use Rattle.std.specs.Prelude.{◌≡◌, ℕ, List, [], false, IfOk, OnErr};
ghost use Rattle.view_ports.specs.Calls.{is_log, is_yes, sources_after};
ghost use Rattle.view_ports.specs.Commands.{command};
ghost use Rattle.view_ports.specs.Functions.{Functions};
ghost use Rattle.view_ports.specs.Honest.{Answers, IsAnswerable, IsTextOf, no_command};
ghost use Rattle.view_ports.specs.declared.command.Command.TheVariants.{Other};

use json_terms::NoMemory;
use std::alloc::Global;

/// A query server that runs in the process: it answers each line at once, and prints no log lines.
pub trait ServerSession: Drop {
    /// The functions that it computes.
    ghost functions: { Functions };

    /// The map functions that were added since the last reset.
    ghost sources: { Self → List (List ℕ) };

    /// A session without functions.
    fn new(alloc: Global) -> Result<Self, NoMemory>
        ensures { IfOk result (λ s. sources s ≡ []) };

    /// Answers a line, also one that is no proper command. Where memory runs out the session is as it was.
    fn answer(&mut self, alloc: Global, line: &[u8]) -> Result<Vec<u8>, NoMemory>
        ensures answers { IfOk result (λ text. IsAnswerable (sources self.old) (command line.now)
            → Answers functions (sources self.old) (command line.now) text.items) }
        ensures unknown { IfOk result (λ text. command line.now ≡ Other
            → IsTextOf no_command text.items) }
        ensures silent { IfOk result (λ text. is_log text.items ≡ false) }
        ensures added { IfOk result (λ text. sources self.new ≡ sources_after (command line.now)
            (is_yes text.items) (sources self.old)) }
        ensures same { OnErr result (sources self.new ≡ sources self.old) };
}
