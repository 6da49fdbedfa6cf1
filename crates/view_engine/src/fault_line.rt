//! The reply line that must not take memory.

ghost use Rattle.std.specs.Prelude.{◌≡◌};
ghost use Rattle.view_ports.specs.Lines.{ended};
ghost use Rattle.view_engine.specs.Refusals.{refusal_text};

use crate::refusal::Refusal;

/// The reply line for want of memory, with its newline. It is a constant, so writing it takes no memory.
pub fn no_memory_line() -> &'static [u8]
    ensures { result.now ≡ ended (refusal_text Refusal.NoMemory) }
{
    b"{\"error\":\"no_memory\",\"reason\":\"out of memory\"}\n"
}
