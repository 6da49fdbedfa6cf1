//! The traits of the outside, each with a count of the device's faults. The count never falls, and
//! stands still at `u64::MAX`. A method answers `PortFault` only where the count rose in that call,
//! and it rises in no other call, and by one at most.

ghost use Rattle.std.specs.Prelude.{ℕ, ◌<◌, List, Option, IfOk, length};
ghost use Rattle.std.specs.Io.{ReadsAtMost, WritesAtMost};
ghost use Rattle.std.specs.Io.KnownBytes.{ReadConsumes, WriteAppends};
ghost use Rattle.view_ports.specs.Faults.{CountsOnce, HasCause};

use thiserror::Error;

/// The device failed.
#[derive(Clone, Copy, Debug, PartialEq, Eq, Error)]
#[error("the device failed")]
pub struct PortFault;

/// Where bytes are read from.
pub trait Source {
    /// The bytes that are still to be read, where the source tells them.
    ghost left: { Self → Option (List ℕ) };

    /// How many faults the device had.
    ghost faults: { Self → ℕ };

    /// Reads the next bytes into the front of `into`, and answers how many. 0 means that the source
    /// has ended, unless `into` is empty. A read that fails takes no byte.
    fn read(&mut self, into: &mut [u8]) -> Result<usize, PortFault>
        ensures bound { ReadsAtMost result into.new }
        ensures bytes { ReadConsumes (left self.old) (left self.new) result into.new }
        ensures cause { HasCause (faults self.old) (faults self.new) result }
        ensures counted { CountsOnce (faults self.old) (faults self.new) result };
}

/// Where bytes are written to.
pub trait Sink {
    /// The bytes that were written, where the sink tells them.
    ghost held: { Self → Option (List ℕ) };

    /// How many faults the device had.
    ghost faults: { Self → ℕ };

    /// Writes some of the first bytes of `from`, and answers how many: one or more, unless `from` is
    /// empty. A write that fails leaves what the sink holds as it was.
    fn write(&mut self, from: &[u8]) -> Result<usize, PortFault>
        ensures bound { WritesAtMost result from.now }
        ensures some { IfOk result (λ count. 0 < length from.now → 0 < count) }
        ensures bytes { WriteAppends (held self.old) (held self.new) result from.now }
        ensures cause { HasCause (faults self.old) (faults self.new) result }
        ensures counted { CountsOnce (faults self.old) (faults self.new) result };
}
