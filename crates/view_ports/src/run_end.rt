//! How a run ends.

/// How many bytes a run reads at most.
pub const INPUT_LIMIT: u64 = 1 << 40;

/// How a run ended, with the exit status that says so.
#[derive(Clone, Copy, Debug, PartialEq, Eq)]
pub enum RunEnd {
    /// The source was read to its end: status 0.
    InputEnded,
    /// The sink failed: status 4.
    SinkFailed,
    /// The source failed: status 5.
    SourceFailed,
    /// There was no memory to go on: status 6.
    OutOfMemory,
    /// `INPUT_LIMIT` bytes were read: status 8.
    InputTooLong,
}

impl RunEnd {
    ghost use Rattle.std.specs.Prelude.{◌≡◌};
    ghost use Rattle.view_ports.specs.Runs.{status_of};

    /// The exit status.
    pub fn status(self) -> u8
        ensures { result ≡ status_of self }
    {
        match self {
            RunEnd::InputEnded => 0,
            RunEnd::SinkFailed => 4,
            RunEnd::SourceFailed => 5,
            RunEnd::OutOfMemory => 6,
            RunEnd::InputTooLong => 8,
        }
    }
}
