//! How a run over lines ends.

use view_ports::RunEnd;

/// How a run over lines ended, where its responder may end it too.
#[derive(Clone, Copy, Debug, PartialEq, Eq)]
pub enum LoopEnd<E> {
    /// As any run over lines ends.
    Run(RunEnd),
    /// The responder didn't answer a line, for this reason.
    Stopped(E),
}
