//! Serving the lines of a source.

ghost use Rattle.std.specs.Prelude.{◌≡◌, ◌≤◌, ◌⊎◌};
ghost use Rattle.std.specs.Io.KnownBytes.{IsAtEnd};
ghost use Rattle.view_ports.specs.Faults.{Rose};
ghost use Rattle.view_ports.specs.Runs.{status_of};
ghost use Rattle.map_server.specs.Serving.{Serves, StopsAtLimit, IsShort};

use crate::dialogue::Dialogue;
use json_terms::NoMemory;
use line_loop::{LoopEnd, answer_lines};
use std::alloc::Global;
use view_ports::{LINE_LIMIT, RunEnd, Sink, Source};

/// Reads lines from the source, writes the answer to each and a newline to the sink, in order, and answers the exit
/// status.
///
/// It is 0 at the end of the input, 4 where the sink failed, 5 where the source failed, 6 where there was no memory to
/// keep or answer a line, and 8 where 1,099,511,627,776 bytes were read, after which no further read is made. The end of
/// the input behind a newline begins no line. Of a line 134,217,729 bytes at most are kept.
pub fn serve_lines<S: Source, K: Sink>(alloc: Global, source: &mut S, sink: &mut K) -> u8
    // What is read, answered and written.
    ensures serves { Serves (record { left = S.left source.old; held = K.held sink.old })
        (record { left = S.left source.new; held = K.held sink.new }) result }

    // The cause of each status.
    ensures ended { result ≡ 0 → IsAtEnd (S.left source.new) }
    ensures sink_failed { result ≡ 4 → Rose (K.faults sink.old) (K.faults sink.new) }
    ensures source_failed { result ≡ 5 → Rose (S.faults source.old) (S.faults source.new) }
    ensures limit { StopsAtLimit (S.left source.old) (S.left source.new) result }
    ensures source_count { S.faults source.old ≤ S.faults source.new }
    ensures sink_count { K.faults sink.old ≤ K.faults sink.new }

    // Where no port fails, input that is short enough is read to its end.
    ensures complete { IsShort (S.left source.old)
        → ¬ Rose (S.faults source.old) (S.faults source.new)
        → ¬ Rose (K.faults sink.old) (K.faults sink.new)
        → (result ≡ 0) ⊎ (result ≡ 6) }
{
    serve(alloc, source, sink).status()
}

/// Reads lines and answers them, until the input ends or the run can't go on.
fn serve<S: Source, K: Sink>(alloc: Global, source: &mut S, sink: &mut K) -> RunEnd
    ensures serves { Serves (record { left = S.left source.old; held = K.held sink.old })
        (record { left = S.left source.new; held = K.held sink.new }) (status_of result) }
    ensures ended { result ≡ RunEnd.InputEnded → IsAtEnd (S.left source.new) }
    ensures sink_failed { result ≡ RunEnd.SinkFailed → Rose (K.faults sink.old)
        (K.faults sink.new) }
    ensures source_failed { result ≡ RunEnd.SourceFailed
        → Rose (S.faults source.old) (S.faults source.new) }
    ensures source_count { S.faults source.old ≤ S.faults source.new }
    ensures sink_count { K.faults sink.old ≤ K.faults sink.new }
{
    let Ok(mut dialogue) = Dialogue::open(alloc) else {
        return RunEnd::OutOfMemory;
    };
    match answer_lines(alloc, source, sink, &mut dialogue, LINE_LIMIT as u32) {
        LoopEnd::Run(end) => end,
        LoopEnd::Stopped(NoMemory) => RunEnd::OutOfMemory,
    }
}
