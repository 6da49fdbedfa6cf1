//! Reading lines from a source, and answering them.

ghost use Rattle.std.specs.Prelude.{◌≡◌, ◌≤◌, ◌<◌, [], length};
ghost use Rattle.std.specs.Io.KnownBytes.{IsAtEnd};
ghost use Rattle.view_ports.specs.Faults.{Rose};
ghost use Rattle.line_loop.specs.Loops.{HasEnded, HasSinkFailed, HasSourceFailed, Loops};

use crate::lines::{Pending, feed, finish};
use crate::loop_end::LoopEnd;
use crate::responder::Responder;
use std::alloc::Global;
use view_ports::{INPUT_LIMIT, PortFault, RunEnd, Sink, Source, new_piece};

/// Reads lines from the source, has the responder answer each, in order, and writes each answer to
/// the sink, until the input ends or the run can't go on.
///
/// A line has `limit` bytes at most; of a longer one `limit` + 1 bytes are kept, which is enough to
/// refuse it. The end of the input behind a newline begins no line. 1,099,511,627,776 bytes are read
/// at most, 65,536 at a time. Where there is no memory for the piece or for a line, the run ends with
/// `OutOfMemory`. A line that the responder doesn't answer ends it with the responder's own reason,
/// and nothing is written for that line.
pub fn answer_lines<S: Source, K: Sink, R: Responder>(
    alloc: Global,
    source: &mut S,
    sink: &mut K,
    responder: &mut R,
    limit: u32,
) -> LoopEnd<R::Error>
    requires ready { R.is_ready responder.old }
    requires limit { limit ≡ R.line_limit }

    // What is read, answered and written.
    ensures loops { Loops R.Responder responder.old responder.new
        (S.left source.old) (S.left source.new) (K.held sink.old) (K.held sink.new) result }

    // The cause of each end.
    ensures ended { HasEnded result → IsAtEnd (S.left source.new) }
    ensures sink_failed { HasSinkFailed result → Rose (K.faults sink.old) (K.faults sink.new) }
    ensures source_failed { HasSourceFailed result
        → Rose (S.faults source.old) (S.faults source.new) }
    ensures source_count { S.faults source.old ≤ S.faults source.new }
    ensures sink_count { K.faults sink.old ≤ K.faults sink.new }
{
    let Ok(mut piece) = new_piece(alloc) else {
        return LoopEnd::Run(RunEnd::OutOfMemory);
    };
    let mut pending = Pending::new(alloc, limit);
    run(source, sink, responder, &mut pending, &mut piece)
}

/// Goes on with a line of which nothing is there yet. Bytes are read into the piece.
fn run<S: Source, K: Sink, R: Responder>(
    source: &mut S,
    sink: &mut K,
    responder: &mut R,
    pending: &mut Pending,
    piece: &mut [u8],
) -> LoopEnd<R::Error>
    requires ready { R.is_ready responder.old }
    requires start { pending.old.line.items ≡ [] }
    requires limit { pending.old.limit ≡ R.line_limit }
    requires room { 0 < length piece.old }
    ensures loops { Loops R.Responder responder.old responder.new
        (S.left source.old) (S.left source.new) (K.held sink.old) (K.held sink.new) result }
    ensures ended { HasEnded result → IsAtEnd (S.left source.new) }
    ensures sink_failed { HasSinkFailed result → Rose (K.faults sink.old) (K.faults sink.new) }
    ensures source_failed { HasSourceFailed result
        → Rose (S.faults source.old) (S.faults source.new) }
    ensures source_count { S.faults source.old ≤ S.faults source.new }
    ensures sink_count { K.faults sink.old ≤ K.faults sink.new }
{
    let mut taken = 0;
    while taken < INPUT_LIMIT {
        let most = (INPUT_LIMIT - taken).min(piece.len() as u64) as usize;
        let count = match source.read(&mut piece[..most]) {
            Ok(0) => {
                return match finish(responder, pending, sink) {
                    Ok(()) => LoopEnd::Run(RunEnd::InputEnded),
                    Err(end) => end,
                };
            }
            Ok(count) => count,
            Err(PortFault) => return LoopEnd::Run(RunEnd::SourceFailed),
        };
        match feed(responder, pending, &piece[..count], sink) {
            Ok(()) => {}
            Err(end) => return end,
        }
        taken += count as u64;
    }
    LoopEnd::Run(RunEnd::InputTooLong)
}
