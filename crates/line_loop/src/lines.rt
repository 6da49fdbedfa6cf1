//! Lines cut from pieces and answered one after another. Of the line that no newline has ended
//! yet, at most one byte more is kept than a line has.

ghost use Rattle.std.specs.Prelude.{◌≡◌, ◌≤◌, ◌+◌, ◌++◌, [], IfErr, OnErr, OnOk, vec_len};
ghost use Rattle.view_ports.specs.Causes.{HasCauseIf};
ghost use Rattle.view_ports.specs.Lines.{IsLine, ended, kept};
ghost use Rattle.line_loop.specs.Given.{OfLine};
ghost use Rattle.line_loop.specs.Loops.{AnswersInto, Comes, ComesBy, ComesIn, FailsInto, Goes, HasSinkFailed, IsEarly, scene};

use crate::loop_end::LoopEnd;
use crate::responder::Responder;
use json_terms::NoMemory;
use std::alloc::Global;
use view_ports::{PortFault, RunEnd, Sink, cut_line, keep_bytes, write_all};

/// The line that no newline has ended yet. Of its bytes at most one more is kept than a line has.
#[derive(Drop)]
pub struct Pending {
    line: Vec<u8>,
    limit: u32,
    ghost is_kept: { vec_len line ≤ limit + 1 },
}

impl Pending {
    /// Nothing of a line yet, where lines have at most `limit` bytes.
    pub fn new(alloc: Global, limit: u32) -> Pending
        ensures line { result.line.items ≡ [] }
        ensures limit { result.limit ≡ limit }
    {
        Pending {
            line: Vec::new(alloc),
            limit,
        }
    }

    /// Keeps more bytes of the line. Where memory runs out it is as it was.
    fn keep(&mut self, more: &[u8]) -> Result<(), NoMemory>
        ensures ok { OnOk result (self.new.line.items
            ≡ kept self.old.limit (self.old.line.items ++ more.now)) }
        ensures err { OnErr result (self.new.line.items ≡ self.old.line.items) }
        ensures limit { self.new.limit ≡ self.old.limit }
    {
        keep_bytes(&mut self.line, more, self.limit as usize + 1)
    }
}

/// Answers a line, of which the first bytes are given, and writes the answer.
fn answer<R: Responder, K: Sink>(
    responder: &mut R,
    line: &[u8],
    sink: &mut K,
) -> Result<(), LoopEnd<R::Error>>
    requires { R.is_ready responder.old }
    ensures ready { OnOk result (R.is_ready responder.new) }
    ensures ok { OnOk result (OfLine R.line_limit line.now
        (AnswersInto R.Responder responder.old responder.new (K.held sink.old) (K.held sink.new))) }
    ensures err { IfErr result (λ end. OfLine R.line_limit line.now
        (FailsInto R.Responder responder.old responder.new (K.held sink.old)
        (K.held sink.new) end)) }
    ensures early { IfErr result IsEarly }
    ensures cause { HasCauseIf HasSinkFailed (K.faults sink.old) (K.faults sink.new) result }
{
    match responder.answer(line) {
        Ok(()) => {}
        Err(error) => return Err(LoopEnd::Stopped(error)),
    }
    match write_all(sink, responder.text()) {
        Ok(()) => Ok(()),
        Err(PortFault) => Err(LoopEnd::Run(RunEnd::SinkFailed)),
    }
}

/// Answers the line that ends with these bytes. A line that wholly stands in them is not copied.
fn end_line<R: Responder, K: Sink>(
    responder: &mut R,
    pending: &mut Pending,
    end: &[u8],
    sink: &mut K,
) -> Result<(), LoopEnd<R::Error>>
    requires plain { IsLine end.now }
    requires ready { R.is_ready responder.old }
    requires limit { pending.old.limit ≡ R.line_limit }
    ensures ready { OnOk result (R.is_ready responder.new) }
    ensures limit { pending.new.limit ≡ pending.old.limit }
    ensures ok { OnOk result (Goes R.Responder
        (scene responder.old pending.old.line.items (K.held sink.old))
        (scene responder.new pending.new.line.items (K.held sink.new)) (ended end.now)) }
    ensures err { IfErr result (ComesIn R.Responder
        (scene responder.old pending.old.line.items (K.held sink.old)) responder.new
        (K.held sink.new) end.now) }
    ensures early { IfErr result IsEarly }
    ensures cause { HasCauseIf HasSinkFailed (K.faults sink.old) (K.faults sink.new) result }
{
    if pending.line.is_empty() {
        let count = end.len().min(pending.limit as usize + 1);
        return answer(responder, &end[..count], sink);
    }
    match pending.keep(end) {
        Ok(()) => {}
        Err(NoMemory) => return Err(LoopEnd::Run(RunEnd::OutOfMemory)),
    }
    match answer(responder, &pending.line, sink) {
        Ok(()) => {}
        Err(end) => return Err(end),
    }
    pending.line.clear();
    Ok(())
}

/// Goes on with these bytes: answers each line that ends in them, and keeps what stands behind.
pub fn feed<R: Responder, K: Sink>(
    responder: &mut R,
    pending: &mut Pending,
    piece: &[u8],
    sink: &mut K,
) -> Result<(), LoopEnd<R::Error>>
    requires ready { R.is_ready responder.old }
    requires limit { pending.old.limit ≡ R.line_limit }
    ensures ready { OnOk result (R.is_ready responder.new) }
    ensures limit { pending.new.limit ≡ pending.old.limit }
    ensures ok { OnOk result (Goes R.Responder
        (scene responder.old pending.old.line.items (K.held sink.old))
        (scene responder.new pending.new.line.items (K.held sink.new)) piece.now) }
    ensures err { IfErr result (ComesBy R.Responder
        (scene responder.old pending.old.line.items (K.held sink.old)) responder.new
        (K.held sink.new) piece.now) }
    ensures early { IfErr result IsEarly }
    ensures cause { HasCauseIf HasSinkFailed (K.faults sink.old) (K.faults sink.new) result }
{
    let mut rest = piece;
    while let Some((end, behind)) = cut_line(rest) {
        match end_line(responder, pending, end, sink) {
            Ok(()) => {}
            Err(end) => return Err(end),
        }
        rest = behind;
    }
    match pending.keep(rest) {
        Ok(()) => Ok(()),
        Err(NoMemory) => Err(LoopEnd::Run(RunEnd::OutOfMemory)),
    }
}

/// Answers the last line, where the input ended without a newline.
pub fn finish<R: Responder, K: Sink>(
    responder: &mut R,
    pending: &Pending,
    sink: &mut K,
) -> Result<(), LoopEnd<R::Error>>
    requires ready { R.is_ready responder.old }
    requires limit { pending.now.limit ≡ R.line_limit }
    ensures ok { OnOk result (Comes R.Responder
        (scene responder.old pending.now.line.items (K.held sink.old)) responder.new
        (K.held sink.new) (LoopEnd.Run RunEnd.InputEnded)) }
    ensures err { IfErr result (Comes R.Responder
        (scene responder.old pending.now.line.items (K.held sink.old)) responder.new
        (K.held sink.new)) }
    ensures early { IfErr result IsEarly }
    ensures cause { HasCauseIf HasSinkFailed (K.faults sink.old) (K.faults sink.new) result }
{
    if pending.line.is_empty() {
        return Ok(());
    }
    answer(responder, &pending.line, sink)
}
