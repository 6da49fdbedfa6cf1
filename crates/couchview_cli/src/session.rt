//! An engine between its ports, which answers request lines.
ghost use Rattle.std.specs.Prelude.{◌≡◌, ◌≢◌, ◌≤◌};
ghost use Rattle.std.specs.Io.KnownBytes.{IsAtEnd};
ghost use Rattle.view_ports.specs.Disk.{IfTold};
ghost use Rattle.view_ports.specs.Faults.{Rose};
ghost use Rattle.view_engine.specs.Calls.{Stays};
ghost use Rattle.line_loop.specs.Loops.{HasEnded, HasSinkFailed, HasSourceFailed};
ghost use Rattle.view_engine.specs.Worlds.{update_seq, IsOpen};

use line_loop::{LoopEnd, Responder, answer_lines};
use std::alloc::Global;
use view_engine::{Engine, REQUEST_LIMIT, StepFault, no_memory_line};
use view_ports::{Folder, Servers, Sink, Source};

/// An engine between its ports, and its reply to the last line. It owns nothing, so that what it was lent is whole behind it.
#[derive(Drop)]
pub struct Session<'a, F, C> {
    pub alloc: Global,
    pub engine: &'a mut Engine,
    pub folder: &'a mut F,
    pub servers: &'a mut C,
    pub reply: &'a mut Vec<u8>,
    /// There was no memory for the last line, which is answered with a constant.
    pub ran_out: bool,
}

impl<F: Folder, C: Servers> Session<'_, F, C> {
    ghost use Rattle.couchview_cli.specs.Session.{IsAtOrigin, KeepsPorts, Origin, scene_of};
    ghost use Rattle.couchview_cli.specs.Ends.{Comes};
    ghost use Rattle.couchview_cli.specs.Reading.{HasReplied};

    /// Reads request lines and answers them, until the input ends or the run can't go on.
    pub fn run<S: Source, K: Sink>(&mut self, source: &mut S, sink: &mut K) -> LoopEnd<StepFault>
        requires { IfTold (F.disk self.old.folder.now) (λ d. IsOpen self.old.engine.now d.now) }
        ensures comes { (origin : Origin) → IsAtOrigin F.Folder C.Servers origin (scene_of self.old)
            → Comes F.Folder C.Servers origin (scene_of self.new) (S.left source.old)
            (S.left source.new) (K.held sink.old) (K.held sink.new) result }
        ensures replies { HasReplied (S.left source.old) (S.left source.new) (K.held sink.old)
            (K.held sink.new) (F.disk self.old.folder.now) (F.disk self.new.folder.now)
            (update_seq self.old.engine.now) (C.faults self.old.servers.now) (C.faults self.new.servers.now) result }
        ensures ports { KeepsPorts self.old self.new }
        ensures stays { Stays F.Folder C.Servers (scene_of self.old) (scene_of self.new) }
        ensures open { HasEnded result
            → IfTold (F.disk self.new.folder.now) (λ d. IsOpen self.new.engine.now d.now) }
        ensures ended { HasEnded result → IsAtEnd (S.left source.new) }
        ensures disk_failed { result ≡ LoopEnd.Stopped StepFault.DiskFault
            → Rose (F.faults self.old.folder.now) (F.faults self.new.folder.now) }
        ensures disk_spared { result ≢ LoopEnd.Stopped StepFault.DiskFault
            → F.faults self.new.folder.now ≡ F.faults self.old.folder.now }
        ensures sink_failed { HasSinkFailed result → Rose (K.faults sink.old) (K.faults sink.new) }
        ensures source_failed { HasSourceFailed result
            → Rose (S.faults source.old) (S.faults source.new) }
        ensures source_count { S.faults source.old ≤ S.faults source.new }
        ensures sink_count { K.faults sink.old ≤ K.faults sink.new }
    {
        let alloc = self.alloc;
        answer_lines(alloc, source, sink, self, REQUEST_LIMIT as u32)
    }
}

impl<F: Folder, C: Servers> Responder for Session<'_, F, C> {
    ghost use Rattle.couchview_cli.specs.Session.{IsAnswered, IsUnanswered, KeepsPorts, reply_of, scene_of};

    type Error = StepFault;

    ghost line_limit = { 2097152 };

    ghost is_ready = { λ s. IfTold (F.disk s.folder.now) (λ d. IsOpen s.engine.now d.now) };

    ghost text = { reply_of };

    ghost answers = { λ old line new. KeepsPorts old new
        × IsAnswered F.Folder C.Servers (scene_of old) (scene_of new) line (reply_of new) };

    ghost stops = { λ old line fault new. KeepsPorts old new
        × IsUnanswered F.Folder C.Servers (scene_of old) (scene_of new) line fault };

    fn answer(&mut self, line: &[u8]) -> Result<(), StepFault> {
        self.reply.clear();
        self.ran_out = false;
        match self
            .engine
            .step(self.alloc, self.folder, self.servers, line, self.reply)
        {
            Ok(()) => Ok(()),
            Err(fault) => {
                let StepFault::NoMemory = fault else {
                    return Err(fault);
                };
                self.ran_out = true;
                Ok(())
            }
        }
    }

    fn text(&self) -> &[u8] {
        if self.ran_out {
            return no_memory_line();
        }
        self.reply.as_slice()
    }
}
