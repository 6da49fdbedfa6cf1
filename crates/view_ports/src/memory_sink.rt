//! A sink in memory.

ghost use Rattle.std.specs.Prelude.{◌≡◌, ◌≢◌, ◌<◌, length, min, [], Some, IfOk, OnOk, OnErr, IsErr, IsTrue};
ghost use Rattle.std.specs.Io.{WritesAtMost};
ghost use Rattle.std.specs.Io.KnownBytes.{WriteAppends};
ghost use Rattle.view_ports.specs.Faults.{CountsOnce, HasCause, next_count};
ghost use Rattle.view_ports.specs.Memory.{SinkState, is_listed};

use crate::ports::{PortFault, Sink};
use json_terms::NoMemory;
use std::alloc::Global;
use std::marker::Model;

/// A sink that keeps what it is given in memory, takes it in small pieces, and fails at chosen calls.
#[derive(Drop)]
pub struct MemorySink {
    held: Vec<u8>,
    piece: usize,
    fail: Vec<u64>,
    calls: u64,
    faults: u64,
}

impl Model for MemorySink {
    ghost Value = { SinkState };

    ghost view = { λ s. record { held = s.held.items; piece = s.piece; fail = s.fail.items; calls = s.calls; faults = s.faults } };

    ghost invariant = { λ s. 0 < s.piece };
}

impl MemorySink {
    /// An empty sink, of which a write takes at most `piece` bytes. The calls of `write` whose numbers
    /// are in `fail`, counted from 0, fail and write nothing.
    pub fn new(alloc: Global, piece: usize, fail: Vec<u64>) -> Result<MemorySink, NoMemory>
        requires { piece ≢ 0 }
        ensures { IfOk result (λ sink.
            sink ≡ record { held = []; piece = piece; fail = fail.items; calls = 0; faults = 0 }) }
    {
        Ok(MemorySink {
            held: Vec::new(alloc),
            piece,
            fail,
            calls: 0,
            faults: 0,
        })
    }

    /// What was written so far.
    pub fn held(&self) -> &[u8]
        ensures { result.now ≡ self.now.held }
    {
        &self.held
    }
}

impl Sink for MemorySink {
    ghost held = { λ s. Some s.held };

    ghost faults = { λ s. s.faults };

    fn write(&mut self, from: &[u8]) -> Result<usize, PortFault>
        ensures bound { WritesAtMost result from.now }
        ensures some { IfOk result (λ count. 0 < length from.now → 0 < count) }
        ensures bytes { WriteAppends (Some self.old.held) (Some self.new.held) result from.now }
        ensures cause { HasCause self.old.faults self.new.faults result }
        ensures counted { CountsOnce self.old.faults self.new.faults result }

        // A write takes as much as it can. It fails where its number is listed, and where the sink
        // finds no memory to grow.
        ensures most { IfOk result (λ count. count ≡ min (length from.now) self.old.piece) }
        ensures listed { IsTrue (is_listed self.old.fail self.old.calls) → IsErr result }

        ensures ok { OnOk result (self.new ≡ record self.old { held = self.new.held; calls = next_count self.old.calls }) }
        ensures err { OnErr result (self.new ≡ record self.old { calls = next_count self.old.calls; faults = next_count self.old.faults }) }
    {
        let fails = self.fail.contains(&self.calls);
        self.calls = self.calls.saturating_add(1);
        let taken = &from[..from.len().min(self.piece)];
        if fails || self.held.extend_from_slice(taken).is_err() {
            self.faults = self.faults.saturating_add(1);
            return Err(PortFault);
        }
        Ok(taken.len())
    }
}
