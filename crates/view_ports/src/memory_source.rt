//! A source in memory.

ghost use Rattle.std.specs.Prelude.{◌≡◌, ◌≢◌, ◌<◌, ◌≤◌, length, min, drop, Some, IfOk, OnOk, OnErr, is_err};
ghost use Rattle.std.specs.Io.{ReadsAtMost};
ghost use Rattle.std.specs.Io.KnownBytes.{ReadConsumes};
ghost use Rattle.view_ports.specs.Faults.{CountsOnce, HasCause, next_count};
ghost use Rattle.view_ports.specs.Memory.{SourceState, is_listed};

use crate::ports::{PortFault, Source};
use json_terms::NoMemory;
use std::alloc::Global;
use std::marker::Model;

/// A source that gives bytes from memory, in small pieces, and fails at chosen calls.
#[derive(Drop)]
pub struct MemorySource {
    bytes: Vec<u8>,
    // The bytes before this place were read.
    at: usize,
    piece: usize,
    fail: Vec<u64>,
    calls: u64,
    faults: u64,
}

impl Model for MemorySource {
    ghost Value = { SourceState };

    ghost view = { λ s. record { left = drop s.at s.bytes.items; piece = s.piece; fail = s.fail.items; calls = s.calls; faults = s.faults } };

    ghost invariant = { λ s. (0 < s.piece) × (s.at ≤ length s.bytes.items) };
}

impl MemorySource {
    /// A source of these bytes, of which a read gives at most `piece`. The calls of `read` whose
    /// numbers are in `fail`, counted from 0, fail and read nothing.
    pub fn new(
        alloc: Global,
        bytes: &[u8],
        piece: usize,
        fail: Vec<u64>,
    ) -> Result<MemorySource, NoMemory>
        requires { piece ≢ 0 }
        ensures { IfOk result (λ source. source ≡ record { left = bytes.now; piece = piece; fail = fail.items; calls = 0; faults = 0 }) }
    {
        Ok(MemorySource {
            bytes: bytes.to_vec(alloc)?,
            at: 0,
            piece,
            fail,
            calls: 0,
            faults: 0,
        })
    }
}

impl Source for MemorySource {
    ghost left = { λ s. Some s.left };

    ghost faults = { λ s. s.faults };

    fn read(&mut self, into: &mut [u8]) -> Result<usize, PortFault>
        ensures bound { ReadsAtMost result into.new }
        ensures bytes { ReadConsumes (Some self.old.left) (Some self.new.left) result into.new }
        ensures cause { HasCause self.old.faults self.new.faults result }
        ensures counted { CountsOnce self.old.faults self.new.faults result }

        // A read gives as much as it can, and fails exactly where its number is listed.
        ensures most { IfOk result (λ count. count ≡ min (length into.new)
            (min self.old.piece (length self.old.left))) }
        ensures listed { is_err result ≡ is_listed self.old.fail self.old.calls }

        ensures ok { OnOk result (self.new ≡ record self.old { left = self.new.left; calls = next_count self.old.calls }) }
        ensures err { OnErr result (self.new ≡ record self.old { calls = next_count self.old.calls; faults = next_count self.old.faults }) }
    {
        let fails = self.fail.contains(&self.calls);
        self.calls = self.calls.saturating_add(1);
        if fails {
            self.faults = self.faults.saturating_add(1);
            return Err(PortFault);
        }
        let left = &self.bytes[self.at..];
        let count = into.len().min(self.piece).min(left.len());
        into[..count].copy_from_slice(&left[..count]);
        self.at += count;
        Ok(count)
    }
}
