//! A reply in the making: it is written behind what is there, and taken back whole where memory runs out.

ghost use Rattle.std.specs.Prelude.{◌≡◌, ◌≤◌, OnErr, OnOk, vec_len};
ghost use Rattle.view_ports.specs.Lines.{ended};

use builtin_reduces::{BuiltinSum, print_builtin};
use itoa::Buffer;
use json_terms::{NoMemory, Term, write_term, write_text};
use std::alloc::Global;
use std::mem;

/// A reply that is being written behind other bytes, which stay as they are.
#[derive(Drop)]
pub struct Reply {
    bytes: Vec<u8>,
    // Where the reply begins.
    start: usize,
    ghost within: { start ≤ vec_len bytes },
}

impl Reply {
    ghost use Rattle.std.specs.Prelude.{◌++◌, [], Ok, decimal};
    ghost use Rattle.builtin_reduces.specs.Text.{sum_text};
    ghost use Rattle.json_terms.specs.Json.{string};
    ghost use Rattle.json_terms.specs.Seen.{json};
    ghost use Rattle.json_terms.specs.Text.{text_of};
    ghost use Rattle.view_model.specs.Written.{before_of, written_of, Adds, KeepsBefore};

    /// An empty reply behind what `out` holds. Until the reply ends `out` is empty.
    pub fn behind(alloc: Global, out: &mut Vec<u8>) -> Reply
        ensures before { before_of result ≡ out.old.items }
        ensures empty { written_of result ≡ [] }
        ensures taken { out.new.items ≡ [] }
    {
        let bytes = mem::replace(out, Vec::new(alloc));
        Reply {
            start: bytes.len(),
            bytes,
        }
    }

    /// Adds bytes.
    pub fn put(&mut self, bytes: &[u8]) -> Result<(), NoMemory>
        ensures ok { OnOk result (Adds self.old self.new bytes.now) }
        ensures before { KeepsBefore self.old self.new }
    {
        self.bytes.extend_from_slice(bytes)?;
        Ok(())
    }

    /// Adds a number.
    pub fn put_number(&mut self, number: u64) -> Result<(), NoMemory>
        ensures ok { OnOk result (Adds self.old self.new (decimal number)) }
        ensures before { KeepsBefore self.old self.new }
    {
        let mut digits = Buffer::new();
        self.put(digits.format(number).as_bytes())
    }

    /// Adds a text, as a JSON string.
    pub fn put_string(&mut self, alloc: Global, text: &str) -> Result<(), NoMemory>
        ensures ok { OnOk result (Adds self.old self.new (text_of (string text.now))) }
        ensures before { KeepsBefore self.old self.new }
    {
        write_text(alloc, text, &mut self.bytes)
    }

    /// Adds a term.
    pub fn put_term(&mut self, alloc: Global, term: &Term) -> Result<(), NoMemory>
        ensures ok { OnOk result (Adds self.old self.new (text_of (json term.now))) }
        ensures before { KeepsBefore self.old self.new }
    {
        write_term(alloc, term, &mut self.bytes)
    }

    /// Adds the value of a group of rows.
    pub fn put_sum(&mut self, alloc: Global, sum: &BuiltinSum) -> Result<(), NoMemory>
        ensures ok { OnOk result (Adds self.old self.new (sum_text sum.now)) }
        ensures before { KeepsBefore self.old self.new }
    {
        print_builtin(alloc, sum, &mut self.bytes)
    }

    /// Gives `out` back what it held, and behind it the reply, where it was written whole.
    pub fn close(self, written: Result<(), NoMemory>, out: &mut Vec<u8>) -> Result<(), NoMemory>
        ensures same { result ≡ written }
        ensures ok { OnOk result (out.new.items ≡ before_of self ++ written_of self) }
        ensures err { OnErr result (out.new.items ≡ before_of self) }
    {
        let Reply { mut bytes, start } = self;
        if written.is_err() {
            bytes.truncate(start);
        }
        *out = bytes;
        written
    }

    /// Gives `out` back what it held, and behind it the reply and a newline, where it was written whole.
    pub fn end(self, written: Result<(), NoMemory>, out: &mut Vec<u8>) -> Result<(), NoMemory>
        ensures whole { OnOk result (written ≡ Ok tt) }
        ensures ok { OnOk result (out.new.items ≡ before_of self ++ ended (written_of self)) }
        ensures err { OnErr result (out.new.items ≡ before_of self) }
    {
        let Reply { mut bytes, start } = self;
        let ended = match written {
            Ok(()) => end_line(&mut bytes),
            Err(NoMemory) => Err(NoMemory),
        };
        if ended.is_err() {
            bytes.truncate(start);
        }
        *out = bytes;
        ended
    }
}

/// Adds a newline, or nothing.
fn end_line(bytes: &mut Vec<u8>) -> Result<(), NoMemory>
    ensures ok { OnOk result (bytes.new.items ≡ ended bytes.old.items) }
    ensures err { OnErr result (bytes.new.items ≡ bytes.old.items) }
{
    bytes.push(b'\n')?;
    Ok(())
}
