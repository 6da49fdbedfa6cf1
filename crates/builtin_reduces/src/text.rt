//! A text in the making: it is written behind what is there, and taken back whole where memory runs out.

ghost use Rattle.std.specs.Prelude.{◌≡◌, ◌≤◌, OnErr, OnOk, vec_len};

use itoa::{Buffer, Integer};
use json_terms::NoMemory;
use std::alloc::Global;
use std::mem;

/// A text that is being written behind other bytes, which stay as they are.
#[derive(Drop)]
pub(crate) struct Text {
    bytes: Vec<u8>,
    // Where the text begins.
    start: usize,
    ghost within: { start ≤ vec_len bytes },
}

impl Text {
    ghost use Rattle.std.specs.Prelude.{◌++◌, []};
    ghost use Rattle.builtin_reduces.specs.Written.{before_of, written_of, Adds, KeepsBefore};

    /// An empty text behind what `out` holds. Until the text ends `out` is empty.
    pub(crate) fn behind(alloc: Global, out: &mut Vec<u8>) -> Text
        ensures before { before_of result ≡ out.old.items }
        ensures empty { written_of result ≡ [] }
        ensures taken { out.new.items ≡ [] }
    {
        let bytes = mem::replace(out, Vec::new(alloc));
        Text {
            start: bytes.len(),
            bytes,
        }
    }

    /// Adds bytes.
    pub(crate) fn put(&mut self, bytes: &[u8]) -> Result<(), NoMemory>
        ensures ok { OnOk result (Adds self.old self.new bytes.now) }
        ensures before { KeepsBefore self.old self.new }
    {
        self.bytes.extend_from_slice(bytes)?;
        Ok(())
    }

    /// Adds a number.
    pub(crate) fn put_number<I: Integer>(&mut self, number: I) -> Result<(), NoMemory>
        ensures ok { OnOk result (Adds self.old self.new (I.text number)) }
        ensures before { KeepsBefore self.old self.new }
    {
        let mut digits = Buffer::new();
        self.put(digits.format(number).as_bytes())
    }

    /// Gives `out` back what it held, and behind it the text where it was written whole.
    pub(crate) fn end(
        self,
        written: Result<(), NoMemory>,
        out: &mut Vec<u8>,
    ) -> Result<(), NoMemory>
        ensures whole { result ≡ written }
        ensures ok { OnOk result (out.new.items ≡ before_of self ++ written_of self) }
        ensures err { OnErr result (out.new.items ≡ before_of self) }
    {
        let Text { mut bytes, start } = self;
        if written.is_err() {
            bytes.truncate(start);
        }
        *out = bytes;
        written
    }
}
