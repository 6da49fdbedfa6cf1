//! Ports over the streams of the process.

ghost use Rattle.std.specs.Prelude.{◌≡◌};

use crate::diagnostics::Diagnostics;
use std::io::{Error, ErrorKind, Read, Write};
use view_ports::{PortFault, Sink, Source};

/// How often a call is made that signals interrupt.
const TRIES: u32 = 64;

/// A source that reads from a stream. Why a read failed is said on standard error.
#[derive(Drop)]
pub struct StdSource<R> {
    input: R,
    diagnostics: Diagnostics,
    faults: u64,
}

impl<R: Read> StdSource<R> {
    pub fn new(input: R, diagnostics: Diagnostics) -> StdSource<R>
        ensures input { result.input ≡ input }
        ensures faults { result.faults ≡ 0 }
    {
        StdSource {
            input,
            diagnostics,
            faults: 0,
        }
    }
}

impl<R: Read> Source for StdSource<R> {
    ghost left = { λ s. R.remaining s.input };

    ghost faults = { λ s. s.faults };

    fn read(&mut self, into: &mut [u8]) -> Result<usize, PortFault> {
        let mut why = Error::from(ErrorKind::Interrupted);
        for _ in 0..TRIES {
            match self.input.read(into) {
                Ok(count) => return Ok(count),
                Err(error) if error.kind() == ErrorKind::Interrupted => {}
                Err(error) => {
                    why = error;
                    break;
                }
            }
        }
        self.diagnostics
            .say(format_args!("standard input can't be read: {why}"));
        self.faults = self.faults.saturating_add(1);
        Err(PortFault)
    }
}

/// A sink that writes to a stream. Why a write failed is said on standard error.
#[derive(Drop)]
pub struct StdSink<W> {
    output: W,
    diagnostics: Diagnostics,
    faults: u64,
}

impl<W: Write> StdSink<W> {
    pub fn new(output: W, diagnostics: Diagnostics) -> StdSink<W>
        ensures output { result.output ≡ output }
        ensures faults { result.faults ≡ 0 }
    {
        StdSink {
            output,
            diagnostics,
            faults: 0,
        }
    }
}

impl<W: Write> Sink for StdSink<W> {
    ghost held = { λ s. W.contents s.output };

    ghost faults = { λ s. s.faults };

    fn write(&mut self, from: &[u8]) -> Result<usize, PortFault> {
        let mut why = Error::from(ErrorKind::WriteZero);
        for _ in 0..TRIES {
            match self.output.write(from) {
                Ok(0) if !from.is_empty() => break,
                Ok(count) => return Ok(count),
                Err(error) if error.kind() == ErrorKind::Interrupted => {}
                Err(error) => {
                    why = error;
                    break;
                }
            }
        }
        self.diagnostics
            .say(format_args!("standard output can't be written: {why}"));
        self.faults = self.faults.saturating_add(1);
        Err(PortFault)
    }
}
