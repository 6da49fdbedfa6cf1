//! What a child prints, cut into lines.

ghost use Rattle.std.specs.Prelude.{◌≡◌, ◌≤◌, ◌<◌, ◌+◌, ◌-◌, [], Some, IfOk, OnOk, length, slice_index, vec_len};
ghost use Rattle.real_ports.specs.Printed.{Grows, IsThere, IsUnended, Takes};
ghost use Rattle.view_ports.specs.declared.limits.TheConstants.{LINE_LIMIT, PIECE};
ghost use Rattle.view_ports.specs.Lines.{CutsLine, newline};

use crate::child_fault::ChildFault;
use crate::child_name::ChildName;
use libc::net::POLLIN;
use libc::types::pollfd;
use memchr::memchr;
use std::alloc::Global;
use std::io::{ErrorKind, Read};
use std::os::fd::AsRawFd;
use std::process::ChildStdout;
use view_ports::{LINE_LIMIT, PIECE};

/// The output of a child. What was read of it and not yet taken is kept: `LINE_LIMIT` bytes and one piece at most. A child
/// that has printed more than `LINE_LIMIT` bytes, unread and without an end of a line, or while it doesn't take what it is
/// sent, is given up.
#[derive(Drop)]
pub struct ChildLines {
    pipe: ChildStdout,
    kept: Vec<u8>,
    // The bytes before this place were taken.
    taken: usize,
    ghost within: { taken ≤ vec_len kept },
    ghost bounded: { vec_len kept ≤ LINE_LIMIT + PIECE },
}

impl ChildLines {
    ghost use Rattle.real_ports.specs.Unread.{unread};

    /// The lines of this pipe.
    pub fn new(alloc: Global, pipe: ChildStdout) -> ChildLines
        ensures { unread result ≡ [] }
    {
        ChildLines {
            pipe,
            kept: Vec::new(alloc),
            taken: 0,
        }
    }

    /// Asks whether there are bytes to be read.
    pub fn asked(&self) -> pollfd {
        pollfd {
            fd: self.pipe.as_raw_fd(),
            events: POLLIN,
            revents: 0,
        }
    }

    /// The next line of this child without its newline. It waits until there is one. It fails where the output ends or
    /// can't be read, or the line is longer than `LINE_LIMIT`. Bytes are read through the piece.
    pub fn next_line(
        &mut self,
        alloc: Global,
        child: &ChildName,
        piece: &mut [u8],
    ) -> Result<Vec<u8>, ChildFault>
        requires { length piece.old ≤ PIECE }
        ensures short { IfOk result (λ line. vec_len line ≤ LINE_LIMIT) }
        ensures line { IfOk result (λ line. Takes (unread self.old) line.items (unread self.new)) }
    {
        let mut searched = 0;
        for _ in 0..u64::MAX {
            if let Some(at) = memchr(b'\n', &self.kept[self.taken + searched..]) {
                return self.take_line(alloc, searched + at);
            }
            searched = self.kept.len() - self.taken;
            child.wait_for(&mut [self.asked()]);
            self.read_more(piece)?;
        }
        Err(ChildFault::LineTooLong)
    }

    /// Takes so many bytes and the newline behind them.
    fn take_line(&mut self, alloc: Global, count: usize) -> Result<Vec<u8>, ChildFault>
        requires within { self.old.taken + count < vec_len self.old.kept }
        requires unended { IsUnended self.old.kept.items self.old.taken count }
        requires ended { slice_index self.old.kept.items (self.old.taken + count) ≡ newline }
        ensures short { IfOk result (λ line. vec_len line ≤ LINE_LIMIT) }
        ensures line { IfOk result (λ line. CutsLine (unread self.old)
            (Some (line.items, unread self.new))) }
    {
        if count > LINE_LIMIT {
            return Err(ChildFault::LineTooLong);
        }
        let end = self.taken + count;
        let line = Vec::from_slice(alloc, &self.kept[self.taken..end])?;
        self.taken = end + 1;
        if self.taken == self.kept.len() {
            self.kept.clear();
            self.taken = 0;
        }
        Ok(line)
    }

    /// Reads some more bytes through the piece. It waits until there are some. It fails where the output ends or can't be
    /// read, or more than `LINE_LIMIT` bytes are kept already.
    pub fn read_more(&mut self, piece: &mut [u8]) -> Result<(), ChildFault>
        requires { length piece.old ≤ PIECE }
        ensures grows { OnOk result (vec_len self.old.kept - self.old.taken ≤ vec_len self.new.kept - self.new.taken) }
        ensures kept { OnOk result (IsThere self.old.kept.items self.old.taken self.new.kept.items self.new.taken) }
        ensures unread { OnOk result (Grows (unread self.old) (unread self.new)) }
    {
        if self.kept.len() - self.taken > LINE_LIMIT {
            return Err(ChildFault::LineTooLong);
        }
        let count = match self.pipe.read(piece) {
            Ok(0) => return Err(ChildFault::OutputClosed),
            Ok(count) => count,
            Err(error) if error.kind() == ErrorKind::Interrupted => return Ok(()),
            Err(error) => return Err(ChildFault::Pipe(error)),
        };
        self.drop_taken();
        self.kept.extend_from_slice(&piece[..count])?;
        Ok(())
    }

    /// Moves what isn't taken to the front.
    fn drop_taken(&mut self)
        ensures rest { vec_len self.new.kept ≡ vec_len self.old.kept - self.old.taken }
        ensures none { self.new.taken ≡ 0 }
        ensures kept { IsThere self.old.kept.items self.old.taken self.new.kept.items 0 }
        ensures unread { unread self.new ≡ unread self.old }
    {
        let rest = self.kept.len() - self.taken;
        if self.taken > 0 {
            self.kept.copy_within(self.taken.., 0);
            self.kept.truncate(rest);
            self.taken = 0;
        }
    }
}
