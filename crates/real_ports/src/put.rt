//! Writing to a child, whose output is kept meanwhile.

ghost use Rattle.std.specs.Prelude.{◌≤◌, OnOk, length};
ghost use Rattle.real_ports.specs.Printed.{Grows};
ghost use Rattle.real_ports.specs.Unread.{unread};
ghost use Rattle.view_ports.specs.declared.limits.TheConstants.{PIECE};

use crate::child_fault::ChildFault;
use crate::child_lines::ChildLines;
use crate::child_name::ChildName;
use libc::net::POLLOUT;
use libc::types::pollfd;
use std::io::{ErrorKind, Write};
use std::os::fd::AsRawFd;
use std::process::ChildStdin;

/// Writes the bytes to the input, and keeps what comes from the output while there is no room.
pub fn put(
    name: &ChildName,
    input: &mut ChildStdin,
    output: &mut ChildLines,
    bytes: &[u8],
    piece: &mut [u8],
) -> Result<(), ChildFault>
    requires { length piece.old ≤ PIECE }
    ensures { OnOk result (Grows (unread output.old) (unread output.new)) }
{
    let mut left = bytes;
    for _ in 0..u64::MAX {
        if left.is_empty() {
            return Ok(());
        }
        match input.write(left) {
            Ok(0) => return Err(ChildFault::InputClosed),
            Ok(count) => left = &left[count..],
            Err(error) => match error.kind() {
                ErrorKind::WouldBlock => wait(name, input, output, piece)?,
                ErrorKind::Interrupted => {}
                ErrorKind::BrokenPipe => return Err(ChildFault::InputClosed),
                _ => return Err(ChildFault::Pipe(error)),
            },
        }
    }
    Err(ChildFault::InputClosed)
}

/// Waits until the input has room or the output has bytes, which are then read.
fn wait(
    name: &ChildName,
    input: &ChildStdin,
    output: &mut ChildLines,
    piece: &mut [u8],
) -> Result<(), ChildFault>
    requires { length piece.old ≤ PIECE }
    ensures { OnOk result (Grows (unread output.old) (unread output.new)) }
{
    let room = pollfd {
        fd: input.as_raw_fd(),
        events: POLLOUT,
        revents: 0,
    };
    let mut asked = [room, output.asked()];
    name.wait_for(&mut asked);
    if asked[1].revents != 0 {
        match output.read_more(piece) {
            Err(ChildFault::LineTooLong) => return Err(ChildFault::NotTaking),
            read => read?,
        }
    }
    Ok(())
}
