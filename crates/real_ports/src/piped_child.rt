//! A child process with a pipe to it and a pipe from it.

ghost use Rattle.std.specs.Prelude.{◌≡◌, ◌≤◌, [], IfOk, OnOk, length, vec_len};
ghost use Rattle.real_ports.specs.Printed.{Grows, Takes};
ghost use Rattle.view_ports.specs.declared.limits.TheConstants.{LINE_LIMIT, PIECE};

use crate::child_fault::ChildFault;
use crate::child_lines::ChildLines;
use crate::child_name::ChildName;
use crate::put::put;
use libc::net::poll;
use std::alloc::Global;
use std::io::ErrorKind;
use std::os::fd::AsRawFd;
use std::process::{Child, ChildStdin, Command, ExitStatus, Stdio};
use view_ports::PIECE;

/// How often it is looked whether a child ends that has closed a pipe, and how many milliseconds apart.
const LOOKS: u32 = 20;

const PAUSE: i32 = 5;

/// A child process. It must be ended before it is let go.
#[derive(Drop)]
pub struct PipedChild {
    name: ChildName,
    process: Child,
    // A write to it takes what there is room for, and doesn't wait.
    input: ChildStdin,
    output: ChildLines,
    // A line on its way, with its newline, so that one write does for both: `PIECE` bytes at most.
    sending: Vec<u8>,
    ghost short: { vec_len sending ≤ PIECE },
}

impl PipedChild {
    ghost use Rattle.real_ports.specs.Unread.{unread};

    /// Starts the program, without arguments. Its standard error is ours.
    pub fn start(rt: HostRuntime, alloc: Global, name: ChildName) -> Result<PipedChild, ChildFault>
        ensures { IfOk result (λ child. unread child.output ≡ []) }
    {
        let mut command = Command::new(alloc, name.path())?;
        command.stdin(Stdio::piped()).stdout(Stdio::piped());
        let mut process = match command.spawn(&rt) {
            Ok(process) => process,
            Err(error) if error.kind() == ErrorKind::OutOfMemory => {
                return Err(ChildFault::NoMemory);
            }
            Err(error) => return Err(name.failed(ChildFault::NotStarted(error))),
        };
        let (Some(input), Some(output)) = (process.stdin.take(), process.stdout.take()) else {
            end(process);
            return Err(name.failed(ChildFault::Gone));
        };
        os::set_nonblocking(input.as_raw_fd(), true);
        Ok(PipedChild {
            name,
            process,
            input,
            output: ChildLines::new(alloc, output),
            sending: Vec::new(alloc),
        })
    }

    /// Sends the line and a newline. What the child prints meanwhile is kept, so that it never waits for us while we wait
    /// for it. It fails where the child has ended, or prints too much without taking the line.
    pub fn send(&mut self, line: &[u8], piece: &mut [u8]) -> Result<(), ChildFault>
        requires { length piece.old ≤ PIECE }
        ensures { OnOk result (Grows (unread self.old.output) (unread self.new.output)) }
    {
        let name = &self.name;
        if line.len() >= PIECE {
            put(name, &mut self.input, &mut self.output, line, piece)?;
            return put(name, &mut self.input, &mut self.output, b"\n", piece);
        }
        self.sending.clear();
        self.sending.extend_from_slice(line)?;
        self.sending.push(b'\n')?;
        put(
            name,
            &mut self.input,
            &mut self.output,
            &self.sending,
            piece,
        )
    }

    /// Receives the next line without its newline. A log line and an error are said too.
    pub fn receive(&mut self, alloc: Global, piece: &mut [u8]) -> Result<Vec<u8>, ChildFault>
        requires { length piece.old ≤ PIECE }
        ensures short { IfOk result (λ line. vec_len line ≤ LINE_LIMIT) }
        ensures line { IfOk result (λ line. Takes (unread self.old.output) line.items
            (unread self.new.output)) }
    {
        let line = self.output.next_line(alloc, &self.name, piece)?;
        self.name.say_if_remark(alloc, &line);
        Ok(line)
    }

    /// Says why a call on the child failed, and ends it. Where it closed a pipe because it ended, it is said how.
    pub fn give_up(mut self, fault: ChildFault) {
        let closed = matches!(fault, ChildFault::OutputClosed | ChildFault::InputClosed);
        match if closed { self.ended() } else { None } {
            Some(status) => self.name.say_ended(status),
            None => {
                let _fault = self.name.failed(fault);
            }
        }
        self.end();
    }

    /// How the child ended, where it has ended or does within a tenth of a second.
    fn ended(&mut self) -> Option<ExitStatus> {
        for _ in 0..LOOKS {
            if let Ok(Some(status)) = self.process.try_wait() {
                return Some(status);
            }
            poll(&mut [], PAUSE);
        }
        None
    }

    /// Closes the input of the child, kills it, and waits until it is gone.
    pub fn end(self) {
        drop(self.input);
        end(self.process);
    }
}

/// Kills the process, and waits until it is gone. By the signal it ends also where it doesn't read its input.
fn end(mut process: Child) {
    let _ = process.kill();
    let _ = process.wait();
}
