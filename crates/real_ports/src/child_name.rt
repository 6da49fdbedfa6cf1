//! Under which path a child was started, for what is said of it on standard error.

ghost use Rattle.std.specs.Prelude.{◌≡◌};

use crate::child_fault::ChildFault;
use crate::diagnostics::{Diagnostics, Shown};
use crate::remark::remark;
use json_terms::NoMemory;
use libc::net::poll;
use libc::types::pollfd;
use std::alloc::Global;
use std::fmt::Display;
use std::os::unix::process::ExitStatusExt;
use std::process::ExitStatus;

/// After how many seconds it is said that a child is waited for, and the same in milliseconds.
const FIRST: (u32, i32) = (5, 5_000);

/// After how many more seconds it is said again, and the same in milliseconds.
const NEXT: (u32, i32) = (60, 60_000);

/// The path of a child, and where it is said what befalls it.
#[derive(Drop)]
pub struct ChildName {
    path: String,
    diagnostics: Diagnostics,
}

impl ChildName {
    /// The child of this path.
    pub fn new(alloc: Global, path: &str, diagnostics: Diagnostics) -> Result<ChildName, NoMemory> {
        Ok(ChildName {
            path: String::from_str(alloc, path)?,
            diagnostics,
        })
    }

    /// The path.
    pub fn path(&self) -> &str {
        self.path.as_str()
    }

    /// Says why a call on the child failed. Want of memory isn't the child's.
    pub fn failed(&self, fault: ChildFault) -> ChildFault
        ensures { result ≡ fault }
    {
        if !matches!(fault, ChildFault::NoMemory) {
            self.say(fault);
        }
        fault
    }

    /// Says how the child ended.
    pub fn say_ended(&self, status: ExitStatus) {
        match (status.code(), status.signal()) {
            (Some(code), _) => self.say(format_args!("it ended with status {code}")),
            (None, Some(signal)) => self.say(format_args!("signal {signal} ended it")),
            (None, None) => self.say("it ended"),
        }
    }

    fn say<D: Display + Drop>(&self, what: D) {
        let path = Shown(self.path.as_str());
        self.diagnostics.say(format_args!("{path}: {what}"));
    }

    /// Says what the child wants in the log, or why it complains, where the line does so (CouchDB documentation, "Query
    /// Server Protocol", "log" and "Raising errors").
    pub fn say_if_remark(&self, alloc: Global, line: &[u8]) {
        if let Some((name, message)) = remark(alloc, line) {
            let name = Shown(name.as_str());
            let message = Shown(message.as_str());
            self.say(format_args!("{name}: {message}"));
        }
    }

    /// Waits until one of the pipes is ready. After 5 seconds it is said that the child is waited for, and again each minute.
    pub fn wait_for(&self, pipes: &mut [pollfd]) {
        let mut waited = 0_u32;
        for _ in 0..u64::MAX {
            let (seconds, milliseconds) = if waited == 0 { FIRST } else { NEXT };
            match poll(pipes, milliseconds) {
                0 => {
                    waited = waited.saturating_add(seconds);
                    self.say(format_args!(
                        "it hasn't answered for {waited} seconds, and is waited for"
                    ));
                }
                -1 if os::errno() == libc::EINTR => {}
                _ => return,
            }
        }
    }
}
