//! Query servers that are child processes.

ghost use Rattle.std.specs.Prelude.{◌≡◌, ◌≢◌, ◌↔◌, ◌+◌, ◌≤◌, ◌<◌, vec_len};
ghost use Rattle.view_ports.specs.declared.limits.TheConstants.{LINE_LIMIT, PIECE};

use crate::child_fault::ChildFault;
use crate::child_name::ChildName;
use crate::diagnostics::Diagnostics;
use crate::piped_child::PipedChild;
use json_terms::NoMemory;
use std::alloc::Global;
use view_ports::{LINE_LIMIT, PIECE, SLOT_COUNT, Servers, ServersFault};

/// Query servers that are child processes, one a slot. A path is a program's, and is looked up in `PATH` where it has no
/// slash; it is started without arguments.
///
/// A call fails, and counts a fault, where the program can't be started, there is no child, the child has ended, or it
/// prints more than 134,217,728 bytes without an end of a line or without taking what it is sent. A child is ended by a
/// call on it that fails or finds no memory. It is not ended where the servers are let go: stop all slots before.
///
/// On standard error it is said why a call failed, that a child is waited for, and what a child wants in the log
/// or complains of.
#[derive(Drop)]
pub struct RealServers {
    rt: HostRuntime,
    diagnostics: Diagnostics,
    children: Vec<Option<PipedChild>>,
    // What is read from a child passes through it.
    piece: Vec<u8>,
    faults: u64,
    ghost slots: { vec_len children ≡ 9 },
    ghost room: { vec_len piece ≡ PIECE },
}

impl RealServers {
    ghost use Rattle.std.specs.Prelude.{[], ℕ, IfOk, false};
    ghost use Rattle.real_ports.specs.Unread.{unread};
    ghost use Rattle.real_ports.specs.Children.{SameElsewhere, has_child};
    ghost use Rattle.view_ports.specs.Faults.{Rose};

    /// Servers without children.
    pub fn new(rt: HostRuntime, diagnostics: Diagnostics) -> Result<RealServers, NoMemory>
        ensures faults { IfOk result (λ servers. servers.faults ≡ 0) }
        ensures none { IfOk result (λ servers. (slot : ℕ) → has_child servers slot ≡ false) }
    {
        let alloc = rt.alloc();
        let mut children = Vec::with_capacity(alloc, SLOT_COUNT)?;
        for _slot in 0..SLOT_COUNT {
            children.push(None)?;
        }
        Ok(RealServers {
            rt,
            diagnostics,
            children,
            piece: vec![in alloc; 0; PIECE]?,
            faults: 0,
        })
    }

    /// Ends the child of the slot, of which it is said why, and counts the fault, if it is one.
    fn give_up(&mut self, slot: u32, fault: ChildFault) -> ServersFault
        requires { slot < SLOT_COUNT }
        ensures memory { (result ≡ ServersFault.NoMemory) ↔ (fault ≡ ChildFault.NoMemory) }
        ensures later { self.old.faults ≤ self.new.faults }
        ensures counted { result ≡ ServersFault.Failed → Rose self.old.faults self.new.faults }
        ensures once { self.new.faults ≤ self.old.faults + 1 }
        ensures uncounted { result ≢ ServersFault.Failed → self.new.faults ≡ self.old.faults }
        ensures none { has_child self.new slot ≡ false }
        ensures elsewhere { SameElsewhere slot self.old self.new }
    {
        let given_up = self.children[slot as usize].take();
        if let Some(child) = given_up {
            child.give_up(fault);
        }
        if matches!(fault, ChildFault::NoMemory) {
            return ServersFault::NoMemory;
        }
        self.faults = self.faults.saturating_add(1);
        ServersFault::Failed
    }

    /// Starts a child, for a slot that has none.
    fn started(&self, alloc: Global, path: &str) -> Result<PipedChild, ChildFault>
        ensures { IfOk result (λ child. unread child.output ≡ []) }
    {
        let name = ChildName::new(alloc, path, self.diagnostics)?;
        PipedChild::start(self.rt, alloc, name)
    }
}

impl Servers for RealServers {
    ghost use Rattle.std.specs.Prelude.{◌≡◌, ◌≤◌, ◌<◌, List, [], IfOk, OnOk, is_ok, true, false, vec_len};
    ghost use Rattle.real_ports.specs.Children.{Anything, LeavesChild, SameElsewhere, has_child};
    ghost use Rattle.view_ports.specs.Calls.{Call, child, start, send, receive, stop};
    ghost use Rattle.view_ports.specs.Faults.{CountsOnly, HasCauseOf};
    ghost use Rattle.view_ports.specs.Field.{field};
    ghost use Rattle.view_ports.specs.Honest.{AnswersChild};
    ghost use Rattle.real_ports.specs.Printed.{Grows, Takes};
    ghost use Rattle.real_ports.specs.Unread.{unread_at};
    ghost use Rattle.view_ports.specs.Servers.{Goes, line_of};

    ghost may_follow = { λ _. Anything };

    ghost faults = { λ s. s.faults };

    ghost functions = { λ path. field };

    ghost honest = { λ path. ⊥ };

    fn start(&mut self, alloc: Global, slot: u32, path: &str) -> Result<(), ServersFault>
        requires { slot < SLOT_COUNT }
        ensures told { Goes Anything Anything (start slot path.now (is_ok result)) }
        ensures cause { HasCauseOf ServersFault.Failed self.old.faults self.new.faults result }
        ensures counted { CountsOnly ServersFault.Failed self.old.faults self.new.faults result }
        ensures child { LeavesChild slot self.old self.new result }
        ensures unread { OnOk result (unread_at self.new slot ≡ []) }
    {
        self.stop(slot);
        match self.started(alloc, path) {
            Ok(child) => {
                self.children[slot as usize] = Some(child);
                Ok(())
            }
            Err(fault) => Err(self.give_up(slot, fault)),
        }
    }

    fn send(&mut self, _alloc: Global, slot: u32, line: &[u8]) -> Result<(), ServersFault>
        requires { slot < SLOT_COUNT }
        ensures told { Goes Anything Anything (send slot line.now (is_ok result)) }
        ensures cause { HasCauseOf ServersFault.Failed self.old.faults self.new.faults result }
        ensures counted { CountsOnly ServersFault.Failed self.old.faults self.new.faults result }
        ensures child { LeavesChild slot self.old self.new result }
        ensures took { OnOk result (has_child self.old slot ≡ true) }
        ensures unread { OnOk result (Grows (unread_at self.old slot) (unread_at self.new slot)) }
    {
        let sent = match &mut self.children[slot as usize] {
            Some(child) => child.send(line, &mut self.piece),
            None => Err(ChildFault::Gone),
        };
        match sent {
            Ok(()) => Ok(()),
            Err(fault) => Err(self.give_up(slot, fault)),
        }
    }

    fn receive(&mut self, alloc: Global, slot: u32) -> Result<Vec<u8>, ServersFault>
        requires { slot < SLOT_COUNT }
        ensures told { Goes Anything Anything (receive slot (line_of result)) }
        ensures answers { IfOk result (λ line. (calls : List Call) → Anything calls
            → AnswersChild (λ path. field) (λ path. ⊥) (child slot calls) line.items) }
        ensures cause { HasCauseOf ServersFault.Failed self.old.faults self.new.faults result }
        ensures counted { CountsOnly ServersFault.Failed self.old.faults self.new.faults result }
        ensures child { LeavesChild slot self.old self.new result }
        ensures gave { OnOk result (has_child self.old slot ≡ true) }
        ensures short { IfOk result (λ line. vec_len line ≤ LINE_LIMIT) }
        ensures line { IfOk result (λ line. Takes (unread_at self.old slot) line.items
            (unread_at self.new slot)) }
    {
        let received = match &mut self.children[slot as usize] {
            Some(child) => child.receive(alloc, &mut self.piece),
            None => Err(ChildFault::Gone),
        };
        match received {
            Ok(line) => Ok(line),
            Err(fault) => Err(self.give_up(slot, fault)),
        }
    }

    fn stop(&mut self, slot: u32)
        requires { slot < SLOT_COUNT }
        ensures told { Goes Anything Anything (stop slot) }
        ensures cause { self.new.faults ≡ self.old.faults }
        ensures none { has_child self.new slot ≡ false }
        ensures elsewhere { SameElsewhere slot self.old self.new }
    {
        if let Some(child) = self.children[slot as usize].take() {
            child.end();
        }
    }
}
