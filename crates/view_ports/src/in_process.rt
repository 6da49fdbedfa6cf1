//! Query servers in the process.

ghost use Rattle.std.specs.Prelude.{◌≡◌, ◌<◌, vec_len};

use crate::ports::PortFault;
use crate::server_session::ServerSession;
use crate::servers::{SLOT_COUNT, Servers};
use crate::servers_fault::ServersFault;
use json_terms::NoMemory;
use std::alloc::Global;

/// A session and the lines that it hasn't answered, the oldest first.
#[derive(Drop)]
pub struct Child<S> {
    session: S,
    waiting: Vec<Vec<u8>>,
}

impl<S: ServerSession> Child<S> {
    ghost use Rattle.std.specs.Prelude.{IfOk, OnOk, OnErr};
    ghost use Rattle.view_ports.specs.Calls.{Session, asked, heard, spoiled, is_log};
    ghost use Rattle.view_ports.specs.Honest.{AnswersOldest};
    ghost use Rattle.view_ports.specs.InProcess.{GivesOldest, IsChild};

    /// Keeps a line until its answer is asked for.
    fn ask(&mut self, alloc: Global, line: &[u8]) -> Result<(), NoMemory>
        ensures ok { OnOk result ((s : Session) → IsChild S.sources self.old s
            → IsChild S.sources self.new (asked line.now s)) }
        ensures err { OnErr result ((s : Session) → IsChild S.sources self.old s
            → IsChild S.sources self.new (spoiled s)) }
    {
        let line = Vec::from_slice(alloc, line)?;
        self.waiting.push(line)?;
        Ok(())
    }

    /// Answers the oldest line, or with an empty line where there is none.
    fn answer(&mut self, alloc: Global) -> Result<Vec<u8>, NoMemory>
        ensures ok { IfOk result (λ text. (s : Session) → IsChild S.sources self.old s
            → IsChild S.sources self.new (heard (is_log text.items) text.items s)) }
        ensures answers { IfOk result (λ text. (s : Session) → IsChild S.sources self.old s
            → AnswersOldest S.functions s s.waiting text.items) }
        ensures due { IfOk result (λ text. (s : Session) → IsChild S.sources self.old s
            → GivesOldest s.waiting text.items) }
        ensures err { OnErr result ((s : Session) → IsChild S.sources self.old s
            → IsChild S.sources self.new (spoiled s)) }
    {
        if self.waiting.is_empty() {
            return Ok(Vec::new(alloc));
        }
        let text = self.session.answer(alloc, self.waiting[0].as_slice())?;
        drop(self.waiting.remove(0));
        Ok(text)
    }
}

/// Query servers that run in the process, one session a slot, whatever the path. Each answers its lines as they are asked
/// for. Calls of chosen numbers fail.
#[derive(Drop)]
pub struct InProcess<S> {
    children: Vec<Option<Child<S>>>,
    fail: Vec<u64>,
    calls: u64,
    faults: u64,
    ghost slots: { vec_len children ≡ 9 },
}

impl<S: ServerSession> InProcess<S> {
    ghost use Rattle.std.specs.Prelude.{◌↔◌, [], IfOk, OnOk, OnErr, IsErr, IsTrue};
    ghost use Rattle.view_ports.specs.Faults.{HasCause, next_count};
    ghost use Rattle.view_ports.specs.InProcess.{MayFollow};
    ghost use Rattle.view_ports.specs.Memory.{is_listed};

    /// Servers without children. The calls of `start`, `send` and `receive` whose numbers are in `fail` fail; the calls
    /// are counted together, from 0.
    pub fn new(alloc: Global, fail: Vec<u64>) -> Result<InProcess<S>, NoMemory>
        ensures calls { IfOk result (λ servers. MayFollow S.sources servers.children.items []) }
        ensures counts { IfOk result (λ servers. (servers.fail ≡ fail) × (servers.calls ≡ 0)
            × (servers.faults ≡ 0)) }
    {
        let mut children = Vec::with_capacity(alloc, SLOT_COUNT)?;
        for _slot in 0..SLOT_COUNT {
            children.push(None)?;
        }
        Ok(InProcess {
            children,
            fail,
            calls: 0,
            faults: 0,
        })
    }

    /// Counts a call. It fails where its number is among those that fail.
    fn count(&mut self) -> Result<(), PortFault>
        ensures listed { IsTrue (is_listed self.old.fail.items self.old.calls) ↔ IsErr result }
        ensures cause { HasCause self.old.faults self.new.faults result }
        ensures ok { OnOk result (self.new.faults ≡ self.old.faults) }
        ensures err { OnErr result (self.new.faults ≡ next_count self.old.faults) }
        ensures counted { self.new.calls ≡ next_count self.old.calls }
        ensures fail { self.new.fail ≡ self.old.fail }
        ensures children { self.new.children ≡ self.old.children }
    {
        let fails = self.fail.contains(&self.calls);
        self.calls = self.calls.saturating_add(1);
        if fails {
            self.faults = self.faults.saturating_add(1);
            return Err(PortFault);
        }
        Ok(())
    }
}

impl<S: ServerSession> Servers for InProcess<S> {
    ghost use Rattle.std.specs.Prelude.{◌≡◌, ◌<◌, ℕ, List, All, ◌≢◌, IfOk, IsErrOf, Err, is_ok, ◌↔◌, IsTrue};
    ghost use Rattle.view_ports.specs.Calls.{Call, child, start, send, receive, stop};
    ghost use Rattle.view_ports.specs.Faults.{CountsOnly, HasCauseOf};
    ghost use Rattle.view_ports.specs.Honest.{AnswersChild};
    ghost use Rattle.view_ports.specs.InProcess.{FailsAsListed, GivesDue, MayFollow};
    ghost use Rattle.view_ports.specs.Servers.{Goes, line_of};

    ghost may_follow = { λ s calls. MayFollow S.sources s.children.items calls };

    ghost faults = { λ s. s.faults };

    ghost functions = { λ path. S.functions };

    ghost honest = { λ path. Unit {0} };

    fn start(&mut self, alloc: Global, slot: u32, path: &str) -> Result<(), ServersFault>
        requires { slot < SLOT_COUNT }
        ensures told { Goes (MayFollow S.sources self.old.children.items)
            (MayFollow S.sources self.new.children.items) (start slot path.now (is_ok result)) }
        ensures cause { HasCauseOf ServersFault.Failed self.old.faults self.new.faults result }
        ensures counted { CountsOnly ServersFault.Failed self.old.faults self.new.faults result }
        ensures listed { FailsAsListed self.old self.new result }
    {
        let at = slot as usize;
        self.children[at] = None;
        if let Err(PortFault) = self.count() {
            return Err(ServersFault::Failed);
        }
        let session = S::new(alloc)?;
        self.children[at] = Some(Child {
            session,
            waiting: Vec::new(alloc),
        });
        Ok(())
    }

    fn send(&mut self, alloc: Global, slot: u32, line: &[u8]) -> Result<(), ServersFault>
        requires { slot < SLOT_COUNT }
        ensures told { Goes (MayFollow S.sources self.old.children.items)
            (MayFollow S.sources self.new.children.items) (send slot line.now (is_ok result)) }
        ensures cause { HasCauseOf ServersFault.Failed self.old.faults self.new.faults result }
        ensures counted { CountsOnly ServersFault.Failed self.old.faults self.new.faults result }
        ensures listed { FailsAsListed self.old self.new result }
    {
        if let Err(PortFault) = self.count() {
            return Err(ServersFault::Failed);
        }
        match &mut self.children[slot as usize] {
            Some(child) => match child.ask(alloc, line) {
                Ok(()) => Ok(()),
                Err(NoMemory) => Err(ServersFault::NoMemory),
            },
            None => Ok(()),
        }
    }

    fn receive(&mut self, alloc: Global, slot: u32) -> Result<Vec<u8>, ServersFault>
        requires { slot < SLOT_COUNT }
        ensures told { Goes (MayFollow S.sources self.old.children.items)
            (MayFollow S.sources self.new.children.items) (receive slot (line_of result)) }
        ensures answers { IfOk result (λ line. (calls : List Call)
            → MayFollow S.sources self.old.children.items calls
            → AnswersChild (λ path. S.functions) (λ path. Unit {0}) (child slot calls) line.items) }
        ensures due { IfOk result (λ line. (calls : List Call)
            → MayFollow S.sources self.old.children.items calls
            → GivesDue (child slot calls) line.items) }
        ensures cause { HasCauseOf ServersFault.Failed self.old.faults self.new.faults result }
        ensures counted { CountsOnly ServersFault.Failed self.old.faults self.new.faults result }
        ensures listed { FailsAsListed self.old self.new result }
    {
        if let Err(PortFault) = self.count() {
            return Err(ServersFault::Failed);
        }
        match &mut self.children[slot as usize] {
            Some(child) => match child.answer(alloc) {
                Ok(text) => Ok(text),
                Err(NoMemory) => Err(ServersFault::NoMemory),
            },
            None => Ok(Vec::new(alloc)),
        }
    }

    fn stop(&mut self, slot: u32)
        requires { slot < SLOT_COUNT }
        ensures told { Goes (MayFollow S.sources self.old.children.items)
            (MayFollow S.sources self.new.children.items) (stop slot) }
        ensures cause { self.new.faults ≡ self.old.faults }
        ensures uncounted { (self.new.calls ≡ self.old.calls) × (self.new.fail ≡ self.old.fail) }
    {
        self.children[slot as usize] = None;
    }
}
