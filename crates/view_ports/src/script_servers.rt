//! Query servers that answer from a script.

use crate::servers::{SLOT_COUNT, Servers};
use crate::servers_fault::ServersFault;
use json_terms::{Chars, NoMemory};
use std::alloc::Global;

/// What a `receive` gives.
#[derive(Drop)]
pub enum Answer {
    /// This line.
    Line(Chars),
    /// A fault.
    Fail,
}

/// Query servers whose children answer from a list, whatever they are sent: one answer for each `receive`, on any slot.
/// Past the list `receive` fails. No other call fails, and no path is honest.
#[derive(Drop)]
pub struct ScriptServers {
    script: Vec<Answer>,
    // The answers before this place were given.
    at: usize,
    faults: u64,
}

impl ScriptServers {
    ghost use Rattle.std.specs.Prelude.{◌≡◌, IfOk};
    ghost use Rattle.view_ports.specs.Script.{script_left};

    /// Servers with this script.
    pub fn new(_alloc: Global, answers: Vec<Answer>) -> Result<ScriptServers, NoMemory>
        ensures script { IfOk result (λ servers. script_left servers ≡ answers.items) }
        ensures counts { IfOk result (λ servers. (servers.at ≡ 0) × (servers.faults ≡ 0)) }
    {
        Ok(ScriptServers {
            script: answers,
            at: 0,
            faults: 0,
        })
    }
}

impl Servers for ScriptServers {
    ghost use Rattle.std.specs.Prelude.{◌≡◌, ◌<◌, List, IfOk, IsOk, is_ok};
    ghost use Rattle.view_ports.specs.Calls.{Call, child, start, send, receive, stop};
    ghost use Rattle.view_ports.specs.Faults.{CountsOnly, HasCauseOf};
    ghost use Rattle.view_ports.specs.Field.{field};
    ghost use Rattle.view_ports.specs.Honest.{AnswersChild};
    ghost use Rattle.view_ports.specs.Script.{GaveScript, GivesNext, script_left};
    ghost use Rattle.view_ports.specs.Servers.{Goes, line_of};

    ghost may_follow = { GaveScript };

    ghost faults = { λ s. s.faults };

    ghost functions = { λ path. field };

    ghost honest = { λ path. ⊥ };

    fn start(&mut self, _alloc: Global, _slot: u32, _path: &str) -> Result<(), ServersFault>
        ensures told { Goes (GaveScript self.old) (GaveScript self.new)
            (start _slot _path.now (is_ok result)) }
        ensures cause { HasCauseOf ServersFault.Failed self.old.faults self.new.faults result }
        ensures counted { CountsOnly ServersFault.Failed self.old.faults self.new.faults result }
        ensures ok { IsOk result }
        ensures kept { script_left self.new ≡ script_left self.old }
    {
        Ok(())
    }

    fn send(&mut self, _alloc: Global, _slot: u32, _line: &[u8]) -> Result<(), ServersFault>
        ensures told { Goes (GaveScript self.old) (GaveScript self.new)
            (send _slot _line.now (is_ok result)) }
        ensures cause { HasCauseOf ServersFault.Failed self.old.faults self.new.faults result }
        ensures counted { CountsOnly ServersFault.Failed self.old.faults self.new.faults result }
        ensures ok { IsOk result }
        ensures kept { script_left self.new ≡ script_left self.old }
    {
        Ok(())
    }

    fn receive(&mut self, alloc: Global, _slot: u32) -> Result<Vec<u8>, ServersFault>
        ensures told { Goes (GaveScript self.old) (GaveScript self.new)
            (receive _slot (line_of result)) }
        ensures answers { IfOk result (λ line. (calls : List Call) → GaveScript self.old calls
            → AnswersChild (λ path. field) (λ path. ⊥) (child _slot calls) line.items) }
        ensures cause { HasCauseOf ServersFault.Failed self.old.faults self.new.faults result }
        ensures counted { CountsOnly ServersFault.Failed self.old.faults self.new.faults result }
        ensures next { GivesNext (script_left self.old) (script_left self.new) result }
    {
        if self.at >= self.script.len() {
            self.faults = self.faults.saturating_add(1);
            return Err(ServersFault::Failed);
        }
        match &self.script[self.at] {
            Answer::Line(line) => {
                let line = Vec::from_slice(alloc, line.as_str().as_bytes())?;
                self.at += 1;
                Ok(line)
            }
            Answer::Fail => {
                self.at += 1;
                self.faults = self.faults.saturating_add(1);
                Err(ServersFault::Failed)
            }
        }
    }

    fn stop(&mut self, _slot: u32)
        ensures told { Goes (GaveScript self.old) (GaveScript self.new) (stop _slot) }
        ensures cause { self.new.faults ≡ self.old.faults }
        ensures kept { script_left self.new ≡ script_left self.old }
    {}
}
