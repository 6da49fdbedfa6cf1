//! An engine over a folder in memory beside the model, in runs that stop within a call.

ghost use Rattle.std.specs.Prelude.{◌≡◌, OnOk};
ghost use Rattle.view_ports.specs.Disk.{IfTold};
ghost use Rattle.crash_disk.specs.State.{told};
ghost use Rattle.view_engine.specs.Worlds.{IsOpen};

use crate::left::{CHOICES, Left, choice_of, look_at};
use crate::model::{Write, answer, put_answers};
use crate::requests::{Request, put_line, put_lines};
use crate::scripts::Script;
use crash_disk::MemoryFolder;
use json_terms::NoMemory;
use std::alloc::{AllocError, Global};
use std::test::Fail;
use view_engine::Engine;
use view_ports::{Folder, Servers};

/// A request, and how many writes and calls on the folder there were before it and behind it.
#[derive(Clone, Copy)]
struct Step {
    request: Request,
    writes: [usize; 2],
    calls: [u64; 2],
}

/// A folder, the writes in it, and the script.
#[derive(Drop)]
pub struct Stage {
    folder: MemoryFolder,
    writes: Vec<Write>,
    script: Script,
    // The steps of the last run, and how many calls there were behind them.
    steps: Vec<Step>,
    calls: u64,
}

/// How many requests are made to one engine.
const REQUESTS: usize = 10;

impl Stage {
    pub fn new(alloc: Global, script: Script) -> Result<Stage, NoMemory> {
        Ok(Stage {
            folder: MemoryFolder::new(alloc, Vec::new(alloc), true)?,
            writes: Vec::new(alloc),
            script,
            steps: Vec::new(alloc),
            calls: 0,
        })
    }

    /// Adds a step that is over, before which there were so many writes.
    fn add_step(&mut self, request: Request, writes: usize) -> Result<(), AllocError>
        ensures { self.new.folder ≡ self.old.folder }
    {
        let calls = self.folder.calls_noted();
        self.steps.push(Step {
            request,
            writes: [writes, self.writes.len()],
            calls: [self.calls, calls],
        })?;
        self.calls = calls;
        Ok(())
    }

    /// Makes the next request to an engine. Its reply is that of the model.
    fn ask<C: Servers>(
        &mut self,
        alloc: Global,
        engine: &mut Engine,
        servers: &mut C,
    ) -> Result<(), Fail>
        requires { IfTold (told self.old.folder) (λ d. IsOpen engine.old d.now) }
        ensures { OnOk result (IfTold (told self.new.folder) (λ d. IsOpen engine.new d.now)) }
    {
        let request = self.script.next(&self.writes);
        let writes = self.writes.len();
        let mut want = String::new(alloc);
        answer(alloc, &mut self.writes, request, &mut want)?;
        let mut line = String::new(alloc);
        put_line(&mut line, request)?;
        let mut given = Vec::new(alloc);
        engine.step(
            alloc,
            &mut self.folder,
            servers,
            line.as_bytes(),
            &mut given,
        )?;
        if given.as_slice() != want.as_bytes() {
            let given = String::from_utf8(given)?;
            return Err(Fail::new(format_args!("{line}: {given} is given for {want}")));
        }
        self.add_step(request, writes)?;
        Ok(())
    }

    /// Makes the next requests to an engine that is opened anew. The last step of the run is a call on the folder behind them.
    pub fn run<C: Servers>(&mut self, alloc: Global, servers: &mut C) -> Result<(), Fail> {
        self.steps.clear();
        self.calls = self.folder.calls_noted();
        let mut engine = Engine::open(alloc, &mut self.folder, 1, &[])?;
        for _ in 0..REQUESTS {
            self.ask(alloc, &mut engine, servers)?;
        }
        engine.finish(servers);
        self.folder.names(alloc)?;
        let writes = self.writes.len();
        self.add_step(Request::Info, writes)?;
        Ok(())
    }

    /// What a stop within the step may leave, as replies to requests show it.
    fn left_of(&self, alloc: Global, step: Step, probes: &[Request]) -> Result<Left, AllocError> {
        let mut left = Left::new(alloc);
        let own: &[Request] = &[Request::Get(step.request.id())];
        for requests in [own, probes] {
            put_lines(&mut left.lines, requests)?;
            let [before, behind] = step.writes;
            put_answers(alloc, &self.writes, before, requests, &mut left.before)?;
            put_answers(alloc, &self.writes, behind, requests, &mut left.behind)?;
        }
        Ok(left)
    }

    /// Looks at what a stop within any call of the last run leaves, and answers how many calls these were.
    pub fn look<C: Servers>(
        &self,
        alloc: Global,
        servers: &mut C,
        probes: &[Request],
        choices: u64,
    ) -> Result<u64, Fail> {
        let mut calls = 0_u64;
        for step in &self.steps {
            let left = self.left_of(alloc, *step, probes)?;
            let [first, end] = step.calls;
            for call in first..end.min(self.folder.calls_noted()) {
                look_at(alloc, &self.folder, servers, call, choices, &left)?;
                calls = calls.saturating_add(1);
            }
        }
        Ok(calls)
    }

    /// Stops within the last request or behind it, and goes on over what is left.
    pub fn stop<C: Servers>(&mut self, alloc: Global, servers: &mut C) -> Result<(), Fail> {
        let behind = self.script.dice.below(2) as usize;
        let Some(&step) = self.steps.iter().rev().nth(behind) else {
            return Ok(());
        };
        let [first, end] = step.calls;
        let end = end.min(self.folder.calls_noted());
        if first >= end {
            return Ok(());
        }
        let call = first + self.script.dice.below(end - first);
        let choice = choice_of(call, self.script.dice.below(CHOICES));
        let left = self.left_of(alloc, step, &[Request::Info])?;
        let mut image = self.folder.image_at(alloc, call, choice)?;
        if !left.is_behind(alloc, &mut image, servers)? {
            self.writes.truncate(step.writes[0]);
        }
        self.folder = image;
        Ok(())
    }
}
