//! Making a child's session ready: start, reset, and one source after another. Each prompt has two attempts.

ghost use Rattle.std.specs.Prelude.{◌≡◌, ◌<◌, ◌≤◌, ◌+◌, ℕ, List, IfOk, false, length};
ghost use Rattle.view_ports.specs.Commands.{command};
ghost use Rattle.query_protocol.specs.CommandLines.{command_line, IsWhole};
ghost use Rattle.child_pool.specs.Causes.{kind_of};
ghost use Rattle.child_pool.specs.Ends.{EndsOnce, EndsTwice, IsStageOf};
ghost use Rattle.child_pool.specs.Stages.{stage_command, told_by};
ghost use Rattle.child_pool.specs.StageCalls.{Attempts, Brings, StartsOver, Tells, TellsAll};

use crate::pool_fault::PoolFault;
use crate::prompt::ask;
use json_terms::{Chars, NoMemory};
use query_protocol::{Kind, Reply, add_fun_line, reset_line};
use std::alloc::Global;
use view_ports::{SLOT_COUNT, Servers, ServersFault};

/// The line of a stage: the reset, or a source.
fn stage_line(alloc: Global, sources: &[Chars], stage: usize) -> Result<Vec<u8>, NoMemory>
    requires { stage ≤ length sources.now }
    ensures line { IfOk result (λ line. line.items ≡ command_line (stage_command sources.now stage)) }
    ensures whole { IfOk result (λ line. IsWhole line.items) }
    ensures reads { IfOk result (λ line. command line.items ≡ stage_command sources.now stage) }
{
    let mut line = Vec::new(alloc);
    if stage == 0 {
        reset_line(alloc, &mut line)?;
    } else {
        add_fun_line(alloc, sources[stage - 1].as_str(), &mut line)?;
    }
    Ok(line)
}

fn stage_kind(stage: usize) -> Kind
    ensures { (sources : List (List ℕ)) (count : ℕ) → result ≡ kind_of (stage_command sources stage) count }
{
    if stage == 0 {
        Kind::Reset
    } else {
        Kind::Source
    }
}

fn told(reply: Reply) -> Result<bool, PoolFault>
    ensures { result ≡ told_by reply }
{
    match reply {
        Reply::Compile => Err(PoolFault::Compile),
        Reply::Log => Ok(true),
        Reply::Yes => Ok(true),
        Reply::Rows(_rows) => Ok(true),
        Reply::Value(_value) => Ok(true),
    }
}

/// Goes one stage on. It is false where a call failed.
fn tell<C: Servers>(
    alloc: Global,
    servers: &mut C,
    slot: u32,
    sources: &[Chars],
    stage: usize,
) -> Result<bool, PoolFault>
    requires slot { slot < SLOT_COUNT }
    requires stage { stage ≤ length sources.now }
    ensures went { (path : List ℕ)
        → Tells C.Servers servers.old servers.new slot path sources.now stage result }
    ensures ends { EndsOnce C.Servers servers.old servers.new false result }
{
    let line = match stage_line(alloc, sources, stage) {
        Ok(line) => line,
        Err(NoMemory) => return Err(PoolFault::NoMemory),
    };
    match ask(alloc, servers, slot, line.as_slice(), stage_kind(stage)) {
        Ok(Some(reply)) => told(reply),
        Ok(None) => Ok(false),
        Err(fault) => Err(fault),
    }
}

/// Starts the slot's child, in place of one that is there, and goes through the first stages. It is false where a call failed.
pub fn start_over<C: Servers>(
    alloc: Global,
    servers: &mut C,
    slot: u32,
    path: &str,
    sources: &[Chars],
    stages: usize,
) -> Result<bool, PoolFault>
    requires slot { slot < SLOT_COUNT }
    requires some { 0 < stages }
    requires stages { stages ≤ length sources.now + 1 }
    ensures went { StartsOver C.Servers servers.old servers.new
        slot path.now sources.now stages result }
    ensures ends { EndsOnce C.Servers servers.old servers.new false result }
{
    match servers.start(alloc, slot, path) {
        Ok(()) => {}
        Err(ServersFault::Failed) => return Ok(false),
        Err(ServersFault::NoMemory) => return Err(PoolFault::NoMemory),
    }
    for stage in 0..stages {
        match tell(alloc, servers, slot, sources, stage) {
            Ok(true) => {}
            Ok(false) => return Ok(false),
            Err(fault) => return Err(fault),
        }
    }
    Ok(true)
}

/// The first attempt on a stage: from where the child is, or with a fresh child.
fn first_attempt<C: Servers>(
    alloc: Global,
    servers: &mut C,
    slot: u32,
    path: &str,
    sources: &[Chars],
    stage: usize,
    fresh: bool,
) -> Result<bool, PoolFault>
    requires slot { slot < SLOT_COUNT }
    requires stage { IsStageOf sources.now stage fresh }
    ensures went { Attempts C.Servers servers.old servers.new
        slot path.now sources.now stage fresh result }
    ensures ends { EndsOnce C.Servers servers.old servers.new false result }
{
    if fresh {
        return start_over(alloc, servers, slot, path, sources, 1);
    }
    tell(alloc, servers, slot, sources, stage)
}

/// Goes one stage on, in two attempts at most. Between them the child is stopped, and the second begins with a fresh child.
fn bring<C: Servers>(
    alloc: Global,
    servers: &mut C,
    slot: u32,
    path: &str,
    sources: &[Chars],
    stage: usize,
    fresh: bool,
) -> Result<(), PoolFault>
    requires slot { slot < SLOT_COUNT }
    requires stage { IsStageOf sources.now stage fresh }
    ensures went { Brings C.Servers servers.old servers.new
        slot path.now sources.now stage fresh result }
    ensures ends { EndsTwice C.Servers servers.old servers.new result }
{
    match first_attempt(alloc, servers, slot, path, sources, stage, fresh) {
        Ok(true) => return Ok(()),
        Ok(false) => {}
        Err(fault) => return Err(fault),
    }
    servers.stop(slot);
    match start_over(alloc, servers, slot, path, sources, stage + 1) {
        Ok(true) => Ok(()),
        Ok(false) => Err(PoolFault::ServerFault),
        Err(fault) => Err(fault),
    }
}

/// Goes all stages, with a fresh child or with the one that is there.
pub fn tell_all<C: Servers>(
    alloc: Global,
    servers: &mut C,
    slot: u32,
    path: &str,
    sources: &[Chars],
    fresh: bool,
) -> Result<(), PoolFault>
    requires { slot < SLOT_COUNT }
    ensures went { TellsAll C.Servers servers.old servers.new
        slot path.now sources.now fresh result }
    ensures ends { EndsTwice C.Servers servers.old servers.new result }
{
    match bring(alloc, servers, slot, path, sources, 0, fresh) {
        Ok(()) => {}
        Err(fault) => return Err(fault),
    }
    for stage in 1..sources.len() + 1 {
        match bring(alloc, servers, slot, path, sources, stage, false) {
            Ok(()) => {}
            Err(fault) => return Err(fault),
        }
    }
    Ok(())
}
