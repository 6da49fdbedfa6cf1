//! One prompt: a line is sent, and its answer is received behind log lines.

ghost use Rattle.std.specs.Prelude.{◌≡◌, ◌<◌, ◌≤◌, IfOk, IfSome, Ok, None, false};
ghost use Rattle.view_ports.specs.Calls.{is_short};
ghost use Rattle.query_protocol.specs.CommandLines.{IsWhole};
ghost use Rattle.child_pool.specs.Ends.{EndsOnce};
ghost use Rattle.child_pool.specs.Hearing.{HasBoundedAnswer, HasBoundedParts, IsHeard, IsKept, IsShown};
ghost use Rattle.child_pool.specs.PromptCalls.{Asks, Hears, HearsReply, Sends};

use crate::heard::Heard;
use crate::pool_fault::PoolFault;
use crate::shown_line::shown_line;
use query_protocol::{Kind, Reply, ReplyFault, read_reply};
use std::alloc::Global;
use view_ports::{LINE_LIMIT, SLOT_COUNT, Servers, ServersFault};

/// How many log lines may come before one answer.
const LOG_LIMIT: u32 = 1_000;

/// Receives one line in reply to a prompt, behind `logs` log lines.
fn receive_line<C: Servers>(
    alloc: Global,
    servers: &mut C,
    slot: u32,
    kind: Kind,
    logs: u32,
) -> Result<Heard, PoolFault>
    requires slot { slot < SLOT_COUNT }
    requires few { logs ≤ 1000 }
    ensures went { Hears C.Servers servers.old servers.new slot kind logs result }
    ensures ends { EndsOnce C.Servers servers.old servers.new Heard.Failed result }
    ensures few { result ≡ Ok Heard.Log → logs < 1000 }
    ensures bounded { IfOk result (HasBoundedAnswer kind) }
{
    let line = match servers.receive(alloc, slot) {
        Ok(line) => line,
        Err(ServersFault::Failed) => return Ok(Heard::Failed),
        Err(ServersFault::NoMemory) => return Err(PoolFault::NoMemory),
    };
    heard_line(alloc, kind, logs, line.as_slice())
}

/// Receives the reply to a prompt, or nothing where a call fails. 1,000 log lines may come before it.
fn receive_reply<C: Servers>(
    alloc: Global,
    servers: &mut C,
    slot: u32,
    kind: Kind,
) -> Result<Option<Reply>, PoolFault>
    requires { slot < SLOT_COUNT }
    ensures went { HearsReply C.Servers servers.old servers.new slot kind result }
    ensures ends { EndsOnce C.Servers servers.old servers.new None result }
    ensures bounded { IfOk result (λ reply. IfSome reply (HasBoundedParts kind)) }
{
    for logs in 0..LOG_LIMIT {
        match receive_line(alloc, servers, slot, kind, logs) {
            Ok(Heard::Log) => {}
            Ok(Heard::Answer(reply)) => return Ok(Some(reply)),
            Ok(Heard::Failed) => return Ok(None),
            Err(fault) => return Err(fault),
        }
    }
    match receive_line(alloc, servers, slot, kind, LOG_LIMIT) {
        Ok(Heard::Answer(reply)) => Ok(Some(reply)),
        Ok(Heard::Failed) => Ok(None),
        Ok(Heard::Log) => Ok(None),
        Err(fault) => Err(fault),
    }
}

/// Whether a line can be sent: it has 134,217,728 bytes at most.
fn is_sendable(line: &[u8]) -> bool
    ensures { result ≡ is_short line.now }
{
    line.len() <= LINE_LIMIT
}

/// Sends a prompt to a child that has answered each line. It is false where the call failed. A line past 134,217,728 bytes
/// isn't sent: there is no memory for it.
fn send_prompt<C: Servers>(
    alloc: Global,
    servers: &mut C,
    slot: u32,
    line: &[u8],
) -> Result<bool, PoolFault>
    requires slot { slot < SLOT_COUNT }
    requires whole { IsWhole line.now }
    ensures went { Sends C.Servers servers.old servers.new slot line.now result }
    ensures ends { EndsOnce C.Servers servers.old servers.new false result }
{
    if !is_sendable(line) {
        return Err(PoolFault::NoMemory);
    }
    match servers.send(alloc, slot, line) {
        Ok(()) => Ok(true),
        Err(ServersFault::Failed) => Ok(false),
        Err(ServersFault::NoMemory) => Err(PoolFault::NoMemory),
    }
}

/// Sends a prompt and receives its reply, or nothing where a call fails.
pub fn ask<C: Servers>(
    alloc: Global,
    servers: &mut C,
    slot: u32,
    line: &[u8],
    kind: Kind,
) -> Result<Option<Reply>, PoolFault>
    requires slot { slot < SLOT_COUNT }
    requires whole { IsWhole line.now }
    ensures went { Asks C.Servers servers.old servers.new slot line.now kind result }
    ensures ends { EndsOnce C.Servers servers.old servers.new None result }
    ensures bounded { IfOk result (λ reply. IfSome reply (HasBoundedParts kind)) }
{
    match send_prompt(alloc, servers, slot, line) {
        Ok(true) => receive_reply(alloc, servers, slot, kind),
        Ok(false) => Ok(None),
        Err(fault) => Err(fault),
    }
}

/// What a line is that came behind so many log lines.
fn heard_line(alloc: Global, kind: Kind, logs: u32, line: &[u8]) -> Result<Heard, PoolFault>
    ensures { IsHeard kind logs line.now result }
{
    match read_reply(alloc, kind, line) {
        Ok(reply) => unless_too_many(alloc, logs, Heard::of(reply), line),
        Err(ReplyFault::BadReply) => Err(bad_reply(alloc, line)),
        Err(ReplyFault::NoMemory) => Err(PoolFault::NoMemory),
    }
}

/// One log line too many is a bad reply.
fn unless_too_many(alloc: Global, logs: u32, heard: Heard, line: &[u8]) -> Result<Heard, PoolFault>
    ensures { IsKept logs heard line.now result }
{
    match heard {
        Heard::Log => {
            if logs < LOG_LIMIT {
                Ok(Heard::Log)
            } else {
                Err(bad_reply(alloc, line))
            }
        }
        Heard::Answer(reply) => Ok(Heard::Answer(reply)),
        Heard::Failed => Ok(Heard::Failed),
    }
}

fn bad_reply(alloc: Global, line: &[u8]) -> PoolFault
    ensures { IsShown line.now result }
{
    match shown_line(alloc, line) {
        Ok(text) => PoolFault::BadReply(text),
        Err(_) => PoolFault::NoMemory,
    }
}
