//! The command `load`: fills a new database with documents, changes every third of them, and prints what their view says, from
//! its index and afresh.
//!
//! Its requests are lines that are served as any others are, from a source in memory to a sink in memory.

ghost use Rattle.std.specs.Prelude.{◌≡◌, ◌≢◌, ◌⊎◌, ◌≤◌, ◌<◌, ◌+◌, ◌^◌, ◌++◌, ◌↔◌, List, [], ℕ, Option, true, false, IfErr, IfOk, IsTrue, OnOk, Err, map};
ghost use Rattle.std.specs.List.{flat_map};
ghost use Rattle.view_ports.specs.Disk.{IfTold, MovesNone, Tells};
ghost use Rattle.view_ports.specs.Faults.{CountsFor, Rose};
ghost use Rattle.view_ports.specs.Lines.{ended};
ghost use Rattle.view_engine.specs.Calls.{scene};
ghost use Rattle.view_engine.specs.Disks.{IsReadReasonOf, LiesOpen};
ghost use Rattle.view_engine.specs.Refusals.{refusal_text};
ghost use Rattle.view_engine.specs.World.{World};
ghost use Rattle.view_engine.specs.Worlds.{IsAtWorld, width as width_of};
ghost use Rattle.couchview_cli.specs.Loading as spec;
ghost use Rattle.couchview_cli.specs.Loading.{AnswersLoad, HasWant, IsPrinted, Loads, beside};
ghost use Rattle.couchview_cli.specs.Serving.{AreLeft, Begins};
ghost use Rattle.couchview_cli.specs.Showing.{IsShown, NoneIsWant, ServesText, Shows, reply_at};

use crate::closing::close;
use crate::replies::cut_lines;
use crate::serve::{WIDTH, run};
use design_docs::Builtin;
use fresh_view::{AfreshFault, answer_afresh};
use json_terms::{Chars, Members, NoMemory, Term};
use line_loop::LoopEnd;
use load_lines::{first_lines, info_line, load_map, second_lines, view_line};
use query_args::{Query, QueryFault, Target, read_query};
use std::alloc::Global;
use view_engine::{Engine, Refusal, StepFault, no_memory_line};
use view_ports::{
    Folder, MemorySink, MemorySource, PortFault, RunEnd, Servers, Sink, cut_line, write_all,
};

/// The exit status where the folder holds writes.
const HAS_WRITES: u8 = 10;

/// How many bytes a call takes of a source or a sink in memory.
const PIECE: usize = 65_536;

/// The lines that are served, each with its newline, and which of them ask for the view.
#[derive(Drop)]
struct Requests {
    text: Vec<u8>,
    first_view: usize,
    second_view: usize,
}

/// Loads so many documents into a folder without writes, made from this number, and answers the exit status.
pub fn load<K: Sink, F: Folder, C: Servers>(
    alloc: Global,
    docs: u32,
    number: u32,
    sink: &mut K,
    folder: &mut F,
    servers: &mut C,
) -> u8
    requires follows { C.may_follow servers.old [] }
    requires few { docs ≤ 20000 }
    requires low { number < 2 ^ 31 }
    ensures loads { (left : Option (List ℕ)) → (opening : World)
        → Begins C.functions C.honest [] (F.disk folder.old) opening
        → Loads C.functions C.honest docs number opening
        (beside left K.Sink F.Folder C.Servers sink.old folder.old servers.old)
        (beside left K.Sink F.Folder C.Servers sink.new folder.new servers.new)
        (AreLeft (C.may_follow servers.new)) result }
    ensures answers { (left : Option (List ℕ)) → AnswersLoad docs number
        (beside left K.Sink F.Folder C.Servers sink.old folder.old servers.old)
        (beside left K.Sink F.Folder C.Servers sink.new folder.new servers.new) result }
    ensures others { (result ≢ 2) × (result ≢ 5) × (result ≢ 8) }
    ensures disk_failed { result ≡ 3 → Rose (F.faults folder.old) (F.faults folder.new) }
    ensures disk_spared { result ≢ 3 → result ≢ 4 → result ≢ 6
        → F.faults folder.new ≡ F.faults folder.old }
    ensures sink_failed { result ≡ 4 → Rose (K.faults sink.old) (K.faults sink.new) }
    ensures sink_count { K.faults sink.old ≤ K.faults sink.new }
    ensures disk_count { F.faults folder.old ≤ F.faults folder.new }
    ensures server_count { C.faults servers.old ≤ C.faults servers.new }
{
    let mut engine = match Engine::open(alloc, folder, WIDTH, &[]) {
        Ok(engine) => engine,
        Err(fault) => return close(sink, fault),
    };
    if engine.update_seq() != 0 {
        return HAS_WRITES;
    }
    let shown = show(alloc, docs, number, &mut engine, folder, servers);
    engine.finish(servers);
    match shown {
        Ok(text) => print(sink, &text),
        Err(fault) => close(sink, fault),
    }
}

/// Writes what is shown, and answers the exit status.
fn print<K: Sink>(sink: &mut K, text: &[u8]) -> u8
    ensures printed { IsPrinted (K.held sink.old) (K.held sink.new) text.now result }
    ensures either { (result ≡ 0) ⊎ (result ≡ 4) }
    ensures failed { result ≡ 4 → Rose (K.faults sink.old) (K.faults sink.new) }
    ensures count { K.faults sink.old ≤ K.faults sink.new }
{
    match write_all(sink, text) {
        Ok(()) => RunEnd::InputEnded.status(),
        Err(PortFault) => RunEnd::SinkFailed.status(),
    }
}

/// What a load shows: the replies to the two views, the answer to the second one afresh, and the reply to `info`.
fn show<F: Folder, C: Servers>(
    alloc: Global,
    docs: u32,
    number: u32,
    engine: &mut Engine,
    folder: &mut F,
    servers: &mut C,
) -> Result<Vec<u8>, StepFault>
    requires open { LiesOpen F.Folder engine.old folder.old }
    ensures shows { Shows F.Folder C.Servers (scene engine.old folder.old servers.old)
        (flat_map ended (spec.load_lines docs number)) docs number
        (scene engine.new folder.new servers.new) result }
    ensures wide { width_of engine.new ≡ width_of engine.old }
    ensures disk_failed { result ≡ Err StepFault.DiskFault
        → Rose (F.faults folder.old) (F.faults folder.new) }
    ensures disk_spared { result ≢ Err StepFault.DiskFault → result ≢ Err StepFault.NoMemory
        → F.faults folder.new ≡ F.faults folder.old }
    ensures disk_count { F.faults folder.old ≤ F.faults folder.new }
    ensures server_count { C.faults servers.old ≤ C.faults servers.new }
{
    let requests = requests_of(alloc, docs, number)?;
    let written = serve_lines(alloc, &requests.text, engine, folder, servers)?;
    let fresh = fresh_answer(alloc, engine, folder)?;
    Ok(compose(alloc, &requests, written.held(), &fresh)?)
}

/// The lines of a load. The one error is want of memory.
fn requests_of(alloc: Global, docs: u32, number: u32) -> Result<Requests, NoMemory>
    ensures text { IfOk result (λ r. r.text.items ≡ flat_map ended (spec.load_lines docs number)) }
    ensures first { IfOk result (λ r. r.first_view ≡ spec.first_view docs number) }
    ensures second { IfOk result (λ r. r.second_view ≡ spec.second_view docs number) }
    ensures room { IfOk result (λ r. r.second_view + 1 < 2 ^ 64) }
{
    let puts = first_lines(alloc, docs, number)?;
    let updates = second_lines(alloc, docs, number)?;
    let mut text = Vec::new(alloc);
    append_lines(&puts, &mut text)?;
    append_line(view_line(), &mut text)?;
    append_lines(&updates, &mut text)?;
    append_line(view_line(), &mut text)?;
    append_line(info_line(), &mut text)?;
    let first_view = puts.len();
    Ok(Requests {
        text,
        first_view,
        second_view: first_view + 1 + updates.len(),
    })
}

fn append_lines(lines: &[Vec<u8>], text: &mut Vec<u8>) -> Result<(), NoMemory>
    ensures { OnOk result (text.new.items ≡ text.old.items
        ++ flat_map ended (map (λ line. line.items) lines.now)) }
{
    for line in lines {
        append_line(line, text)?;
    }
    Ok(())
}

fn append_line(line: &[u8], text: &mut Vec<u8>) -> Result<(), NoMemory>
    ensures { OnOk result (text.new.items ≡ text.old.items ++ ended line.now) }
{
    text.extend_from_slice(line)?;
    text.push(b'\n')?;
    Ok(())
}

/// Serves lines, and gives what was written for them. Where one of them was refused for want of memory, that is the fault.
fn serve_lines<F: Folder, C: Servers>(
    alloc: Global,
    text: &[u8],
    engine: &mut Engine,
    folder: &mut F,
    servers: &mut C,
) -> Result<MemorySink, StepFault>
    requires { LiesOpen F.Folder engine.old folder.old }
    ensures serves { ServesText F.Folder C.Servers (scene engine.old folder.old servers.old)
        text.now (scene engine.new folder.new servers.new) result }
    ensures wide { width_of engine.new ≡ width_of engine.old }
    ensures ready { OnOk result (LiesOpen F.Folder engine.new folder.new) }
    ensures disk_failed { result ≡ Err StepFault.DiskFault
        → Rose (F.faults folder.old) (F.faults folder.new) }
    ensures disk_spared { result ≢ Err StepFault.DiskFault → result ≢ Err StepFault.NoMemory
        → F.faults folder.new ≡ F.faults folder.old }
    ensures disk_count { F.faults folder.old ≤ F.faults folder.new }
    ensures server_count { C.faults servers.old ≤ C.faults servers.new }
{
    let mut source = MemorySource::new(alloc, text, PIECE, Vec::new(alloc))?;
    let mut sink = MemorySink::new(alloc, PIECE, Vec::new(alloc))?;
    let mut reply = Vec::new(alloc);
    let end = run(
        alloc,
        engine,
        &mut reply,
        &mut source,
        &mut sink,
        folder,
        servers,
    );
    if has_want(sink.held()) {
        return Err(StepFault::NoMemory);
    }
    match end {
        LoopEnd::Run(RunEnd::InputEnded) => Ok(sink),
        // A source in memory doesn't fail, and a sink in memory only where it can't grow.
        LoopEnd::Run(_) => Err(StepFault::NoMemory),
        LoopEnd::Stopped(fault) => Err(fault),
    }
}

/// Whether one of these reply lines is the refusal for want of memory.
fn has_want(written: &[u8]) -> bool
    ensures none { result ≡ false → NoneIsWant written.now }
    ensures some { result ≡ true → HasWant written.now }
{
    let mut rest = written;
    while let Some((reply, behind)) = cut_line(rest) {
        if is_no_memory(reply) {
            return true;
        }
        rest = behind;
    }
    false
}

/// The answer to the view's query from the documents alone.
fn fresh_answer<F: Folder>(
    alloc: Global,
    engine: &Engine,
    folder: &mut F,
) -> Result<Vec<u8>, StepFault>
    requires { LiesOpen F.Folder engine.now folder.old }
    ensures answer { (world : World) → IfTold (F.disk folder.old) (λ d. IsAtWorld engine.now d.now world
        → IfOk result (λ text. text.items ≡ spec.fresh_answer world.history)) }
    ensures disk { Tells (F.disk folder.old) (F.disk folder.new) MovesNone }
    ensures why { IfErr result (IsReadReasonOf F.Folder engine.now folder.old folder.new) }
    ensures counted { CountsFor StepFault.DiskFault (F.faults folder.old) (F.faults folder.new) result }
{
    let changes = engine.last_writes(alloc, folder)?;
    let query = load_query(alloc)?;
    let mut text = Vec::new(alloc);
    match answer_afresh(
        alloc,
        load_map(),
        Builtin::Stats,
        &query,
        engine.update_seq(),
        changes.as_slice(),
        &mut text,
    ) {
        Ok(()) => Ok(text),
        Err(AfreshFault::NoMemory) => Err(StepFault::NoMemory),
        Err(AfreshFault::DoesNotCompile) => unreachable!(),
    }
}

/// The query of the view.
fn load_query(alloc: Global) -> Result<Query, NoMemory>
    ensures { IfOk result (λ query. query ≡ spec.load_query) }
{
    let mut parameters = Members::new(alloc);
    parameters.push(Chars::from_text(alloc, "group_level")?, Term::Int(1))?;
    match read_query(alloc, &Term::Object(parameters), Target::View(true)) {
        Ok(query) => Ok(query),
        Err(QueryFault::NoMemory) => Err(NoMemory),
        Err(_) => unreachable!(),
    }
}

/// What is shown of what was written for the lines, with the answer that was made afresh. The one error is want of memory.
fn compose(
    alloc: Global,
    requests: &Requests,
    written: &[u8],
    fresh: &[u8],
) -> Result<Vec<u8>, NoMemory>
    requires { requests.now.second_view + 1 < 2 ^ 64 }
    ensures { IfOk result (λ text. IsShown requests.now.first_view requests.now.second_view written.now fresh.now
        text.items) }
{
    let replies = cut_lines(alloc, written)?;
    let mut text = Vec::new(alloc);
    append_reply(&replies, requests.first_view, &mut text)?;
    append_reply(&replies, requests.second_view, &mut text)?;
    append_line(fresh, &mut text)?;
    append_reply(&replies, requests.second_view + 1, &mut text)?;
    Ok(text)
}

/// Appends the line in this place, with its newline, if there is one.
fn append_reply(replies: &[&[u8]], place: usize, text: &mut Vec<u8>) -> Result<(), NoMemory>
    ensures { OnOk result (text.new.items ≡ text.old.items
        ++ reply_at (map (λ reply. reply.now) replies.now) place) }
{
    match replies.get(place) {
        Some(reply) => append_line(reply, text),
        None => Ok(()),
    }
}

/// Whether a reply line is the refusal for want of memory.
fn is_no_memory(reply: &[u8]) -> bool
    ensures { IsTrue result ↔ (reply.now ≡ refusal_text Refusal.NoMemory) }
{
    no_memory_line().strip_suffix(b"\n") == Some(reply)
}
