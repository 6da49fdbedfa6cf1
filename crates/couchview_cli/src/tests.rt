//! Whole runs over ports in memory, which give small pieces and fail where they are told to.
use crate::command::couchview;
use crate::laws::runs_go_on;
use crash_disk::MemoryFolder;
use map_server::PickServers;
use std::alloc::Global;
use std::test::Fail;
use view_ports::{FieldServers, MemorySink, MemorySource};

mod folder;
mod ports;

const LINES: &str =
    r#"{"put":{"_id":"_design/by","language":"pick","views":{"name":{"map":"emit doc.name, 1"}}}}
{"put":{"_id":"b","name":"Ida"}}
{"put":{"_id":"a","name":"Ole"}}
{"view":["by","name"]}
{"view":["by","name"]}
"#;

const REPLIES: &str = r#"{"ok":true,"id":"_design/by","rev":"1-00000000000000000000000000000001"}
{"ok":true,"id":"b","rev":"1-00000000000000000000000000000002"}
{"ok":true,"id":"a","rev":"1-00000000000000000000000000000003"}
{"total_rows":2,"offset":0,"rows":[{"id":"b","key":"Ida","value":1},{"id":"a","key":"Ole","value":1}]}
{"total_rows":2,"offset":0,"rows":[{"id":"b","key":"Ida","value":1},{"id":"a","key":"Ole","value":1}]}
"#;

const DISK_FAULT: &str = "{\"error\":\"disk_fault\",\"reason\":\"the run ends\"}\n";

/// The words of a command, with a space between two, what it reads, how many bytes its ports take a call at most, and which of their calls fail.
#[derive(Clone, Copy)]
struct Given<'a> {
    words: &'a str,
    input: &'a str,
    piece: usize,
    reads: &'a [u64],
    writes: &'a [u64],
    servers: &'a [u64],
}

/// A run over ports of which no call fails.
const GIVEN: Given<'static> = Given {
    words: "serve",
    input: LINES,
    piece: 1000,
    reads: &[],
    writes: &[],
    servers: &[],
};

/// What a run wrote over this folder, and its status.
fn run_in(alloc: Global, folder: &mut MemoryFolder, given: &Given) -> Result<(Vec<u8>, u8), Fail> {
    let mut words = Vec::new(alloc);
    for word in given.words.split(' ') {
        words.push(String::from_str(alloc, word)?)?;
    }
    let piece = given.piece.max(1);
    let reads = given.reads.to_vec(alloc)?;
    let mut source = MemorySource::new(alloc, given.input.as_bytes(), piece, reads)?;
    let mut sink = MemorySink::new(alloc, piece, given.writes.to_vec(alloc)?)?;
    let mut servers = PickServers::new(alloc, given.servers.to_vec(alloc)?)?;
    let status = couchview(alloc, &words, &mut source, &mut sink, folder, &mut servers);
    runs_go_on(&servers, &FieldServers::new(alloc, Vec::new(alloc))?);
    Ok((sink.held().to_vec(alloc)?, status))
}

/// What a run wrote over a new folder of which these calls fail, and its status.
fn run(alloc: Global, fail: &[u64], given: &Given) -> Result<(Vec<u8>, u8), Fail> {
    let mut folder = MemoryFolder::new(alloc, fail.to_vec(alloc)?, false)?;
    run_in(alloc, &mut folder, given)
}
