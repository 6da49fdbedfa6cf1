//! What is answered where a node of an index is damaged.

use crate::sales::Sales;
use crash_disk::MemoryFolder;
use map_server::PickServers;
use std::alloc::Global;
use std::test::Fail;
use view_engine::{Engine, StepFault};
use view_ports::{FileName, Folder, Stem};

const SUM: &str = "{\"view\":[\"sales\",\"sum\"],\"query\":{\"group\":true}}";

const STATS: &str = "{\"view\":[\"sales\",\"stats\"],\"query\":{\"update\":false}}";

const DOCUMENT: &str = "{\"get\":\"d007\"}";

const WRITE: &str = "{\"put\":{\"_id\":\"new\"}}";

const INFO: &str = "{\"info\":true}";

/// What `info` says of the design and so many documents, and one more.
const COUNTS: &str = "{\"doc_count\":152,\"doc_del_count\":0,\"update_seq\":152}\n";

const COUNT: usize = 150;

/// Where the nodes of a file begin: behind its slots.
const FIRST: u64 = 8192;

/// The length of a root record of two views, the last that stands in the file.
const ROOT: u64 = 78;

/// Opens an engine over the folder, and appends its reply to a line.
fn put_reply(
    alloc: Global,
    folder: &mut MemoryFolder,
    line: &str,
    out: &mut Vec<u8>,
) -> Result<(), StepFault> {
    let mut servers = PickServers::new(alloc, Vec::new(alloc))?;
    let mut engine = Engine::open(alloc, folder, 1, &[])?;
    engine.step(alloc, folder, &mut servers, line.as_bytes(), out)?;
    engine.finish(&mut servers);
    Ok(())
}

/// The reply of an engine that is opened over the folder.
fn reply(alloc: Global, folder: &mut MemoryFolder, line: &str) -> Result<Vec<u8>, Fail> {
    let mut out = Vec::new(alloc);
    put_reply(alloc, folder, line, &mut out)?;
    Ok(out)
}

/// The one file of an index.
fn index_file(alloc: Global, folder: &mut MemoryFolder) -> Result<FileName, Fail> {
    for name in folder.names(alloc)? {
        if name.stem != Stem::Docs {
            return Ok(name);
        }
    }
    Err(Fail::from("no index"))
}

/// The length of the record at a place of a file.
fn length_at(folder: &mut MemoryFolder, name: FileName, at: u64) -> Result<u64, Fail> {
    let mut bytes = [0; 8];
    folder.read_at(name, at, &mut bytes)?;
    Ok(u64::from_le_bytes(bytes))
}

/// The places of the nodes of a file that had one commit.
fn places_of(alloc: Global, folder: &mut MemoryFolder, name: FileName) -> Result<Vec<u64>, Fail> {
    let end = folder.len(name)?.saturating_sub(ROOT);
    let mut places = Vec::new(alloc);
    let mut at = FIRST;
    for _ in FIRST..end {
        if at < end {
            places.push(at)?;
            let length = length_at(folder, name, at)?;
            at = at.saturating_add(8).saturating_add(length);
        }
    }
    if at != end {
        return Err(Fail::from("no record ends where the root begins"));
    }
    Ok(places)
}

/// Makes the greatest byte of the length of a record this one.
fn set_length(folder: &mut MemoryFolder, name: FileName, at: u64, byte: u8) -> Result<(), Fail> {
    let size = folder.len(name)?;
    if at > size || size - at < 8 {
        return Err(Fail::from("the file is shorter"));
    }
    folder.write_at(name, at + 7, &[byte])?;
    Ok(())
}

/// A request line, and the reply where nothing is damaged.
#[derive(Drop)]
struct Asked {
    line: &'static str,
    reply: Vec<u8>,
}

fn ask(alloc: Global, folder: &mut MemoryFolder, line: &'static str) -> Result<Asked, Fail> {
    let reply = reply(alloc, folder, line)?;
    Ok(Asked { line, reply })
}

/// Whether the node at a place of a file, which is damaged, is found by a line. Else this is answered as before.
fn is_found(
    alloc: Global,
    folder: &mut MemoryFolder,
    asked: &Asked,
    name: FileName,
    at: u64,
) -> Result<bool, Fail> {
    let mut out = Vec::new(alloc);
    match put_reply(alloc, folder, asked.line, &mut out) {
        Ok(()) if out.as_slice() == asked.reply.as_slice() => Ok(false),
        Ok(()) => Err(Fail::from("another reply")),
        Err(fault) if fault == (StepFault::Damaged { name, offset: at }) && out.is_empty() => Ok(
            true,
        ),
        Err(fault) => Err(Fail::from(fault)),
    }
}

/// The views and a document, as they are answered where nothing is damaged.
#[derive(Drop)]
struct Whole {
    sum: Asked,
    stats: Asked,
    document: Asked,
}

/// Damages the node at a place, and answers by which view it is found: 0 or 1, or 2 where by neither. A document is got as before.
fn finder_of(
    alloc: Global,
    folder: &mut MemoryFolder,
    whole: &Whole,
    name: FileName,
    at: u64,
) -> Result<usize, Fail> {
    set_length(folder, name, at, 1)?;
    let by_sum = is_found(alloc, folder, &whole.sum, name, at)?;
    let by_stats = is_found(alloc, folder, &whole.stats, name, at)?;
    if is_found(alloc, folder, &whole.document, name, at)? {
        return Err(Fail::from("a document is not got"));
    }
    set_length(folder, name, at, 0)?;
    match (by_sum, by_stats) {
        (true, true) => Err(Fail::from("two views have one node")),
        (true, false) => Ok(0),
        (false, true) => Ok(1),
        (false, false) => Ok(2),
    }
}

/// How many nodes are found by each view, and by neither.
fn count_found(alloc: Global, folder: &mut MemoryFolder, name: FileName) -> Result<[u64; 3], Fail> {
    let whole = Whole {
        sum: ask(alloc, folder, SUM)?,
        stats: ask(alloc, folder, STATS)?,
        document: ask(alloc, folder, DOCUMENT)?,
    };
    let mut found = [0_u64; 3];
    for at in places_of(alloc, folder, name)? {
        let finder = finder_of(alloc, folder, &whole, name, at)?;
        if let Some(count) = found.get_mut(finder) {
            *count = count.saturating_add(1);
        }
    }
    Ok(found)
}

/// Each node is damaged alone: a view that reads it is halted by a fault that names it, and all else is answered. Of each tree there
/// are an inner node and some leaves, those of the back-index too, which no view reads.
#[test]
fn views_name_the_node_that_is_damaged(rt: HostRuntime) -> Result<(), Fail> {
    let alloc = rt.alloc();
    let mut folder = MemoryFolder::new(alloc, Vec::new(alloc), false)?;
    let mut sales = Sales::new(alloc, 5, COUNT)?;
    sales.ask(alloc)?;
    sales.settle(alloc, &mut folder)?;
    let name = index_file(alloc, &mut folder)?;
    let found = count_found(alloc, &mut folder, name)?;
    assert!(rt; found.iter().all(|count| *count > 4), "{found:?}");
    set_length(&mut folder, name, FIRST, 1)?;
    let _accepted = reply(alloc, &mut folder, WRITE)?;
    let info = reply(alloc, &mut folder, INFO)?;
    assert!(rt; info.as_slice() == COUNTS.as_bytes());
    Ok(())
}
