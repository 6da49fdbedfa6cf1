//! What a stop within a call on the folder leaves of the documents.

use crate::documents::{delete, put, since};
use crash_disk::MemoryFolder;
use doc_file::{DocFault, Rev};
use std::alloc::Global;
use std::test::Fail;

/// The write of this number, where so many ids are written in turn. The writes of an id put it, put it again, and delete it, and
/// so on.
fn write_once(alloc: Global, folder: &mut MemoryFolder, ids: u64, k: u64) -> Result<Rev, DocFault> {
    let ids = ids.max(1);
    let (id, turn) = (k % ids, k / ids);
    let seq = k.saturating_sub(ids - 1);
    let rev = Rev {
        generation: turn,
        seq,
    }
    .text(alloc)?;
    let text = match turn % 3 {
        0 => format!(in alloc; "{{\"_id\":\"{id}\",\"n\":{k}}}")?,
        1 => format!(in alloc; "{{\"_id\":\"{id}\",\"n\":{k},\"_rev\":\"{rev}\"}}")?,
        _ => return delete(
            alloc,
            folder,
            id.to_string(alloc)?.as_str(),
            Some(rev.as_str()),
        ),
    };
    put(alloc, folder, text.as_str())
}

/// What stands after a write, and how many calls on the folder were noted by then.
#[derive(Drop)]
struct Stand {
    calls: u64,
    changes: Vec<u8>,
}

fn look(alloc: Global, folder: &mut MemoryFolder) -> Result<Stand, DocFault> {
    let calls = folder.calls_noted();
    let changes = since(alloc, folder, 0, u32::MAX)?;
    Ok(Stand { calls, changes })
}

/// What stands before so many writes and after each of them.
fn write_all(
    alloc: Global,
    folder: &mut MemoryFolder,
    ids: u64,
    writes: u64,
) -> Result<Vec<Stand>, DocFault> {
    let mut stands = Vec::new(alloc);
    for k in 0..writes {
        stands.push(look(alloc, folder)?)?;
        write_once(alloc, folder, ids, k)?;
    }
    stands.push(look(alloc, folder)?)?;
    Ok(stands)
}

/// Whether a stop within this call may leave these changes: those of all writes that were done before it, and the one in hand
/// or not.
fn may_be_left(stands: &[Stand], call: u64, changes: &[u8]) -> bool {
    let done = stands.iter().filter(|stand| stand.calls <= call).count();
    let last = done.saturating_sub(1);
    stands
        .iter()
        .skip(last)
        .take(2)
        .any(|stand| stand.changes.as_slice() == changes)
}

/// So many ids and so many writes of them, and how many calls lie between two stops.
const STOPS: &[(u64, u64, usize)] = &[(3, 24, 1), (50, 300, 97)];

/// At each stop eight choices of what it leaves are opened.
#[test]
fn a_stop_leaves_what_was_written(rt: HostRuntime) -> Result<(), Fail> {
    let alloc = rt.alloc();
    for &(ids, writes, step) in STOPS {
        let mut whole = MemoryFolder::new(alloc, Vec::new(alloc), true)?;
        let stands = write_all(alloc, &mut whole, ids, writes)?;
        for call in (0..whole.calls_noted()).step_by(step) {
            for choice in 0..8 {
                let mut image = whole.image_at(alloc, call, choice)?;
                let changes = since(alloc, &mut image, 0, u32::MAX)?;
                assert!(rt;
                    may_be_left(&stands, call, &changes),
                    "call {call}, choice {choice}"
                );
            }
        }
    }
    Ok(())
}
