//! Runs over a folder whose file is damaged, and over what a stop left of runs before.
use super::{GIVEN, Given, run_in};
use crash_disk::MemoryFolder;
use std::alloc::Global;
use std::test::Fail;
use test_tools::may_be_left;
use view_ports::{FileName, Folder, Stem};

const DOCS: FileName = FileName {
    stem: Stem::Docs,
    side: false,
};

/// A folder whose file has an open gate in the slot at 0, and no header.
fn damaged(alloc: Global) -> Result<MemoryFolder, Fail> {
    let mut folder = MemoryFolder::new(alloc, Vec::new(alloc), false)?;
    folder.grow(DOCS, 8192)?;
    folder.write_at(DOCS, 64, &[1])?;
    Ok(folder)
}

/// The failing calls of the sink, and what is written, with the status.
const DAMAGED: &[(&[u64], &str, u8)] = &[
    (&[], "{\"error\":\"damaged\",\"reason\":\"docs.0 0\"}\n", 7),
    (&[3], "{\"error\":\"damaged\",\"reason\":\"", 4),
];

#[test]
fn damage_ends_the_run_with_its_place(rt: HostRuntime) -> Result<(), Fail> {
    for &(writes, want, want_status) in DAMAGED {
        let mut folder = damaged(rt.alloc())?;
        let (held, status) = run_in(rt.alloc(), &mut folder, &Given { writes, ..GIVEN })?;
        assert!(rt;
            status == want_status && held.as_slice() == want.as_bytes(),
            "{want}"
        );
    }
    Ok(())
}

const LINES: [&str; 3] = [
    "{\"put\":{\"_id\":\"_design/s\",\"language\":\"field\",\"views\":{\"by_n\":{\"map\":\"n\"}}}}\n",
    "{\"put\":{\"_id\":\"a\",\"n\":2}}\n",
    "{\"delete\":\"a\",\"rev\":\"1-00000000000000000000000000000002\"}\n",
];

/// What `info` prints after each number of `LINES`.
const COUNTS: [&str; 4] = [
    "{\"doc_count\":0,\"doc_del_count\":0,\"update_seq\":0}\n",
    "{\"doc_count\":1,\"doc_del_count\":0,\"update_seq\":1}\n",
    "{\"doc_count\":2,\"doc_del_count\":0,\"update_seq\":2}\n",
    "{\"doc_count\":1,\"doc_del_count\":1,\"update_seq\":3}\n",
];

/// A stop within each call of some runs, of one line each.
#[test]
fn a_stop_within_any_call_leaves_first_writes(rt: HostRuntime) -> Result<(), Fail> {
    let alloc = rt.alloc();
    let mut folder = MemoryFolder::new(alloc, Vec::new(alloc), true)?;
    let mut ends = [0; LINES.len()];
    for (input, end) in LINES.iter().zip(ends.iter_mut()) {
        run_in(alloc, &mut folder, &Given { input, ..GIVEN })?;
        *end = folder.calls_noted();
    }
    let info = Given {
        input: "{\"info\":true}\n",
        ..GIVEN
    };
    for call in 0..folder.calls_noted() {
        for choice in 0..4 {
            let mut image = folder.image_at(alloc, call, choice)?;
            let (counts, _status) = run_in(alloc, &mut image, &info)?;
            assert!(rt;
                may_be_left(&COUNTS, &ends, call, &counts),
                "call {call}, choice {choice}"
            );
        }
    }
    Ok(())
}
