//! The rows of what was written since a sequence, and what is asked for them.

use crate::batch_tests::put;
use crate::benches::Bench;
use crate::scripts::put_next;
use change_mapper::{DocRows, MappingFault};
use crash_disk::MemoryFolder;
use doc_file::Docs;
use gate_file::GateFault;
use json_terms::{Emissions, NoMemory, write_term};
use std::alloc::Global;
use std::test::Fail;
use test_tools::same_text;

const NEVER: [u64; 2] = [u64::MAX, u64::MAX];

/// The first two calls on the servers: where they fail, whatever is asked is refused.
const FIRST: [u64; 2] = [0, 1];

const REFUSED: &str = "a query server: query server failed twice";

/// The rows of the script's first three writes.
const THREE: &str = "x[1 null;][2 null;] y[3 null;][] z[][4 null;] ";

/// Two calls on the servers that fail, how many writes of the script are made, a sequence, and what is shown since.
///
/// To map the first three documents takes the calls 0 to 12.
const SINCE: &[([u64; 2], usize, u64, &str)] = &[
    (NEVER, 0, 0, ""),
    (NEVER, 3, 0, THREE),
    (NEVER, 3, 2, "z[][4 null;] "),
    (NEVER, 5, 0, "x[1 null;][2 null;] y[][] z[][] "),
    (NEVER, 5, 3, "y[][] z[][] "),
    (
        NEVER,
        9,
        0,
        "z[][] x[9 null;][0 null;] _design/d[][] w[5 null;][] y[\"s\" null;][0 null;] ",
    ),
    (
        NEVER,
        11,
        0,
        "z[][] x[9 null;][0 null;] _design/d[][] w[][] y[null null;][] ",
    ),
    (NEVER, 11, 6, "_design/d[][] w[][] y[null null;][] "),
    (NEVER, 11, 10, "y[null null;][] "),
    (NEVER, 11, 11, ""),
    (NEVER, 11, u64::MAX, ""),
    (FIRST, 0, 0, ""),
    (FIRST, 5, 4, "z[][] "),
    (FIRST, 7, 6, "_design/d[][] "),
    (FIRST, 10, 9, "w[][] "),
    (FIRST, 11, 11, ""),
    (FIRST, 11, 0, REFUSED),
    (FIRST, 5, 3, REFUSED),
    ([12, 13], 3, 0, REFUSED),
    ([12, u64::MAX], 3, 0, THREE),
    ([13, 14], 3, 0, THREE),
];

/// How many documents are put, a sequence, two calls on the servers that fail, and whether they refuse what was written since.
///
/// To map the documents takes seven calls, and two for each.
const PAGES: &[(u64, u64, [u64; 2], bool)] = &[
    (128, 0, [262, 263], true),
    (128, 0, [263, 264], false),
    (129, 0, [264, 265], true),
    (129, 0, [265, 266], false),
    (257, 1, [518, 519], true),
    (257, 1, [519, 520], false),
    (300, 0, [606, 607], true),
    (300, 0, [607, 608], false),
];

/// Appends the keys and the values that a view emits.
fn put_emissions(alloc: Global, emissions: &Emissions, text: &mut Vec<u8>) -> Result<(), NoMemory> {
    text.push(b'[')?;
    for emission in emissions.as_slice() {
        write_term(alloc, &emission.key, text)?;
        text.push(b' ')?;
        write_term(alloc, &emission.value, text)?;
        text.push(b';')?;
    }
    text.push(b']')?;
    Ok(())
}

/// The id of each document, and what each view emits for it.
fn text_of_rows(alloc: Global, documents: &[DocRows]) -> Result<Vec<u8>, NoMemory> {
    let mut text = Vec::new(alloc);
    for document in documents {
        text.extend_from_slice(document.id.as_str().as_bytes())?;
        for emissions in document.rows.as_slice() {
            put_emissions(alloc, emissions, &mut text)?;
        }
        text.push(b' ')?;
    }
    Ok(text)
}

/// A bench over an empty folder.
fn new_bench(alloc: Global, fail: &[u64]) -> Result<Bench, NoMemory> {
    Bench::new(
        alloc,
        MemoryFolder::new(alloc, Vec::new(alloc), false)?,
        fail,
    )
}

/// The rows of what was written since a sequence, or the fault as it is printed.
fn shown_since(alloc: Global, bench: &mut Bench, seq: u64) -> Result<String, Fail> {
    let docs = Docs::open(alloc, &mut bench.folder)?;
    match bench.map_since(alloc, &docs, seq) {
        Ok(rows) => Ok(String::from_utf8(text_of_rows(alloc, rows.as_slice())?)?),
        Err(fault) => Ok(format!(in alloc; "{fault}")?),
    }
}

#[test]
fn what_was_written_since_is_mapped_and_nothing_else(rt: HostRuntime) -> Result<(), Fail> {
    let alloc = rt.alloc();
    for &(fail, count, seq, want) in SINCE {
        let mut bench = new_bench(alloc, &fail)?;
        put_next(alloc, &mut bench, 0, count)?;
        let shown = shown_since(alloc, &mut bench, seq)?;
        assert!(rt; shown.as_str() == want, "{fail:?}, {count}, {seq}: {shown}");
    }
    Ok(())
}

/// What is shown since a sequence of so many documents, each of which has its number as its key.
fn rows_since(alloc: Global, seq: u64, count: u64) -> Result<String, Fail> {
    let mut text = String::new(alloc);
    for number in seq..count {
        let rows = format!(in alloc; "d{number}[{number} null;][] ")?;
        text.push_str(rows.as_str())?;
    }
    Ok(text)
}

#[test]
fn many_documents_are_mapped_in_order_by_the_same_child(rt: HostRuntime) -> Result<(), Fail> {
    let alloc = rt.alloc();
    for &(count, seq, fail, is_refused) in PAGES {
        let mut bench = new_bench(alloc, &fail)?;
        for number in 0..count {
            put(alloc, &mut bench, number, number, None)?;
        }
        let rows = rows_since(alloc, seq, count)?;
        let want = if is_refused { REFUSED } else { rows.as_str() };
        let shown = shown_since(alloc, &mut bench, seq)?;
        assert!(rt; shown.as_str() == want, "{count}, {seq}, {fail:?}: {shown}");
    }
    Ok(())
}

/// Whether the call on the folder with this number fails as the first three documents are mapped; then they are mapped by a further
/// call. Nothing is answered where it comes later.
fn meets(alloc: Global, call: u64) -> Result<Option<bool>, Fail> {
    let folder = MemoryFolder::new(alloc, Vec::from_slice(alloc, &[call])?, false)?;
    let mut bench = Bench::new(alloc, folder, &[])?;
    if put_next(alloc, &mut bench, 0, 3).is_err() {
        return Ok(Some(false));
    }
    let docs = match Docs::open(alloc, &mut bench.folder) {
        Ok(docs) => docs,
        Err(_fault) => return Ok(Some(false)),
    };
    match bench.map_since(alloc, &docs, 0) {
        Ok(_rows) => return Ok(None),
        Err(MappingFault::Docs(GateFault::DiskFault)) => {}
        Err(fault) => return Err(Fail::from(fault)),
    }
    same_text(shown_since(alloc, &mut bench, 0), THREE, "mapped")?;
    Ok(Some(true))
}

#[test]
fn a_failing_read_is_told_and_the_next_call_is_whole(rt: HostRuntime) -> Result<(), Fail> {
    let mut met = 0_u64;
    for call in 0..u64::MAX {
        match meets(rt.alloc(), call)? {
            None => break,
            Some(true) => met = met.saturating_add(1),
            Some(false) => {}
        }
    }
    assert!(rt; met >= 3, "{met}");
    Ok(())
}
