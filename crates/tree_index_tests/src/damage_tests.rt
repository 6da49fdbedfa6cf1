//! What is said of the file of an index that was altered.
//!
//! What is written over the file leaves no root record, or no node that fits; a byte that makes another record or another node of the
//! kind isn't found by anything.

ghost use Rattle.std.specs.Prelude.{◌≡◌, ◌<◌};

use crate::indexes::{
    Bench, FILE, SIG, VIEWS, change_of, changes_of, commit, exchange, open, put_view, servers_of,
};
use crate::scripts::{ONE_ROW, TWO};
use crash_disk::MemoryFolder;
use gate_file::GateFault;
use std::alloc::Global;
use std::marker::Brand;
use std::sync::ledger::{Blank, Ledger};
use std::test::Fail;
use test_tools::same_text;
use tree_index::{DocRows, Index, IndexFault};
use view_ports::Folder;

/// The text of a fault of the file, or nothing.
fn told_of(alloc: Global, done: Result<(), IndexFault>) -> Result<String, Fail> {
    match done {
        Ok(()) => Ok(String::new(alloc)),
        Err(IndexFault::Store(GateFault::Damaged { name, offset })) if name == FILE => {
            Ok(format!(in alloc; "damaged at {offset}")?)
        }
        Err(fault) => Err(Fail::from(fault)),
    }
}

/// Opens the index as one of so many views.
fn open_as<L: Ledger>(alloc: Global, bench: &mut Bench<L>, views: u16) -> Result<(), IndexFault> {
    let _index = Index::open(alloc, &mut bench.folder, SIG, views as u32, u64::MAX)?;
    Ok(())
}

fn read_view<L: Ledger>(alloc: Global, bench: &mut Bench<L>, view: u32) -> Result<(), IndexFault> {
    let index = open(alloc, bench, u64::MAX)?;
    let mut text = Vec::new(alloc);
    put_view(alloc, bench, &index, view, &mut text)
}

fn exchange_in<L: Ledger>(
    alloc: Global,
    bench: &mut Bench<L>,
    changes: &[DocRows],
) -> Result<(), IndexFault> {
    let mut index = open(alloc, bench, u64::MAX)?;
    let mut servers = servers_of(alloc, ONE_ROW)?;
    let _refusal = exchange(alloc, bench, &mut index, changes, &mut servers)?;
    Ok(())
}

/// A new folder with an index that has these rows at sequence 3.
fn fill<L: Ledger>(alloc: Global, bench: &mut Bench<L>, changes: &[DocRows]) -> Result<(), Fail> {
    bench.take(MemoryFolder::new(alloc, Vec::new(alloc), false)?);
    let mut index = open(alloc, bench, u64::MAX)?;
    let mut servers = servers_of(alloc, ONE_ROW)?;
    let _refusal = exchange(alloc, bench, &mut index, changes, &mut servers)?;
    commit(alloc, bench, &mut index, 3)?;
    Ok(())
}

/// Writes over bytes that the file has.
fn overwrite(folder: &mut MemoryFolder, at: u64, bytes: &[u8]) -> Result<(), Fail> {
    let size = folder.len(FILE)?;
    if at > size || bytes.len() as u64 > size - at {
        return Err(Fail::from("the file is shorter"));
    }
    folder.write_at(FILE, at, bytes)?;
    Ok(())
}

/// What is written over the file of the two documents, whose root record stands at 8,476, and where; and what is said by opening it and
/// by removing it. Of the slot these are its mark, the number of its commit, and the place and the length of the record. Of the record
/// they are its length, the number of views, of the first tree the height and the number of items, and of the back-index the height.
const NOT_OPENED: &[(u64, &[u8], &str, &str)] = &[
    (4_096, b"c", "damaged at 4096", "damaged at 4096"),
    (4_104, b"\x02", "damaged at 4096", "damaged at 4096"),
    (4_112, b"\x1d", "damaged at 4096", "damaged at 4096"),
    (4_112, b"\x1b", "damaged at 8475", ""),
    (4_120, b"\x61", "damaged at 8476", ""),
    (8_476, b"\x59", "damaged at 8476", ""),
    (8_476, b"\x5b", "damaged at 8476", ""),
    (8_483, b"\x01", "damaged at 8476", ""),
    (8_492, b"\x02", "damaged at 8476", ""),
    (8_492, b"\x04", "damaged at 8476", ""),
    (8_502, b"\0", "damaged at 8476", ""),
    (8_502, b"\x02", "damaged at 8476", ""),
    (8_506, b"\0", "damaged at 8476", ""),
    (8_507, b"\x05", "damaged at 8476", ""),
    (8_562, b"\0", "damaged at 8476", ""),
];

/// As how many views the index is opened, and what is said.
const NUMBERS: &[(u16, &str)] = &[
    (0, "damaged at 8476"),
    (2, "damaged at 8476"),
    (3, ""),
    (4, "damaged at 8476"),
    (65_535, "damaged at 8476"),
];

fn open_altered<L: Ledger>(alloc: Global, blank: Blank) -> Result<(), Fail>
    requires name { blank.name ≡ L.name }
    requires parts { blank.parts ≡ L.parts }
    requires some { 0 < L.parts }
{
    let mut bench = Bench::<L>::new(alloc, blank)?;
    let two = changes_of(alloc, TWO)?;
    for (at, bytes, opened, removed) in NOT_OPENED {
        fill(alloc, &mut bench, &two)?;
        overwrite(&mut bench.folder, *at, bytes)?;
        let place = format!(in alloc; "{bytes:?} at {at}")?;
        let given = told_of(alloc, open_as(alloc, &mut bench, 3));
        same_text(given, opened, &place)?;
        let given = told_of(alloc, Index::remove(&mut bench.folder, SIG));
        same_text(given, removed, &place)?;
    }
    fill(alloc, &mut bench, &two)?;
    for (views, want) in NUMBERS {
        let given = told_of(alloc, open_as(alloc, &mut bench, *views));
        same_text(given, want, "views")?;
    }
    Ok(())
}

/// A root record that is none is found when the index is opened, and one that names no record is found too; it can be removed.
#[test]
fn altered_root_records_are_found(rt: HostRuntime) -> Result<(), Fail> {
    open_altered::<Brand>(rt.alloc(), Blank::new(1))
}

/// What is written over a file, and where; and what is said then by reading the rows of each view, and by an exchange.
type Altered = (u64, &'static [u8], [&'static str; 4]);

/// The index can be opened, and says what stands there.
fn find<L: Ledger>(
    alloc: Global,
    bench: &mut Bench<L>,
    later: &[DocRows],
    altered: &Altered,
) -> Result<(), Fail> {
    let (at, bytes, [first, second, third, exchanged]) = altered;
    overwrite(&mut bench.folder, *at, bytes)?;
    let place = format!(in alloc; "{bytes:?} at {at}")?;
    for (view, want) in [first, second, third].into_iter().enumerate() {
        let given = told_of(alloc, read_view(alloc, bench, view as u32));
        same_text(given, want, &place)?;
    }
    let given = told_of(alloc, exchange_in(alloc, bench, later));
    same_text(given, exchanged, &place)
}

/// Of the file of the two documents: of the first view's leaf its length, its kind and the number of its items, and of the first item
/// the length of the id and the kind of the value; the length of the second view's leaf, and the kind of a value there; the number of
/// items of the third's; of the back-index the length, and the number of its items; and of the root record the place of the first tree,
/// its number of items, which may be greater than that, and the place of the back-index.
const ALTERED_LEAVES: &[Altered] = &[
    (
        8_192,
        b"\x6a",
        ["damaged at 8192", "", "", "damaged at 8192"],
    ),
    (
        8_199,
        b"\x01",
        ["damaged at 8192", "", "", "damaged at 8192"],
    ),
    (
        8_200,
        b"\x01",
        ["damaged at 8192", "", "", "damaged at 8192"],
    ),
    (
        8_201,
        b"\x02",
        ["damaged at 8192", "", "", "damaged at 8192"],
    ),
    (
        8_219,
        b"\x02",
        ["damaged at 8192", "", "", "damaged at 8192"],
    ),
    (
        8_228,
        b"\x08",
        ["damaged at 8192", "", "", "damaged at 8192"],
    ),
    (
        8_307,
        b"\x16",
        ["", "damaged at 8307", "", "damaged at 8307"],
    ),
    (
        8_335,
        b"\x08",
        ["", "damaged at 8307", "", "damaged at 8307"],
    ),
    (
        8_345,
        b"\x02",
        ["", "", "damaged at 8336", "damaged at 8336"],
    ),
    (8_373, b"\x5e", ["", "", "", "damaged at 8373"]),
    (8_382, b"\x01", ["", "", "", "damaged at 8373"]),
    (
        8_494,
        b"\x01",
        ["damaged at 8193", "", "", "damaged at 8193"],
    ),
    (
        8_506,
        b"\x04",
        ["damaged at 8192", "", "", "damaged at 8192"],
    ),
    (
        8_507,
        b"\x04",
        ["damaged at 8192", "", "", "damaged at 8192"],
    ),
    (8_555, b"\x24", ["", "", "", "damaged at 9397"]),
];

fn find_in_leaves<L: Ledger>(alloc: Global, blank: Blank) -> Result<(), Fail>
    requires name { blank.name ≡ L.name }
    requires parts { blank.parts ≡ L.parts }
    requires some { 0 < L.parts }
{
    let mut bench = Bench::<L>::new(alloc, blank)?;
    let two = changes_of(alloc, TWO)?;
    let a = change_of(alloc, "a", &["[[1,6]]", "[[null,false]]", "[]"])?;
    let b = change_of(alloc, "b", &["[[2,4]]", "[]", "[[false,1]]"])?;
    let later = [a, b];
    for altered in ALTERED_LEAVES {
        fill(alloc, &mut bench, &two)?;
        find(alloc, &mut bench, &later, altered)?;
    }
    Ok(())
}

/// Rows that are read and an exchange name the leaf that doesn't fit.
#[test]
fn altered_leaves_are_found(rt: HostRuntime) -> Result<(), Fail> {
    find_in_leaves::<Brand>(rt.alloc(), Blank::new(1))
}

/// 33 documents, with the ids 10 to 42, of which each has a row in the first view.
///
/// A row there has 28 bytes, and 8 before them, so leaves of 16 and 17 rows have 586 and 622 bytes, and stand at 8,192 and 8,778. Their
/// inner node stands at 9,400. An entry of it has 8 bytes each for the place of the child and its number of rows, the last row with 36
/// bytes, and the 17 of a sum behind 8: together 77. With 10 bytes before them it has 164. The leaves of the back-index have 10 bytes
/// and 16 or 17 times 33, and stand at 9,564 and 10,102; its inner node stands at 10,673, and each of its sums has no bytes.
fn numbered_docs(alloc: Global) -> Result<Vec<DocRows>, Fail> {
    let mut changes = Vec::new(alloc);
    for number in 10..43 {
        let id = format!(in alloc; "{number}")?;
        let list = format!(in alloc; "[[{number},1]]")?;
        changes.push(change_of(alloc, &id, &[list.as_str(), "[]", "[]"])?)?;
    }
    Ok(changes)
}

/// Of the file of 33 documents, where the row of the first one is exchanged: of the first view's inner node the length, the kind and the
/// number of children, of its first child the place, which may be that of the second, the number of rows, the kind of the last row's
/// key, the length of the sum and its kind, of which reading rows takes no notice; the lengths of the two leaves, of which the second
/// isn't on the way of an exchange; the same two of the back-index; and of its inner node the length of a sum.
const ALTERED_NODES: &[Altered] = &[
    (
        9_400,
        b"\x9b",
        ["damaged at 9400", "", "", "damaged at 9400"],
    ),
    (9_408, b"\0", ["damaged at 9400", "", "", "damaged at 9400"]),
    (
        9_409,
        b"\x03",
        ["damaged at 9400", "", "", "damaged at 9400"],
    ),
    (
        9_410,
        b"\x4a\x22",
        ["damaged at 8778", "", "", "damaged at 8778"],
    ),
    (
        9_418,
        b"\x11",
        ["damaged at 9400", "", "", "damaged at 9400"],
    ),
    (
        9_434,
        b"\x08",
        ["damaged at 9400", "", "", "damaged at 9400"],
    ),
    (
        9_462,
        b"\x10",
        ["damaged at 9400", "", "", "damaged at 9400"],
    ),
    (9_470, b"\x07", ["", "", "", "damaged at 9400"]),
    (9_547, b"\x07", ["", "", "", "damaged at 9400"]),
    (
        8_192,
        b"\x43",
        ["damaged at 8192", "", "", "damaged at 8192"],
    ),
    (8_778, b"\x67", ["damaged at 8778", "", "", ""]),
    (9_564, b"\x13", ["", "", "", "damaged at 9564"]),
    (10_102, b"\x34", ["", "", "", ""]),
    (10_732, b"\x01", ["", "", "", "damaged at 10673"]),
];

fn find_in_nodes<L: Ledger>(alloc: Global, blank: Blank) -> Result<(), Fail>
    requires name { blank.name ≡ L.name }
    requires parts { blank.parts ≡ L.parts }
    requires some { 0 < L.parts }
{
    let mut bench = Bench::<L>::new(alloc, blank)?;
    let docs = numbered_docs(alloc)?;
    let later = [change_of(alloc, "10", &["[[10,2]]", "[]", "[]"])?];
    for altered in ALTERED_NODES {
        fill(alloc, &mut bench, &docs)?;
        find(alloc, &mut bench, &later, altered)?;
    }
    Ok(())
}

/// The same of inner nodes and the leaves below them.
#[test]
fn altered_nodes_are_found(rt: HostRuntime) -> Result<(), Fail> {
    find_in_nodes::<Brand>(rt.alloc(), Blank::new(1))
}
