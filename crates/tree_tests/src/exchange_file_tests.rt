//! Exchanges of the rows of documents over a file: its bytes, and what is said of a file that was altered.

ghost use Rattle.std.specs.Prelude.{◌≡◌, ◌<◌, IfOk, OnOk};
ghost use Rattle.gate_file.specs.Calls.{KeepsIn, Told};

use crate::indexes::{
    Doc, SizedTrees, changes_of, design_of, entries_text, exchanged, rows_text, walked,
};
use builtin_reduces::RowItem;
use crash_disk::MemoryFolder;
use gate_file::{GateFault, GateFile};
use index_items::BackItem;
use node_file::{FileNodes, NodeCache, PastNodes};
use std::alloc::Global;
use std::marker::Brand;
use std::sync::ledger::{Blank, Ledger};
use std::test::Fail;
use test_tools::same_text;
use tree_laws::{Steps, TreeFault};
use view_ports::{FileName, Folder, Stem};

const DOCS: FileName = FileName {
    stem: Stem::Docs,
    side: false,
};

/// A view without a reduce.
const ONE_VIEW: &str = r#"{"_id":"_design/d","language":"field","views":{"v":{"map":"a"}}}"#;

/// Five documents with a row each.
const FIVE: &[Doc] = &[
    ("a", &["[[1,null]]"]),
    ("b", &["[[2,null]]"]),
    ("c", &["[[2,null]]"]),
    ("d", &["[[2,null]]"]),
    ("e", &["[[3,null]]"]),
];

/// The leaf of their rows behind its length: a leaf of 5 items, each behind its length of 19 bytes. These are 9 of the key, 5 of the
/// id, 4 of the place and 1 of the value.
const ROWS_LEAF: &[u8] = b"\x89\0\0\0\0\0\0\0\0\x05\
    \x13\0\0\0\0\0\0\0\x01\x01\0\0\0\0\0\0\0\x01\0\0\0a\0\0\0\0\x03\
    \x13\0\0\0\0\0\0\0\x01\x02\0\0\0\0\0\0\0\x01\0\0\0b\0\0\0\0\x03\
    \x13\0\0\0\0\0\0\0\x01\x02\0\0\0\0\0\0\0\x01\0\0\0c\0\0\0\0\x03\
    \x13\0\0\0\0\0\0\0\x01\x02\0\0\0\0\0\0\0\x01\0\0\0d\0\0\0\0\x03\
    \x13\0\0\0\0\0\0\0\x01\x03\0\0\0\0\0\0\0\x01\0\0\0e\0\0\0\0\x03";

/// The leaf of the back-index behind its length: a leaf of 5 items, each behind its length of 24 bytes. These are 5 of the id, 4 of
/// the number of rows, and of the one row 2 of the view, 9 of the key and 4 of the place.
const BACK_LEAF: &[u8] = b"\xa2\0\0\0\0\0\0\0\0\x05\
    \x18\0\0\0\0\0\0\0\x01\0\0\0a\x01\0\0\0\0\0\x01\x01\0\0\0\0\0\0\0\0\0\0\0\
    \x18\0\0\0\0\0\0\0\x01\0\0\0b\x01\0\0\0\0\0\x01\x02\0\0\0\0\0\0\0\0\0\0\0\
    \x18\0\0\0\0\0\0\0\x01\0\0\0c\x01\0\0\0\0\0\x01\x02\0\0\0\0\0\0\0\0\0\0\0\
    \x18\0\0\0\0\0\0\0\x01\0\0\0d\x01\0\0\0\0\0\x01\x02\0\0\0\0\0\0\0\0\0\0\0\
    \x18\0\0\0\0\0\0\0\x01\0\0\0e\x01\0\0\0\0\0\x01\x03\0\0\0\0\0\0\0\0\0\0\0";

/// The text of a fault of a file, and of any other fault that it is another.
fn fault_text<M: Drop>(alloc: Global, fault: TreeFault<GateFault, M>) -> Result<String, Fail> {
    match fault {
        TreeFault::Store(GateFault::Damaged { name, offset }) if name == DOCS => {
            Ok(format!(in alloc; "damaged at {offset}")?)
        }
        TreeFault::BadNode(at) => Ok(format!(in alloc; "bad node at {at}")?),
        _ => Ok(format!(in alloc; "another fault")?),
    }
}

/// The trees with these documents exchanged in a file, or the text of the fault.
fn in_file<F: Folder, L: Ledger>(
    alloc: Global,
    folder: &mut F,
    file: &mut GateFile,
    trees: &SizedTrees,
    docs: &[Doc],
    steps: &mut Steps<L>,
) -> Result<Result<SizedTrees, String>, Fail>
    requires { Told F.Folder folder.old (KeepsIn file.old) }
    ensures { IfOk result (λ after. OnOk after (Told F.Folder folder.new (KeepsIn file.new))) }
{
    let design = design_of(alloc, ONE_VIEW)?;
    let changes = changes_of(alloc, docs)?;
    let mut cache = NodeCache::new(alloc, 256)?;
    let mut nodes = FileNodes::over(&mut cache, folder, file);
    match exchanged(alloc, &mut nodes, &design, trees, &changes, steps) {
        Ok(after) => Ok(Ok(after)),
        Err(fault) => Ok(Err(fault_text(alloc, fault)?)),
    }
}

/// The trees of the five documents in a new file, and the file.
fn five_in<F: Folder, L: Ledger>(
    alloc: Global,
    folder: &mut F,
    steps: &mut Steps<L>,
) -> Result<(GateFile, SizedTrees), Fail>
    ensures { IfOk result (λ made. Told F.Folder folder.new (KeepsIn made.0)) }
{
    let mut file = GateFile::open(folder, Stem::Docs)?;
    let empty = SizedTrees::empty(alloc, 1)?;
    match in_file(alloc, folder, &mut file, &empty, FIVE, steps)? {
        Ok(trees) => Ok((file, trees)),
        Err(fault) => Err(Fail::from(fault)),
    }
}

/// Where the leaf of the back-index stands, and where the file ends.
const BACK: u64 = 8_192 + 145;

const END: u64 = 8_192 + 145 + 170;

/// Exchanges the five documents, and looks at the file, the trees and what they show.
fn look_at_five<F: Folder, L: Ledger>(
    alloc: Global,
    folder: &mut F,
    steps: &mut Steps<L>,
) -> Result<(), Fail> {
    let (file, trees) = five_in(alloc, folder, steps)?;
    let size = folder.len(DOCS)?;
    if file.length() != END || size != END {
        return Err(Fail::from("another length"));
    }
    for (tree, root) in [(trees.view(0).tree(), 8_192), (trees.back().tree(), BACK)] {
        if (tree.root, tree.height, tree.count) != (root, 1, 5) {
            return Err(Fail::from("another tree"));
        }
    }
    for (at, want) in [(8_192, ROWS_LEAF), (BACK, BACK_LEAF)] {
        let bytes = GateFile::read(alloc, folder, DOCS, at, want.len() as u64)?;
        if bytes.as_slice() != want {
            return Err(Fail::from(format!(in alloc; "other bytes at {at}")?));
        }
    }
    let rows = walk_text(alloc, folder, &trees, false, steps);
    same_text(
        rows,
        "1 a 0 null;2 b 0 null;2 c 0 null;2 d 0 null;3 e 0 null;",
        "rows",
    )?;
    let entries = walk_text(alloc, folder, &trees, true, steps);
    same_text(
        entries,
        "a: 0 1 0,;b: 0 2 0,;c: 0 2 0,;d: 0 2 0,;e: 0 3 0,;",
        "entries",
    )
}

/// The rows of the view, or the entries of the back-index, or the text of the fault that ends a walk over them.
fn walk_text<F: Folder, L: Ledger>(
    alloc: Global,
    folder: &mut F,
    trees: &SizedTrees,
    is_back: bool,
    steps: &mut Steps<L>,
) -> Result<String, Fail> {
    let mut cache = NodeCache::new(alloc, 1)?;
    let mut nodes = PastNodes::over(&mut cache, folder, DOCS);
    if is_back {
        return match walked::<_, BackItem, L>(alloc, &mut nodes, &trees.back(), steps) {
            Ok(entries) => entries_text(alloc, &entries),
            Err(fault) => fault_text(alloc, fault),
        };
    }
    match walked::<_, RowItem, L>(alloc, &mut nodes, &trees.view(0), steps) {
        Ok(rows) => rows_text(alloc, &rows),
        Err(fault) => fault_text(alloc, fault),
    }
}

fn exchange_five<L: Ledger>(alloc: Global, blank: Blank) -> Result<(), Fail>
    requires name { blank.name ≡ L.name }
    requires parts { blank.parts ≡ L.parts }
    requires some { 0 < L.parts }
{
    let mut steps = Steps::<L>::new(blank);
    let mut folder = MemoryFolder::new(alloc, Vec::new(alloc), false)?;
    look_at_five(alloc, &mut folder, &mut steps)
}

#[test]
fn leaves_have_the_bytes_of_the_format(rt: HostRuntime) -> Result<(), Fail> {
    exchange_five::<Brand>(rt.alloc(), Blank::new(1))
}

/// What is written over the file of the five documents, where, and what is said then, by an exchange and by a walk over the tree. Of
/// the leaf of the rows it is its length, the number of its items, the length of the first one, and of that the kind of the key, the
/// length of the id and its byte, and the kind of the value; of the leaf of the back-index the same, and the number of rows. The file
/// has one byte behind the two leaves.
const ALTERED: &[(u64, &[u8], &str)] = &[
    (8_192, b"\x88", "bad node at 8192"),
    (8_192, b"\x8a", "bad node at 8192"),
    (8_199, b"\x01", "damaged at 8192"),
    (8_200, b"\x01", "bad node at 8192"),
    (8_200, b"\x02", "bad node at 8192"),
    (8_201, b"\x04", "bad node at 8192"),
    (8_201, b"\x06", "bad node at 8192"),
    (8_202, b"\x12", "bad node at 8192"),
    (8_202, b"\x14", "bad node at 8192"),
    (8_210, b"\x09", "bad node at 8192"),
    (8_219, b"\x02", "bad node at 8192"),
    (8_223, b"\xff", "bad node at 8192"),
    (8_228, b"\x08", "bad node at 8192"),
    (8_337, b"\xa1", "bad node at 8337"),
    (8_337, b"\xa3", "bad node at 8337"),
    (8_337, b"\xa4", "damaged at 8337"),
    (8_345, b"\x01", "bad node at 8337"),
    (8_346, b"\x04", "bad node at 8337"),
    (8_347, b"\x19", "bad node at 8337"),
    (8_355, b"\0", "bad node at 8337"),
    (8_360, b"\0", "bad node at 8337"),
    (8_360, b"\x02", "bad node at 8337"),
    (8_366, b"\x09", "bad node at 8337"),
];

/// Writes over bytes that the file has.
fn overwrite(folder: &mut MemoryFolder, at: u64, bytes: &[u8]) -> Result<(), Fail> {
    let size = folder.len(DOCS)?;
    if at > size || bytes.len() as u64 > size - at {
        return Err(Fail::from("the file is shorter"));
    }
    folder.write_at(DOCS, at, bytes)?;
    Ok(())
}

/// Commits one byte behind the nodes.
fn commit<F: Folder>(folder: &mut F, file: &mut GateFile) -> Result<(), Fail>
    requires { Told F.Folder folder.old (KeepsIn file.old) }
{
    let at = file.append(folder, b"r")?;
    file.commit(folder, at, 1)?;
    Ok(())
}

/// The texts of the faults of an exchange and of a walk, after these bytes were written over the file of the five documents.
fn faults_after<L: Ledger>(
    alloc: Global,
    at: u64,
    bytes: &[u8],
    steps: &mut Steps<L>,
) -> Result<(String, String), Fail> {
    let mut folder = MemoryFolder::new(alloc, Vec::new(alloc), false)?;
    let (mut file, trees) = five_in(alloc, &mut folder, steps)?;
    commit(&mut folder, &mut file)?;
    overwrite(&mut folder, at, bytes)?;
    let mut file = GateFile::open(&mut folder, Stem::Docs)?;
    let later: &[Doc] = &[("c", &["[[4,null]]"])];
    let Err(fault) = in_file(alloc, &mut folder, &mut file, &trees, later, steps)? else {
        return Err(Fail::from("rows were exchanged"));
    };
    let walk = walk_text(alloc, &mut folder, &trees, at >= BACK, steps)?;
    Ok((fault, walk))
}

fn alter_five<L: Ledger>(alloc: Global, blank: Blank) -> Result<(), Fail>
    requires name { blank.name ≡ L.name }
    requires parts { blank.parts ≡ L.parts }
    requires some { 0 < L.parts }
{
    let mut steps = Steps::<L>::new(blank);
    for (at, bytes, want) in ALTERED {
        let (fault, walk) = faults_after(alloc, *at, bytes, &mut steps)?;
        let place = format!(in alloc; "{bytes:?} at {at}")?;
        same_text(Ok(fault), want, &place)?;
        same_text(Ok(walk), want, &place)?;
    }
    Ok(())
}

#[test]
fn altered_leaves_are_found(rt: HostRuntime) -> Result<(), Fail> {
    alter_five::<Brand>(rt.alloc(), Blank::new(1))
}
