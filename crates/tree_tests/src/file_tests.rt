//! Nodes in a file, and a tree there that is committed, whatever a stop leaves.

ghost use Rattle.std.specs.Prelude.{◌≡◌, ◌<◌, IfOk, OnOk};
ghost use Rattle.crash_disk.specs.State.{calls_told, told};
ghost use Rattle.gate_file.specs.Calls.{KeepsIn, Told};

use crate::items::{items_in, pair_of};
use crate::pairs::edits_of;
use builtin_reduces::{BuiltinSummer, RowItem};
use crash_disk::MemoryFolder;
use design_docs::Builtin;
use gate_file::{GateFault, GateFile};
use node_file::{FileNodes, NodeCache, PastNodes, get_node, past_nodes_are_the_files};
use std::alloc::Global;
use std::collections::BTreeMap;
use std::marker::Brand;
use std::sync::ledger::{Blank, Ledger};
use std::test::Fail;
use tree_laws::{NodeStore, Steps, Tree};
use tree_query::Walk;
use tree_tools::{SizedTree, edited};
use view_ports::{FileName, Folder, Stem};

const DOCS: FileName = FileName {
    stem: Stem::Docs,
    side: false,
};

/// What is got at a place of a file in which no bytes, `abc` and 300 bytes were put.
const GOT: &[(u64, &str)] = &[
    (8_192, "0 bytes"),
    (8_200, "3 bytes"),
    (8_211, "300 bytes"),
    (8_193, "damaged"),
    (8_519, "damaged"),
    (8_512, "damaged"),
    (4_096, "damaged"),
    (0, "damaged"),
    (u64::MAX, "damaged"),
    (u64::MAX - 8, "damaged"),
];

/// Puts no bytes, `abc`, and 300 bytes.
fn put_three<F: Folder>(
    alloc: Global,
    cache: &mut NodeCache,
    folder: &mut F,
    file: &mut GateFile,
) -> Result<(), GateFault>
    requires { Told F.Folder folder.old (KeepsIn file.old) }
{
    let mut nodes = FileNodes::over(cache, folder, file);
    nodes.put(alloc, b"")?;
    nodes.put(alloc, b"abc")?;
    nodes.put(alloc, [b'x'; 300].as_slice())?;
    Ok(())
}

fn got_at<F: Folder>(
    alloc: Global,
    cache: &mut NodeCache,
    folder: &mut F,
    at: u64,
) -> Result<String, Fail> {
    match get_node(alloc, cache, folder, DOCS, at) {
        Ok(bytes) => Ok(format!(in alloc; "{} bytes", bytes.len())?),
        Err(GateFault::Damaged { name, offset }) if name == DOCS && offset == at => {
            Ok(format!(in alloc; "damaged")?)
        }
        Err(_) => Err(Fail::from("another fault")),
    }
}

#[test]
fn nodes_are_got_as_they_were_put(rt: HostRuntime) -> Result<(), Fail> {
    let alloc = rt.alloc();
    let mut folder = MemoryFolder::new(alloc, Vec::new(alloc), false)?;
    let mut cache = NodeCache::new(alloc, 1)?;
    let mut file = GateFile::open(&mut folder, Stem::Docs)?;
    put_three(alloc, &mut cache, &mut folder, &mut file)?;
    for (at, want) in GOT {
        let given = got_at(alloc, &mut cache, &mut folder, *at)?;
        assert!(rt; given.as_str() == *want, "at {at}");
    }
    let bytes = GateFile::read(alloc, &mut folder, DOCS, 8_200, 11)?;
    assert!(rt; bytes.as_slice() == b"\x03\0\0\0\0\0\0\0abc".as_slice());
    cache.forget();
    Ok(())
}

/// Keys 0 to 299 in steps of `step`, inserted with a value of their own, or removed.
fn keys_in_steps(
    alloc: Global,
    step: u32,
    inserts: bool,
) -> Result<BTreeMap<i64, Option<i64>>, Fail>
    requires { 0 < step }
{
    let mut changes = BTreeMap::new(alloc);
    for number in 0..300u32 {
        if number % step == 0 {
            let key = i64::from(number);
            changes.insert(key, if inserts { Some(key) } else { None })?;
        }
    }
    Ok(changes)
}

/// The tree with the changes made, in a file.
fn changed<F: Folder, L: Ledger>(
    alloc: Global,
    folder: &mut F,
    file: &mut GateFile,
    tree: &SizedTree,
    changes: &BTreeMap<i64, Option<i64>>,
    steps: &mut Steps<L>,
) -> Result<SizedTree, Fail>
    requires { Told F.Folder folder.old (KeepsIn file.old) }
    ensures { OnOk result (Told F.Folder folder.new (KeepsIn file.new)) }
{
    let edits = edits_of(alloc, changes)?;
    let mut cache = NodeCache::new(alloc, 256)?;
    let mut summer = BuiltinSummer::new(Builtin::Sum);
    let mut nodes = FileNodes::over(&mut cache, folder, file);
    match edited(alloc, &mut nodes, &mut summer, tree, &edits, steps) {
        Ok(after) => Ok(after),
        Err(_) => Err(Fail::from("no tree is made")),
    }
}

/// Commits the tree: its root, its height and its number of items, in 8 bytes each.
fn commit<F: Folder>(
    alloc: Global,
    folder: &mut F,
    file: &mut GateFile,
    tree: Tree,
) -> Result<(), Fail>
    requires { Told F.Folder folder.old (KeepsIn file.old) }
    ensures { OnOk result (Told F.Folder folder.new (KeepsIn file.new)) }
{
    let mut record = Vec::new(alloc);
    for number in [tree.root, tree.height as u64, tree.count] {
        record.extend_from_slice(&number.to_le_bytes())?;
    }
    let at = file.append(folder, record.as_slice())?;
    file.commit(folder, at, record.len() as u64)?;
    Ok(())
}

/// Commits a tree of 300 rows, of 200 of these, and of none.
fn script<F: Folder, L: Ledger>(
    alloc: Global,
    folder: &mut F,
    steps: &mut Steps<L>,
) -> Result<(), Fail> {
    let mut file = GateFile::open(folder, Stem::Docs)?;
    let all = keys_in_steps(alloc, 1, true)?;
    let tree = changed(alloc, folder, &mut file, &SizedTree::empty(), &all, steps)?;
    commit(alloc, folder, &mut file, tree.tree())?;
    let third = keys_in_steps(alloc, 3, false)?;
    let tree = changed(alloc, folder, &mut file, &tree, &third, steps)?;
    commit(alloc, folder, &mut file, tree.tree())?;
    let none = keys_in_steps(alloc, 1, false)?;
    let tree = changed(alloc, folder, &mut file, &tree, &none, steps)?;
    commit(alloc, folder, &mut file, tree.tree())
}

fn number_at(bytes: &[u8], place: usize) -> u64 {
    match bytes.get(place..).and_then(|rest| rest.first_chunk::<8>()) {
        Some(number) => u64::from_le_bytes(*number),
        None => 0,
    }
}

/// How many rows the tree has that is found when the file is opened, each with its key as its value; none where there is no tree.
fn found<L: Ledger>(
    alloc: Global,
    folder: &mut MemoryFolder,
    steps: &mut Steps<L>,
) -> Result<Option<usize>, Fail> {
    let mut file = GateFile::open(folder, Stem::Docs)?;
    let Some((at, length)) = file.root() else {
        return Ok(None);
    };
    let record = GateFile::read(alloc, folder, DOCS, at, length)?;
    let Ok(height) = u32::try_from(number_at(&record, 8)) else {
        return Err(Fail::from("a height that no tree has"));
    };
    let tree = Tree {
        root: number_at(&record, 0),
        height,
        count: number_at(&record, 16),
    };
    let mut cache = NodeCache::new(alloc, 1)?;
    let mut summer = BuiltinSummer::new(Builtin::Sum);
    let mut nodes = FileNodes::over(&mut cache, folder, &mut file);
    let items = items_in(alloc, &mut nodes, &mut summer, tree, steps)?;
    for item in &items {
        match pair_of(item) {
            Some((key, value)) if key == value => {}
            _ => return Err(Fail::from("another row")),
        }
    }
    Ok(Some(items.len()))
}

/// Which of four states a stop within a call leaves: no tree, one of 300 rows, one of 200, and one of none.
fn left_by_stop<L: Ledger>(
    alloc: Global,
    whole: &MemoryFolder,
    call: u64,
    choice: u64,
    steps: &mut Steps<L>,
) -> Result<usize, Fail>
    requires { call < calls_told (told whole.now) }
    ensures { IfOk result (λ place. place < 4) }
{
    let mut image = whole.image_at(alloc, call, choice)?;
    match found(alloc, &mut image, steps)? {
        None => Ok(0),
        Some(300) => Ok(1),
        Some(200) => Ok(2),
        Some(0) => Ok(3),
        Some(_) => Err(Fail::from("a tree that wasn't committed")),
    }
}

/// Which of the states stops leave, at each call and with each choice of what is left: nothing that wasn't synced, all of it, torn
/// ranges, and mixtures.
fn left_by_stops<L: Ledger>(
    alloc: Global,
    whole: &MemoryFolder,
    steps: &mut Steps<L>,
) -> Result<[bool; 4], Fail> {
    let mut seen = [false; 4];
    for call in 0..whole.calls_noted() {
        for choice in 0..5 {
            let place = left_by_stop(alloc, whole, call, choice, steps)?;
            seen[place] = true;
        }
    }
    Ok(seen)
}

/// Commits trees in a folder, and looks at what a stop leaves at each call on it.
fn stop_at_each_call<L: Ledger>(alloc: Global, blank: Blank) -> Result<[bool; 4], Fail>
    requires name { blank.name ≡ L.name }
    requires parts { blank.parts ≡ L.parts }
    requires some { 0 < L.parts }
{
    let mut steps = Steps::<L>::new(blank);
    let mut whole = MemoryFolder::new(alloc, Vec::new(alloc), true)?;
    script(alloc, &mut whole, &mut steps)?;
    left_by_stops(alloc, &whole, &mut steps)
}

#[test]
fn a_stop_leaves_a_committed_tree(rt: HostRuntime) -> Result<(), Fail> {
    let seen = stop_at_each_call::<Brand>(rt.alloc(), Blank::new(1))?;
    assert!(rt; seen == [true; 4]);
    Ok(())
}

/// Ranges of a tree of the keys 0 to 299, or of the one of 200 of these that took its place in the file, and the keys that a walk over
/// the range has, upward or downward.
const WALKS: &[(bool, u64, u64, bool, &str)] = &[
    (false, 0, 4, false, "0 1 2 3"),
    (false, 31, 33, false, "31 32"),
    (false, 296, 300, true, "299 298 297 296"),
    (false, 300, 300, true, ""),
    (true, 0, 4, false, "1 2 4 5"),
    (true, 197, 200, true, "299 298 296"),
];

/// The keys of a walk over a tree in the file, which is read by its name.
fn keys_walked<F: Folder, L: Ledger>(
    alloc: Global,
    folder: &mut F,
    tree: &SizedTree,
    from: u64,
    to: u64,
    descending: bool,
    steps: &mut Steps<L>,
) -> Result<String, Fail> {
    let tree = tree.tree();
    if from > to || to > tree.count {
        return Err(Fail::from("no range"));
    }
    let mut cache = NodeCache::new(alloc, 1)?;
    let mut nodes = PastNodes::over(&mut cache, folder, DOCS);
    let mut walk: Walk<RowItem> = match Walk::start(
        alloc, &mut nodes, tree, from, to, descending, steps,
    ) {
        Ok(walk) => walk,
        Err(_) => return Err(Fail::from("no walk")),
    };
    let mut keys = String::new(alloc);
    for number in from..to {
        let item = match walk.next(alloc, &mut nodes, steps) {
            Ok(item) => item,
            Err(_) => return Err(Fail::from("a walk that ends early")),
        };
        let Some((key, _)) = item.as_ref().and_then(pair_of) else {
            return Err(Fail::from("no row of two numbers"));
        };
        let gap = if number == from { "" } else { " " };
        keys = format!(in alloc; "{keys}{gap}{key}")?;
    }
    match walk.next(alloc, &mut nodes, steps) {
        Ok(None) => Ok(keys),
        _ => Err(Fail::from("a walk without an end")),
    }
}

/// Walks over a tree whose file has got another one, and over that.
fn walk_past_trees<F: Folder, L: Ledger>(
    alloc: Global,
    folder: &mut F,
    steps: &mut Steps<L>,
) -> Result<(), Fail> {
    let mut file = GateFile::open(folder, Stem::Docs)?;
    let all = keys_in_steps(alloc, 1, true)?;
    let first = changed(alloc, folder, &mut file, &SizedTree::empty(), &all, steps)?;
    let third = keys_in_steps(alloc, 3, false)?;
    let second = changed(alloc, folder, &mut file, &first, &third, steps)?;
    for (is_second, from, to, descending, want) in WALKS {
        let tree = if *is_second { &second } else { &first };
        let given = keys_walked(alloc, folder, tree, *from, *to, *descending, steps)?;
        if given.as_str() != *want {
            return Err(Fail::from(format!(in alloc; "{given} from {from} to {to}")?));
        }
    }
    Ok(())
}

fn walk_in_memory<L: Ledger>(alloc: Global, blank: Blank) -> Result<(), Fail>
    requires name { blank.name ≡ L.name }
    requires parts { blank.parts ≡ L.parts }
    requires some { 0 < L.parts }
{
    past_nodes_are_the_files::<MemoryFolder>();
    let mut steps = Steps::<L>::new(blank);
    let mut folder = MemoryFolder::new(alloc, Vec::new(alloc), false)?;
    walk_past_trees(alloc, &mut folder, &mut steps)
}

#[test]
fn trees_are_read_by_the_name_of_their_file(rt: HostRuntime) -> Result<(), Fail> {
    walk_in_memory::<Brand>(rt.alloc(), Blank::new(1))
}
