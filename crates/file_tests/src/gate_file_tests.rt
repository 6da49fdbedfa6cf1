//! Files whose commits are all or nothing: their bytes, what is found in them, and what failed calls and stops leave.

use crate::documents::{DOCS, told};
use crash_disk::MemoryFolder;
use doc_file::DocFault;
use gate_file::{GateFault, GateFile};
use std::alloc::Global;
use std::test::Fail;
use view_ports::{Folder, Stem};

/// A file with three commits, of "root", "second" and "third root", the last of them after it was opened again.
fn script<F: Folder>(folder: &mut F) -> Result<(), GateFault> {
    let mut file = GateFile::open(folder, Stem::Docs)?;
    let first = file.append(folder, b"body root")?;
    file.commit(folder, first + 5, 4)?;
    let second = file.append(folder, b"second")?;
    file.commit(folder, second, 6)?;
    let mut file = GateFile::open(folder, Stem::Docs)?;
    let third = file.append(folder, b"third root")?;
    file.commit(folder, third, 10)
}

/// What may be found while these commits are made.
const ROOTS: [&[u8]; 4] = [b"", b"root", b"second", b"third root"];

/// The root of the last commit, or nothing where there was none.
fn found(alloc: Global, folder: &mut MemoryFolder) -> Result<Vec<u8>, DocFault> {
    let file = GateFile::open(folder, Stem::Docs)?;
    match file.root() {
        None => Ok(Vec::new(alloc)),
        Some((offset, length)) => read(alloc, folder, offset, length),
    }
}

fn read(
    alloc: Global,
    folder: &mut MemoryFolder,
    at: u64,
    length: u64,
) -> Result<Vec<u8>, DocFault> {
    Ok(GateFile::read(alloc, folder, DOCS, at, length)?)
}

/// What is read from the file of the script: a place, how many bytes, and the bytes.
const FORMAT: &[(u64, u64, &[u8])] = &[
    (
        4096,
        32,
        b"CVIEW001\x03\0\0\0\0\0\0\0\x0f\x20\0\0\0\0\0\0\x0a\0\0\0\0\0\0\0",
    ),
    (4160, 1, b"\x01"),
    (
        0,
        32,
        b"CVIEW001\x02\0\0\0\0\0\0\0\x09\x20\0\0\0\0\0\0\x06\0\0\0\0\0\0\0",
    ),
    (64, 1, b"\x01"),
    (8192, 25, b"body rootsecondthird root"),
    (8192, 26, b"damaged at 8192"),
];

#[test]
fn files_have_the_bytes_of_the_format(rt: HostRuntime) -> Result<(), Fail> {
    let alloc = rt.alloc();
    let mut folder = MemoryFolder::new(alloc, Vec::new(alloc), false)?;
    script(&mut folder)?;
    for &(at, length, want) in FORMAT {
        let bytes = told(alloc, read(alloc, &mut folder, at, length))?;
        assert!(rt; bytes.as_slice() == want, "{length} bytes at {at}");
    }
    let file = GateFile::open(&mut folder, Stem::Docs)?;
    let (root, commits) = (file.root(), file.commits());
    assert!(rt; root == Some((8207, 10)) && commits == 3 && file.length() == 8217);
    GateFile::clear(&mut folder, DOCS)?;
    assert!(rt; folder.len(DOCS) == Ok(0));
    Ok(())
}

/// Writes over bytes that the file has.
fn overwrite(folder: &mut MemoryFolder, at: u64, bytes: &[u8]) -> Result<(), Fail> {
    let size = folder.len(DOCS)?;
    if at > size || bytes.len() as u64 > size - at {
        return Err(Fail::from("the file is shorter"));
    }
    folder.write_at(DOCS, at, bytes)?;
    Ok(())
}

/// Bytes that are written over the file of the script, and what is found then. The newest slot is the one at 4,096.
const DAMAGE: &[(u64, &[u8], &str)] = &[
    (16, &[0, 0, 0, 0, 0, 2, 0, 0], "damaged at 0"),
    (4096 + 16, &[0, 0, 0, 0, 0, 2, 0, 0], "damaged at 4096"),
    (7, b"2", "damaged at 0"),
    (8, b"\x03", "damaged at 0"),
    (8, b"\0", "damaged at 0"),
    (14, b"\x04", "damaged at 0"),
    (16, b"\0\0", "damaged at 0"),
    (24, b"\x11", "damaged at 0"),
    (24, b"\x10", "third root"),
    (64, b"\0", "third root"),
    (4096 + 24, b"\x05", "third"),
    (4096 + 64, b"\0", "second"),
];

#[test]
fn damage_is_named_at_its_first_slot(rt: HostRuntime) -> Result<(), Fail> {
    let alloc = rt.alloc();
    for &(at, bytes, want) in DAMAGE {
        let mut folder = MemoryFolder::new(alloc, Vec::new(alloc), false)?;
        script(&mut folder)?;
        overwrite(&mut folder, at, bytes)?;
        let text = told(alloc, found(alloc, &mut folder))?;
        assert!(rt; text.as_slice() == want.as_bytes(), "at {at}");
    }
    Ok(())
}

/// Each call on the folder fails once. The fault is told, and what is found then is the root of a commit.
#[test]
fn a_failed_call_leaves_the_old_root_or_the_new_one(rt: HostRuntime) -> Result<(), Fail> {
    let alloc = rt.alloc();
    for call in 0..u64::MAX {
        let mut folder = MemoryFolder::new(alloc, Vec::from_slice(alloc, &[call])?, false)?;
        let ended = script(&mut folder);
        if ended.is_ok() {
            assert!(rt; call > 30);
            break;
        }
        let root = found(alloc, &mut folder)?;
        assert!(rt;
            ended == Err(GateFault::DiskFault) && ROOTS.contains(&root.as_slice()),
            "call {call}"
        );
    }
    Ok(())
}

/// How many choices of what a crash leaves are tried at each call: nothing that wasn't synced, all of it, torn ranges of
/// 255, and seven mixtures.
const CHOICES: u64 = 10;

#[test]
fn a_crash_at_any_call_leaves_the_old_root_or_the_new_one(rt: HostRuntime) -> Result<(), Fail> {
    let alloc = rt.alloc();
    let mut whole = MemoryFolder::new(alloc, Vec::new(alloc), true)?;
    script(&mut whole)?;
    let mut seen = [false; 4];
    for call in 0..whole.calls_noted() {
        for choice in 0..CHOICES {
            let root = found(alloc, &mut whole.image_at(alloc, call, choice)?)?;
            let place = ROOTS.iter().position(|want| *want == root.as_slice());
            assert!(rt; place.is_some(), "call {call}, choice {choice}");
            if let Some(place) = place {
                seen[place] = true;
            }
        }
    }
    assert!(rt; seen == [true; 4]);
    Ok(())
}
