//! What no contract says: what the files of the real folder hold, and which calls on it fail.

use crate::folders::{DOCS, Step, bytes, read, run};
use json_terms::NoMemory;
use real_ports::{Diagnostics, FILE_TEXT_LIMIT, Program, RealFolder, file_text, read_file_name};
use std::alloc::Global;
use std::os::unix::fs::symlink;
use std::test::Fail;
use std::{fs, io};
use view_ports::{FileName, Folder, FolderFault, PortFault, Stem};

const FULL: &str = "aaaaaaaaaaaaaaaaaaaaaaaaaaaaaaaa.1";

const LINK: &str = "cccccccccccccccccccccccccccccccc.1";

/// A folder's name that is no text.
const NO_TEXT: &[u8] = b"\xff";

/// A folder of this name, which is made anew, and in which the test goes on.
fn enter(rt: HostRuntime, name: &str) -> io::Result<RealFolder> {
    let _ = fs::remove_dir_all(&rt, name);
    fs::create_dir(&rt, name)?;
    os::chdir(name.as_bytes());
    Ok(folder_here(rt))
}

/// The folder in which the test is.
fn folder_here(rt: HostRuntime) -> RealFolder {
    RealFolder::new(rt, Diagnostics::new(rt, Program::Couchview))
}

/// The file of a signature of one digit.
fn view(digit: u8) -> FileName {
    FileName {
        stem: Stem::View([digit; 32]),
        side: true,
    }
}

/// Whether the text is read as a name, and is that name's text.
fn is_name(text: &str) -> bool {
    let mut room = [0; FILE_TEXT_LIMIT];
    match read_file_name(text.as_bytes()) {
        Some(name) => file_text(&name, &mut room) == text.as_bytes(),
        None => false,
    }
}

/// Texts, and whether they are those of names.
const NAMES: &[(&str, bool)] = &[
    ("docs.0", true),
    ("docs.1", true),
    ("0123456789abcdef0123456789abcdef.1", true),
    ("docs", false),
    ("docs.2", false),
    (".0", false),
    ("docs.0 ", false),
    ("Docs.0", false),
    ("0123456789ABCDEF0123456789ABCDEF.1", false),
    ("0123456789abcdef.1", false),
];

#[test]
fn names_have_their_texts(rt: HostRuntime) {
    for (text, want) in NAMES {
        assert!(rt; is_name(text) == *want, "{text}");
    }
}

/// Whether all the steps are taken, and the file of documents holds these bytes then.
fn leaves(
    folder: &mut RealFolder,
    alloc: Global,
    steps: &[Step],
    want: &[u8],
) -> Result<bool, NoMemory> {
    let refused = run(folder, steps);
    let held = bytes(folder, alloc, DOCS)?;
    Ok(refused == 0 && held.as_slice() == want)
}

/// A slot in which a commit stands.
const COMMITTED: &[u8] = b"CVIEW001........................................................\x01";

const WRITTEN: &[Step] = &[
    Step::Cut,
    Step::Sync,
    Step::Grow(65),
    Step::Write(0, COMMITTED),
    Step::Sync,
];

#[test]
fn a_file_holds_what_was_written(rt: HostRuntime) -> Result<(), Fail> {
    let mut folder = enter(rt, "written")?;
    assert!(rt; leaves(&mut folder, rt.alloc(), WRITTEN, &COMMITTED[..16])?);
    drop(folder);
    let mut later = folder_here(rt);
    assert!(rt; leaves(&mut later, rt.alloc(), &[], &COMMITTED[..16])?);
    let mut part = [0; 2];
    let count = read(&mut later, DOCS, 2, &mut part);
    assert!(rt; count == Ok(2) && part == *b"IE" && read(&mut later, DOCS, 65, &mut part) == Ok(0));
    let steps = [Step::Cut, Step::Grow(2), Step::Sync];
    assert!(rt; leaves(&mut later, rt.alloc(), &steps, b"\0\0")?);
    drop(later);
    assert!(rt; leaves(&mut folder_here(rt), rt.alloc(), &[], b"\0\0")?);
    Ok(())
}

// The first call takes the lock, and it goes with the folder.
#[test]
fn a_folder_is_used_by_one_at_a_time(rt: HostRuntime) -> Result<(), Fail> {
    let mut folder = enter(rt, "one")?;
    let mut other = folder_here(rt);
    assert!(rt; folder.len(DOCS) == Ok(0) && other.len(DOCS).is_err());
    assert!(rt; other.names(rt.alloc()).is_err() && all_fail(&mut other, DOCS));
    drop(folder);
    assert!(rt; other.len(DOCS) == Ok(0));
    Ok(())
}

/// The front of a file, and whether it is taken for one of a database.
const FRONTS: &[(&[u8], bool)] = &[
    (b"", true),
    (b"\0", true),
    (COMMITTED, true),
    (b"CVIEW001 and more", false),
    (b"CVIEW00", false),
    (b"a text\n", false),
    (b"\0\0\0\x01", false),
    (b" CVIEW001", false),
];

// A file that has another name too isn't used, since a cut would take its bytes there as well.
#[test]
fn only_files_of_one_name_are_used(rt: HostRuntime) -> Result<(), Fail> {
    let mut folder = enter(rt, "linked")?;
    fs::write(&rt, "docs.0", COMMITTED)?;
    fs::hard_link(&rt, "docs.0", "other")?;
    assert!(rt; all_fail(&mut folder, DOCS));
    fs::remove_file(&rt, "other")?;
    assert!(rt; folder.len(DOCS) == Ok(65));
    Ok(())
}

// No call on a file of another program succeeds, and it stays as it is.
#[test]
fn only_files_of_a_database_are_used(rt: HostRuntime) -> Result<(), Fail> {
    let folder = enter(rt, "own")?;
    drop(folder);
    for (front, want) in FRONTS {
        fs::write(&rt, "docs.0", *front)?;
        let mut folder = folder_here(rt);
        assert!(rt; folder.len(DOCS).is_ok() == *want, "{front:?}");
        assert!(rt; *want || all_fail(&mut folder, DOCS), "{front:?}");
        assert!(rt; fs::read(&rt, "docs.0")?.as_slice() == *front, "{front:?}");
    }
    Ok(())
}

/// Makes a link to a file of the folder, a file with another name, and a folder.
fn put_strays(rt: &HostRuntime) -> io::Result<()> {
    symlink(rt, FULL, LINK)?;
    fs::write(rt, "docs.2", b"stray".as_slice())?;
    os::mkdir(NO_TEXT);
    Ok(())
}

/// Whether the file of a full signature is listed, that of an empty one, and that of a link.
fn are_listed(folder: &mut RealFolder, alloc: Global) -> Result<[bool; 3], FolderFault> {
    let names = folder.names(alloc)?;
    Ok([
        names.contains(&view(b'a')),
        names.contains(&view(b'b')),
        names.contains(&view(b'c')),
    ])
}

#[test]
fn only_files_with_bytes_are_listed(rt: HostRuntime) -> Result<(), Fail> {
    let mut folder = enter(rt, "listed")?;
    folder.grow(view(b'a'), 1)?;
    folder.grow(view(b'b'), 0)?;
    put_strays(&rt)?;
    assert_eq!(rt; are_listed(&mut folder, rt.alloc())?, [true, false, false]);
    assert_eq!(rt; os::rmdir(NO_TEXT), 0);
    Ok(())
}

/// Whether each call on the file fails.
fn all_fail(folder: &mut RealFolder, name: FileName) -> bool {
    folder.len(name).is_err()
        && folder.read_at(name, 0, &mut [0]).is_err()
        && folder.write_at(name, 0, b"").is_err()
        && folder.grow(name, 1).is_err()
        && folder.cut_to_zero(name).is_err()
        && folder.sync(name).is_err()
}

// A folder has the first name, and no file may have the second.
#[test]
fn no_call_succeeds_on_what_is_no_file(rt: HostRuntime) -> Result<(), Fail> {
    let mut folder = enter(rt, "taken")?;
    fs::create_dir(&rt, "docs.1")?;
    let taken = FileName {
        stem: Stem::Docs,
        side: true,
    };
    for name in [taken, view(b'/')] {
        assert!(rt; all_fail(&mut folder, name), "{name:?}");
    }
    Ok(())
}

#[test]
fn no_write_makes_a_file_longer(rt: HostRuntime) -> Result<(), Fail> {
    let mut folder = enter(rt, "long")?;
    let name = view(b'd');
    assert!(rt; folder.write_at(name, 0, b"x").is_err());
    folder.grow(name, 2)?;
    assert!(rt; folder.write_at(name, 1, b"xy").is_err());
    assert_eq!(rt;
        bytes(&mut folder, rt.alloc(), name)?.as_slice(),
        b"\0\0".as_slice()
    );
    Ok(())
}

/// How many files one folder is used with, and how many of them may be open at a time.
const MANY: u64 = 300;

const OPEN_LIMIT: usize = 64;

/// The place in a file behind a slot's header.
const BEHIND: u64 = 65;

/// The file of the signature that this number is in 32 digits.
fn numbered(number: u64) -> FileName {
    let mut digits = [0; 32];
    let mut rest = number;
    for digit in digits.iter_mut().rev() {
        *digit = b'0' + (rest % 10) as u8;
        rest /= 10;
    }
    FileName {
        stem: Stem::View(digits),
        side: false,
    }
}

/// How many files this process has open.
fn open_count(rt: &HostRuntime) -> io::Result<usize> {
    let mut count = 0_usize;
    for entry in fs::read_dir(rt, "/proc/self/fd")? {
        let _entry = entry?;
        count = count.saturating_add(1);
    }
    Ok(count)
}

/// Makes the file of each number, which holds the number, and begins as no file does that a run leaves. Then writes the front
/// of each, in another order.
fn write_many(folder: &mut RealFolder) -> Result<(), PortFault> {
    for number in 0..MANY {
        let name = numbered(number);
        folder.grow(name, BEHIND + 8)?;
        folder.write_at(name, 0, b"x")?;
        folder.write_at(name, BEHIND, &number.to_le_bytes())?;
    }
    for step in 0..MANY {
        let name = numbered(step * 7 % MANY);
        folder.write_at(name, 0, COMMITTED)?;
        if step % 3 == 0 {
            folder.sync(name)?;
        }
    }
    Ok(())
}

/// Whether the file of each number holds it.
fn all_hold(folder: &mut RealFolder) -> Result<bool, PortFault> {
    for step in 0..MANY {
        let number = step * 11 % MANY;
        let mut held = [0; 8];
        let count = folder.read_at(numbered(number), BEHIND, &mut held)?;
        if count != 8 || held != number.to_le_bytes() {
            return Ok(false);
        }
    }
    Ok(true)
}

// Beside the files the folder itself is open.
#[test]
fn many_files_are_used_with_few_open(rt: HostRuntime) -> Result<(), Fail> {
    let mut folder = enter(rt, "many")?;
    let most = open_count(&rt)?.saturating_add(OPEN_LIMIT + 1);
    write_many(&mut folder)?;
    assert!(rt; all_hold(&mut folder)? && open_count(&rt)? == most);
    drop(folder);
    let mut later = folder_here(rt);
    assert!(rt; all_hold(&mut later)? && open_count(&rt)? == most);
    assert_eq!(rt; later.names(rt.alloc())?.len() as u64, MANY);
    Ok(())
}
