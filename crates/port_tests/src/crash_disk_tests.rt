//! A folder in memory: its calls, those that fail, and the images that a stop leaves.

use crate::folders::{DOCS, Step, bytes, read, run, take};
use crash_disk::MemoryFolder;
use json_terms::NoMemory;
use std::alloc::Global;
use std::test::Fail;
use view_ports::{FileName, Folder, FolderFault, PortFault, Stem};

const SIDE: FileName = FileName {
    stem: Stem::Docs,
    side: true,
};

const VIEW: FileName = FileName {
    stem: Stem::View([7; 32]),
    side: false,
};

// The bytes of a file as a crash leaves them.
fn image(
    folder: &MemoryFolder,
    alloc: Global,
    call: u64,
    choice: u64,
) -> Result<Vec<u8>, NoMemory> {
    if call >= folder.calls_noted() {
        return Ok(Vec::new(alloc));
    }
    let mut image = folder.image_at(alloc, call, choice)?;
    bytes(&mut image, alloc, DOCS)
}

// The images of the choices 0 to 7, each behind a bar.
fn images(folder: &MemoryFolder, alloc: Global, call: u64) -> Result<Vec<u8>, NoMemory> {
    let mut text = Vec::new(alloc);
    for choice in 0..8 {
        text.push(b'|')?;
        let image = image(folder, alloc, call, choice)?;
        text.extend_from_slice(&image)?;
    }
    Ok(text)
}

fn has_images(
    folder: &MemoryFolder,
    alloc: Global,
    call: u64,
    want: &[u8],
) -> Result<bool, NoMemory> {
    Ok(images(folder, alloc, call)?.as_slice() == want)
}

// What a script leaves while the call with this number fails, and how many steps are refused.
fn run_with_fault(alloc: Global, call: u64, moments: bool) -> Result<(u64, Vec<u8>), NoMemory> {
    let mut folder = MemoryFolder::new(alloc, [call].to_vec(alloc)?, moments)?;
    let script = [
        Step::Grow(4),
        Step::Write(0, b"abcd"),
        Step::Cut,
        Step::Grow(3),
        Step::Write(1, b"xy"),
        Step::Sync,
    ];
    let refused = run(&mut folder, &script);
    Ok((refused, bytes(&mut folder, alloc, DOCS)?))
}

// Whether the script ends so while either call of a step fails, also where no moments are noted.
fn ends_so(alloc: Global, step: u32, refused: u64, left: &[u8]) -> Result<bool, NoMemory> {
    for (call, moments) in [
        (2 * u64::from(step), true),
        (2 * u64::from(step) + 1, true),
        (2 * u64::from(step) + 1, false),
    ] {
        let (steps, got) = run_with_fault(alloc, call, moments)?;
        if steps != refused || got.as_slice() != left {
            return Ok(false);
        }
    }
    Ok(true)
}

// The step that fails (each makes two calls), how many steps are refused, and what is left. A write that finds no room
// is refused too.
const FAILING: &[(u32, u64, &[u8])] = &[
    (0, 2, b"\0xy"),
    (1, 1, b"\0xy"),
    (2, 1, b"axyd\0\0\0"),
    (3, 2, b""),
    (4, 1, b"\0\0\0"),
    (5, 1, b"\0xy"),
    (9, 0, b"\0xy"),
];

#[test]
fn a_call_that_fails_changes_nothing(rt: HostRuntime) -> Result<(), Fail> {
    for (fails, refused, left) in FAILING {
        assert!(rt;
            ends_so(rt.alloc(), *fails, *refused, left)?,
            "step {fails}"
        );
    }
    Ok(())
}

// Calls, and their images of the choices 0 to 7.
const IMAGES: &[(u64, &[u8])] = &[
    (5, b"||abcd|\xff\xff\xff\xff|\0\0\0\0||\0\0\0\0||abcd"),
    (7, b"|abcd|aXYd|a\xff\xffd|abcd|aXYd|a\xff\xffd|abcd|aXYd"),
    (
        9,
        b"|abcd|aXYd\0\0|a\xff\xffd\0\0|abcd\0\0|abcd|abcd\0\0|abcd|aXYd\0\0",
    ),
    (11, b"|abcd||||abcd\0\0|abcd||abcd\0\0"),
    (13, b"|abcd|\0\0\0|\0\xff\xff|abc||abcd\0\0|abcd|\0\0\0"),
    (17, b"|abcd|Z\0\0|\xff\xff\xff|abc||abcd\0\0|abcd|\0\0\0"),
];

#[test]
fn a_crash_leaves_one_of_the_images(rt: HostRuntime) -> Result<(), Fail> {
    let alloc = rt.alloc();
    let mut folder = MemoryFolder::new(alloc, Vec::new(alloc), true)?;
    let script = [
        Step::Grow(4),
        Step::Write(0, b"abcd"),
        Step::Sync,
        Step::Write(1, b"XY"),
        Step::Grow(2),
        Step::Cut,
        Step::Grow(3),
        Step::Write(0, b"Z"),
        Step::Sync,
    ];
    assert!(rt; run(&mut folder, &script) == 0 && folder.calls_noted() == 18);
    for (call, want) in IMAGES {
        assert!(rt; has_images(&folder, alloc, *call, want)?, "call {call}");
    }
    Ok(())
}

// Whether these files are listed, in this order.
fn lists(
    folder: &mut MemoryFolder,
    alloc: Global,
    names: &[FileName],
) -> Result<bool, FolderFault> {
    let listed = folder.names(alloc)?;
    Ok(listed.as_slice() == names)
}

// Whether each read of a list gives what it should. The last fills the room with zeros.
fn reads_so(folder: &mut MemoryFolder) -> bool {
    let mut into = [9; 2];
    for (name, at, want) in [
        (DOCS, 0, Ok(1)),
        (DOCS, 1, Err(PortFault)),
        (DOCS, 1, Ok(0)),
        (VIEW, 7, Ok(0)),
        (VIEW, 0, Ok(2)),
    ] {
        if read(folder, name, at, &mut into) != want {
            return false;
        }
    }
    into == [0, 0]
}

// The call with the number 8 fails, which is a read.
#[test]
fn files_with_bytes_are_listed(rt: HostRuntime) -> Result<(), Fail> {
    let mut folder = MemoryFolder::new(rt.alloc(), [8].to_vec(rt.alloc())?, true)?;
    for (name, by) in [(VIEW, 2), (SIDE, 0), (DOCS, 1)] {
        take(&mut folder, name, Step::Grow(by))?;
    }
    assert!(rt; lists(&mut folder, rt.alloc(), &[VIEW, DOCS])?);
    assert!(rt; reads_so(&mut folder));
    take(&mut folder, VIEW, Step::Cut)?;
    assert!(rt; lists(&mut folder, rt.alloc(), &[DOCS])?);
    Ok(())
}
