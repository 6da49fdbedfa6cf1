//! Revisions, root records, and which writes are accepted.

use doc_file::{
    DocFault, LastWrite, Rev, RootRecord, is_revision, may_delete, may_put, read_root, write_root,
};
use std::test::Fail;

const REVISIONS: &[(&str, bool)] = &[
    ("1-00000000000000000000000000000002", true),
    ("9223372036854775807-ffffffffffffffffffffffffffffffff", true),
    (
        "9223372036854775808-00000000000000000000000000000002",
        false,
    ),
    (
        "18446744073709551617-00000000000000000000000000000002",
        false,
    ),
    ("0-00000000000000000000000000000002", false),
    ("01-00000000000000000000000000000002", false),
    ("+1-00000000000000000000000000000002", false),
    ("-00000000000000000000000000000002", false),
    ("1-0000000000000000000000000000000", false),
    ("1-000000000000000000000000000000002", false),
    ("1-0000000000000000000000000000000A", false),
    ("1-0000000000000000000000000000000g", false),
    ("1-0000000000000000000000000000000/", false),
    ("1-0000000000000000000000000000000:", false),
    ("1_00000000000000000000000000000002", false),
    ("x-00000000000000000000000000000002", false),
    ("\u{e9}-00000000000000000000000000000002", false),
    ("", false),
    ("-", false),
];

#[test]
fn revisions_are_told_from_other_texts(rt: HostRuntime) -> Result<(), Fail> {
    for &(text, want) in REVISIONS {
        assert!(rt; is_revision(text) == want, "{text}");
    }
    Ok(())
}

const REVISION_TEXTS: &[(u64, u64, &str)] = &[
    (1, 2, "1-00000000000000000000000000000002"),
    (10, 0x1ab, "10-000000000000000000000000000001ab"),
    (
        u64::MAX,
        u64::MAX,
        "18446744073709551615-0000000000000000ffffffffffffffff",
    ),
];

#[test]
fn revisions_are_written(rt: HostRuntime) -> Result<(), Fail> {
    for &(generation, seq, want) in REVISION_TEXTS {
        let text = Rev { generation, seq }.text(rt.alloc())?;
        assert!(rt; text.as_str() == want);
    }
    Ok(())
}

/// The root record of 300 writes with three ids: `a`, live; `b`, deleted; and `é`, live. One byte too many stands
/// behind it.
const ROOT: &[u8; 132] = b"\x2c\x01\0\0\0\0\0\0\x03\0\0\0\0\0\0\0\
\x22\0\0\0\x01\0\0\0a\x03\0\0\0\0\0\0\0\x02\0\0\0\0\0\0\0\0\x00\x20\0\0\0\0\0\0\x28\0\0\0\
\x22\0\0\0\x01\0\0\0b\x02\0\0\0\0\0\0\0\x01\0\0\0\0\0\0\0\x01\0\0\0\0\0\0\0\0\0\0\0\0\
\x23\0\0\0\x02\0\0\0\xc3\xa9\x02\x01\0\0\0\0\0\0\x01\0\0\0\0\0\0\0\0\x28\x20\0\0\0\0\0\0\x01\0\x01\0\
\0";

const READ: [(&str, LastWrite); 3] = [
    (
        "a",
        LastWrite {
            seq: 3,
            generation: 2,
            deleted: false,
            offset: 8192,
            length: 40,
        },
    ),
    (
        "b",
        LastWrite {
            seq: 2,
            generation: 1,
            deleted: true,
            offset: 0,
            length: 0,
        },
    ),
    (
        "\u{e9}",
        LastWrite {
            seq: 258,
            generation: 1,
            deleted: false,
            offset: 8232,
            length: 65537,
        },
    ),
];

/// Whether the root record says what `ROOT` does.
fn is_read(root: &RootRecord) -> bool {
    root.seq == 300
        && root.entries.len() == READ.len()
        && root.entries.iter().zip(READ.iter()).all(|(entry, (id, last))| entry.id.as_str() == *id
            && entry.last == *last)
}

/// A byte of the root record that is changed, the least and the greatest number of its bytes that are read, and whether they say
/// what `ROOT` does.
const CHANGED: &[(usize, u8, usize, usize, bool)] = &[
    (0, 44, 131, 131, true),
    (0, 44, 0, 130, false),
    (0, 44, 132, 132, false),
    // One entry more, and many more.
    (8, 4, 131, 131, false),
    (15, 255, 131, 131, false),
    // The length of the first item, and of its id.
    (16, 35, 131, 131, false),
    (20, 2, 131, 131, false),
    // An id that isn't UTF-8, one that is equal to the next, and one past it.
    (24, 255, 131, 131, false),
    (24, b'b', 131, 131, false),
    (24, b'c', 131, 131, false),
    // A flag that is neither 0 nor 1, and a tombstone with a body.
    (41, 2, 131, 131, false),
    (41, 1, 131, 131, false),
];

#[test]
fn root_records_are_read(rt: HostRuntime) -> Result<(), Fail> {
    for &(at, byte, least, most, want) in CHANGED {
        let mut bytes = *ROOT;
        if at < bytes.len() {
            bytes[at] = byte;
        }
        for size in least..=most {
            let is_same = match read_root(rt.alloc(), &bytes[..size.min(bytes.len())])? {
                Some(root) => is_read(&root),
                None => false,
            };
            assert!(rt; is_same == want, "byte {at}, {size} bytes");
        }
    }
    Ok(())
}

#[test]
fn root_records_are_written(rt: HostRuntime) -> Result<(), Fail> {
    let none = write_root(rt.alloc(), 258, &[])?;
    assert!(rt; none.as_slice() == b"\x02\x01\0\0\0\0\0\0\0\0\0\0\0\0\0\0".as_slice());
    Ok(())
}

/// The word for what is answered.
fn word_of(answer: Result<(), DocFault>) -> &'static str {
    match answer {
        Ok(()) => "accepted",
        Err(DocFault::Conflict) => "conflict",
        Err(DocFault::Missing) => "missing",
        Err(DocFault::Deleted) => "deleted",
        Err(_) => "another fault",
    }
}

const PRESENT: Option<&str> = Some("2-00000000000000000000000000000007");

const OTHER: Option<&str> = Some("1-00000000000000000000000000000007");

/// The state of an id, the revision that is given, and what a put and a deletion answer.
const ACCEPTED: &[(Option<bool>, Option<&str>, &str, &str)] = &[
    (None, None, "accepted", "missing"),
    (None, PRESENT, "conflict", "missing"),
    (Some(false), None, "conflict", "conflict"),
    (Some(false), PRESENT, "accepted", "accepted"),
    (Some(false), OTHER, "conflict", "conflict"),
    (Some(true), None, "accepted", "deleted"),
    (Some(true), PRESENT, "accepted", "deleted"),
    (Some(true), OTHER, "conflict", "deleted"),
];

#[test]
fn the_last_write_decides_what_is_accepted(rt: HostRuntime) -> Result<(), Fail> {
    for &(deleted, given, put, delete) in ACCEPTED {
        let last = deleted.map(|deleted| LastWrite {
            seq: 7,
            generation: 2,
            deleted,
            offset: 0,
            length: 0,
        });
        let words = (
            word_of(may_put(rt.alloc(), last, given)),
            word_of(may_delete(rt.alloc(), last, given)),
        );
        assert!(rt; words == (put, delete), "{put}, {delete}");
    }
    Ok(())
}
