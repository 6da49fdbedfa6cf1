//! What is found in the documents' file when it is opened.

use crate::documents::{folder_of, told};
use crash_disk::MemoryFolder;
use doc_file::{DocFault, Docs, Info, empty_folders_hold_no_writes};
use json_terms::write_term;
use std::alloc::Global;
use std::test::Fail;

/// The spelling of `{"_id":"a"}`.
const BODY: &[u8] = b"\x05\x01\0\0\0\x03\0\0\0_id\x07\x01\0\0\0a";

/// The spelling of `["_id"]`, which is no object.
const ARRAY: &[u8] = b"\x06\x01\0\0\0\x07\x03\0\0\0_id";

/// The spelling of `{"_id":"a","views":1}`, which has no design.
const NO_DESIGN: &[u8] =
    b"\x05\x02\0\0\0\x03\0\0\0_id\x07\x01\0\0\0a\x05\0\0\0views\x01\x01\0\0\0\0\0\0\0";

/// The root record of three writes: of a design document, of `a`, both with one body of 18 bytes at 8,192, and of `b`, deleted.
/// One byte too many stands behind it.
const ROOT: &[u8; 139] = b"\x03\0\0\0\0\0\0\0\x03\0\0\0\0\0\0\0\
\x2a\0\0\0\x09\0\0\0_design/d\x03\0\0\0\0\0\0\0\x01\0\0\0\0\0\0\0\0\0\x20\0\0\0\0\0\0\x12\0\0\0\
\x22\0\0\0\x01\0\0\0a\x01\0\0\0\0\0\0\0\x01\0\0\0\0\0\0\0\0\0\x20\0\0\0\0\0\0\x12\0\0\0\
\x22\0\0\0\x01\0\0\0b\x02\0\0\0\0\0\0\0\x01\0\0\0\0\0\0\0\x01\0\0\0\0\0\0\0\0\0\0\0\0\
\0";

/// Where the lengths of the bodies of the design document and of `a` stand in the root record, and the place of the second.
const DESIGN_LENGTH: usize = 58;

const LENGTH: usize = 96;

const PLACE: usize = 88;

/// The text of a document.
fn found(alloc: Global, folder: &mut MemoryFolder, id: &str) -> Result<Vec<u8>, DocFault> {
    let docs = Docs::open(alloc, folder)?;
    let document = docs.get(alloc, folder, id)?;
    let mut text = Vec::new(alloc);
    write_term(alloc, &document, &mut text)?;
    Ok(text)
}

const NO_WRITES: Info = Info {
    doc_count: 0,
    doc_del_count: 0,
    update_seq: 0,
};

#[test]
fn an_empty_folder_has_no_documents(rt: HostRuntime) -> Result<(), Fail> {
    empty_folders_hold_no_writes();
    let mut folder = MemoryFolder::new(rt.alloc(), Vec::new(rt.alloc()), false)?;
    assert!(rt; Docs::open(rt.alloc(), &mut folder)?.info() == NO_WRITES);
    Ok(())
}

/// The bodies, a byte of the root record that is changed, the length of the root record, an id, and what is found.
const FOUND: &[(&[u8], usize, u8, usize, &str, &str)] = &[
    (BODY, LENGTH, 18, 138, "a", "{\"_id\":\"a\"}"),
    (BODY, LENGTH, 18, 138, "b", "Deleted"),
    (BODY, LENGTH, 18, 138, "c", "Missing"),
    (BODY, LENGTH, 18, 139, "a", "damaged at 8210"),
    (BODY, LENGTH, 17, 138, "a", "damaged at 8192"),
    (BODY, LENGTH, 19, 138, "a", "damaged at 8192"),
    (BODY, PLACE, 1, 138, "a", "damaged at 8193"),
    // A place past the end of the file, 2^39 higher.
    (BODY, PLACE + 4, 128, 138, "a", "damaged at 549755822080"),
    (ARRAY, LENGTH, 13, 138, "a", "damaged at 8192"),
    (BODY, DESIGN_LENGTH, 18, 138, "_design/d", "{\"_id\":\"a\"}"),
    (
        NO_DESIGN,
        DESIGN_LENGTH,
        36,
        138,
        "_design/d",
        "damaged at 8192",
    ),
];

#[test]
fn documents_are_found_again_and_damage_is_named(rt: HostRuntime) -> Result<(), Fail> {
    let alloc = rt.alloc();
    for &(body, at, byte, size, id, want) in FOUND {
        let mut root = *ROOT;
        if at < root.len() {
            root[at] = byte;
        }
        let mut folder = folder_of(alloc, body, &root[..size.min(root.len())])?;
        let text = told(alloc, found(alloc, &mut folder, id))?;
        assert!(rt; text.as_slice() == want.as_bytes(), "{id}, {byte} at {at}");
    }
    Ok(())
}
