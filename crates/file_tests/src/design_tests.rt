//! The ids of the live design documents.

use crate::documents::{put, told};
use crash_disk::MemoryFolder;
use doc_file::{DocFault, Docs};
use std::alloc::Global;
use std::test::Fail;

/// The design ids once the document with this text is put, each behind a space.
fn designs_after(
    alloc: Global,
    folder: &mut MemoryFolder,
    text: &str,
) -> Result<Vec<u8>, DocFault> {
    put(alloc, folder, text)?;
    let docs = Docs::open(alloc, folder)?;
    let ids = docs.design_ids(alloc)?;
    let mut list = Vec::new(alloc);
    for id in ids.as_slice() {
        list.push(b' ')?;
        list.extend_from_slice(id.as_str().as_bytes())?;
    }
    Ok(list)
}

/// Documents that are put in one file, each with the design ids then. One design is deleted and comes back.
const DESIGNS: &[(&str, &str)] = &[
    (r#"{"_id":"a"}"#, ""),
    (r#"{"_id":"design/a","views":{}}"#, ""),
    (r#"{"_id":"_design/b","views":{}}"#, " _design/b"),
    (r#"{"_id":"_design/a","views":{}}"#, " _design/a _design/b"),
    (r#"{"_id":"B"}"#, " _design/a _design/b"),
    (
        r#"{"_id":"_design/b","_rev":"1-00000000000000000000000000000003","_deleted":true}"#,
        " _design/a",
    ),
    (
        r#"{"_id":"a","_rev":"1-00000000000000000000000000000001","_deleted":true}"#,
        " _design/a",
    ),
    (r#"{"_id":"_design/b","views":{}}"#, " _design/a _design/b"),
];

#[test]
fn live_designs_are_listed(rt: HostRuntime) -> Result<(), Fail> {
    let alloc = rt.alloc();
    let mut folder = MemoryFolder::new(alloc, Vec::new(alloc), false)?;
    for &(text, want) in DESIGNS {
        let list = told(alloc, designs_after(alloc, &mut folder, text))?;
        assert!(rt; list.as_slice() == want.as_bytes(), "{text}");
    }
    Ok(())
}
