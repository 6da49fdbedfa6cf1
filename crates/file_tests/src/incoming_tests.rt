//! Documents that are put and deleted: what they must be, what of them is stored, and what the last write of an id allows.

use crate::documents::{delete, put, since, told};
use crash_disk::MemoryFolder;
use doc_file::DocFault;
use std::alloc::Global;
use std::test::Fail;
use view_ports::Folder;

/// A write: a document's text, or an id and a revision.
#[derive(Clone, Copy)]
enum Write<'a> {
    Put(&'a str),
    Delete(&'a str, Option<&'a str>),
}

use Write::{Delete, Put};

/// The generation of a write and the change that it made, over documents that are opened anew.
fn written<F: Folder>(alloc: Global, folder: &mut F, write: Write) -> Result<Vec<u8>, DocFault> {
    let rev = match write {
        Put(text) => put(alloc, folder, text)?,
        Delete(id, rev) => delete(alloc, folder, id, rev)?,
    };
    let change = since(alloc, folder, rev.seq.saturating_sub(1), 1)?;
    let mut text = format!(in alloc; "{} ", rev.generation)?.into_bytes();
    text.extend_from_slice(&change)?;
    Ok(text)
}

const FIRST: Option<&str> = Some("1-00000000000000000000000000000003");
/// Writes to one file, each with what it answers: its generation, its number, the id, and what is stored, or its refusal.
const WRITES: &[(Write<'static>, &str)] = &[
    (Put("[]"), "BadId"),
    (Put("{}"), "BadId"),
    (Put("{\"_id\":1}"), "BadId"),
    (Put("{\"_id\":\"\"}"), "BadId"),
    (Put("{\"_id\":\"_x\"}"), "BadId"),
    (
        Put("{\"_id\":\"a\",\"_attachments\":{}}"),
        "BadMember(Chars { text: \"_attachments\" })",
    ),
    (
        Put("{\"_id\":\"a\",\"_deleted\":null,\"_rev\":1}"),
        "BadMember(Chars { text: \"_deleted\" })",
    ),
    (
        Put("{\"_id\":\"a\",\"_ids\":1,\"_deleted\":true,\"_\":1}"),
        "BadMember(Chars { text: \"_\" })",
    ),
    (Put("{\"_id\":\"a\",\"_rev\":1}"), "BadRev"),
    (Put("{\"_id\":\"a\",\"_rev\":\"1-x\"}"), "BadRev"),
    (
        Put("{\"_id\":\"a\",\"_deleted\":true,\"b\":null}"),
        "Missing",
    ),
    (Delete("a", None), "Missing"),
    (
        Put("{\"_id\":\"a\"}"),
        "1 1a{\"_id\":\"a\",\"_rev\":\"1-00000000000000000000000000000001\"}",
    ),
    (
        Put(
            "{\"_id\":\"a\",\"_rev\":\"1-00000000000000000000000000000001\",\"_deleted\":true,\"b\":null}",
        ),
        "2 2a-",
    ),
    (
        Put("{\"_deleted\":false,\"n\":1,\"_id\":\"x\"}"),
        "1 3x{\"_id\":\"x\",\"_rev\":\"1-00000000000000000000000000000003\",\"n\":1}",
    ),
    (Put("{\"_id\":\"x\"}"), "Conflict"),
    (
        Put(
            "{\"z\":{\"_b\":1},\"_rev\":\"2-0123456789abcdef0123456789abcdef\",\"A\":[],\"_id\":\"x\",\"_deleted\":false}",
        ),
        "Conflict",
    ),
    (Delete("x", None), "Conflict"),
    (Delete("x", Some("1-1")), "BadRev"),
    (Delete("x", FIRST), "2 4x-"),
    (Delete("x", FIRST), "Deleted"),
    (
        Put("{\"_id\":\"x\"}"),
        "3 5x{\"_id\":\"x\",\"_rev\":\"3-00000000000000000000000000000005\"}",
    ),
    (
        Put(
            "{\"z\":{\"_b\":1},\"_rev\":\"3-00000000000000000000000000000005\",\"A\":[],\"_id\":\"x\",\"_deleted\":false}",
        ),
        "4 6x{\"A\":[],\"_id\":\"x\",\"_rev\":\"4-00000000000000000000000000000006\",\"z\":{\"_b\":1}}",
    ),
    (
        Put("{\"_id\":\"y\",\"_rev\":\"1-00000000000000000000000000000001\"}"),
        "Conflict",
    ),
];

#[test]
fn writes_are_stored_or_refused(rt: HostRuntime) -> Result<(), Fail> {
    let alloc = rt.alloc();
    let mut folder = MemoryFolder::new(alloc, Vec::new(alloc), false)?;
    for &(write, want) in WRITES {
        let answer = told(alloc, written(alloc, &mut folder, write))?;
        assert!(rt; answer.as_slice() == want.as_bytes(), "{want}");
    }
    Ok(())
}

/// Writes of design documents to one file, each with what it answers. A design that is refused is refused before the last write
/// of its id, and behind all else.
const DESIGNS: &[(Write<'static>, &str)] = &[
    (Put(r#"{"_id":"_design/","views":1}"#), "BadId"),
    (
        Put(r#"{"_id":"_design/d","_x":1,"views":1}"#),
        r#"BadMember(Chars { text: "_x" })"#,
    ),
    (Put(r#"{"_id":"_design/d","_rev":1,"views":1}"#), "BadRev"),
    (
        Put(r#"{"_id":"_design/d","_rev":"1-00000000000000000000000000000001","views":1}"#),
        "BadDesign(BadViews)",
    ),
    (
        Put(r#"{"_id":"_design/d","_deleted":false,"language":""}"#),
        "BadDesign(BadLanguage)",
    ),
    (
        Put(r#"{"_id":"_design/d","views":{"v":{}}}"#),
        r#"BadDesign(BadView(Chars { text: "v" }))"#,
    ),
    (
        Put(r#"{"_id":"_design/d","options":{"a":1}}"#),
        r#"BadDesign(BadOption(Chars { text: "a" }))"#,
    ),
    (
        Put(r#"{"_id":"_design/d","views":{"v":{"map":"m","reduce":"_x"}}}"#),
        r#"BadDesign(UnknownBuiltin(Chars { text: "v" }))"#,
    ),
    (
        Put(r#"{"_id":"_design/d","_deleted":true,"views":1}"#),
        "Missing",
    ),
    (
        Put(r#"{"_id":"design/d","views":1}"#),
        r#"1 1design/d{"_id":"design/d","_rev":"1-00000000000000000000000000000001","views":1}"#,
    ),
    (
        Put(r#"{"_id":"_design/d","views":{"v":{"map":"m","reduce":"_sum"}}}"#),
        r#"1 2_design/d{"_id":"_design/d","_rev":"1-00000000000000000000000000000002","views":{"v":{"map":"m","reduce":"_sum"}}}"#,
    ),
    (
        Put(r#"{"_id":"_design/d","views":1}"#),
        "BadDesign(BadViews)",
    ),
    (Put(r#"{"_id":"_design/d","views":{}}"#), "Conflict"),
    (
        Put(
            r#"{"_id":"_design/d","_rev":"1-00000000000000000000000000000002","_deleted":true,"views":1}"#,
        ),
        "2 3_design/d-",
    ),
];

#[test]
fn designs_are_stored_or_refused(rt: HostRuntime) -> Result<(), Fail> {
    let alloc = rt.alloc();
    let mut folder = MemoryFolder::new(alloc, Vec::new(alloc), false)?;
    for &(write, want) in DESIGNS {
        let answer = told(alloc, written(alloc, &mut folder, write))?;
        assert!(rt; answer.as_slice() == want.as_bytes(), "{want}");
    }
    Ok(())
}

/// A document with these members, and a text of so many letters inside so many arrays.
fn document_of(
    alloc: Global,
    members: &str,
    letters: usize,
    arrays: usize,
) -> Result<String, Fail> {
    let (letters, before) = ("a".repeat(alloc, letters)?, "[".repeat(alloc, arrays)?);
    let behind = "]".repeat(alloc, arrays)?;
    Ok(format!(in alloc; "{{{members},\"t\":{before}\"{letters}\"{behind}}}")?)
}
/// Writes to one file: members, how many letters and arrays, and the refusal or the generation. A document without its letters
/// has 18 bytes.
const LIMITS: &[(&str, usize, usize, &str)] = &[
    ("\"_id\":\"x\"", 524_271, 0, "TooLarge"),
    ("\"_id\":\"x\",\"_rev\":\"\"", 524_271, 0, "BadRev"),
    ("\"_id\":\"x\"", 524_271, 64, "TooLarge"),
    ("\"_id\":\"x\"", 0, 64, "TooDeep"),
    (r#""_id":"_design/x","views":1"#, 524_271, 0, "TooLarge"),
    (r#""_id":"_design/x","views":1"#, 0, 64, "TooDeep"),
    ("\"_id\":\"x\"", 524_270, 0, "1 1x{"),
    (
        "\"_id\":\"x\",\"_deleted\":false,\"_rev\":\"1-00000000000000000000000000000001\"",
        524_270,
        0,
        "2 2x{",
    ),
    ("\"_id\":\"y\"", 0, 63, "1 3y{"),
];

#[test]
fn documents_have_limits(rt: HostRuntime) -> Result<(), Fail> {
    let alloc = rt.alloc();
    let mut folder = MemoryFolder::new(alloc, Vec::new(alloc), false)?;
    for &(members, letters, arrays, want) in LIMITS {
        let text = document_of(alloc, members, letters, arrays)?;
        let answer = told(alloc, written(alloc, &mut folder, Put(text.as_str())))?;
        assert!(rt;
            answer.starts_with(want.as_bytes()),
            "{letters} letters, {arrays} arrays"
        );
    }
    Ok(())
}
