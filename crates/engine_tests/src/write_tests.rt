//! What a stop within a call on the folder leaves of the lines that were answered.

use crate::replies::reply_in;
use crash_disk::MemoryFolder;
use std::test::Fail;
use test_tools::may_be_left;
use view_ports::FieldServers;

const LINES: [&str; 4] = [
    "{\"put\":{\"_id\":\"_design/s\",\"language\":\"field\",\"views\":{\"by_n\":{\"map\":\"n\"}}}}",
    "{\"put\":{\"_id\":\"a\",\"n\":2}}",
    "{\"delete\":\"a\",\"rev\":\"1-00000000000000000000000000000002\"}",
    "{\"put\":{\"_id\":\"b\",\"n\":1}}",
];

/// What `info` prints after each number of `LINES`.
const COUNTS: [&str; 5] = [
    "{\"doc_count\":0,\"doc_del_count\":0,\"update_seq\":0}\n",
    "{\"doc_count\":1,\"doc_del_count\":0,\"update_seq\":1}\n",
    "{\"doc_count\":2,\"doc_del_count\":0,\"update_seq\":2}\n",
    "{\"doc_count\":1,\"doc_del_count\":1,\"update_seq\":3}\n",
    "{\"doc_count\":2,\"doc_del_count\":1,\"update_seq\":4}\n",
];

#[test]
fn a_stop_within_any_call_leaves_first_lines(rt: HostRuntime) -> Result<(), Fail> {
    let alloc = rt.alloc();
    let mut servers = FieldServers::new(alloc, Vec::new(alloc))?;
    let mut folder = MemoryFolder::new(alloc, Vec::new(alloc), true)?;
    let mut ends = [0; LINES.len()];
    for (line, end) in LINES.iter().zip(ends.iter_mut()) {
        reply_in(alloc, &mut folder, &mut servers, line)?;
        *end = folder.calls_noted();
    }
    for call in 0..folder.calls_noted() {
        for choice in 0..5 {
            let mut image = folder.image_at(alloc, call, choice)?;
            let counts = reply_in(alloc, &mut image, &mut servers, "{\"info\":true}")?;
            assert!(rt;
                may_be_left(&COUNTS, &ends, call, &counts),
                "call {call}, choice {choice}"
            );
        }
    }
    Ok(())
}

const VIEWED: [&str; 3] = [
    "{\"put\":{\"_id\":\"_design/s\",\"language\":\"field\",\"views\":{\"by_n\":{\"map\":\"n\"}}}}",
    "{\"put\":{\"_id\":\"a\",\"n\":2}}",
    "{\"view\":[\"s\",\"by_n\"]}",
];

/// The view as its index stands.
const KEPT: &str = "{\"view\":[\"s\",\"by_n\"],\"query\":{\"update\":false}}";

/// What `info` and then `KEPT` print after each number of `VIEWED`.
const SHOWN: [&str; 4] = [
    r#"{"doc_count":0,"doc_del_count":0,"update_seq":0}
{"error":"not_found","reason":"missing"}
"#,
    r#"{"doc_count":1,"doc_del_count":0,"update_seq":1}
{"total_rows":0,"update_seq":0,"offset":0,"rows":[]}
"#,
    r#"{"doc_count":2,"doc_del_count":0,"update_seq":2}
{"total_rows":0,"update_seq":0,"offset":0,"rows":[]}
"#,
    r#"{"doc_count":2,"doc_del_count":0,"update_seq":2}
{"total_rows":1,"update_seq":2,"offset":0,"rows":[{"id":"a","key":2,"value":null}]}
"#,
];

#[test]
fn a_stop_within_any_call_leaves_an_index_as_it_stood(rt: HostRuntime) -> Result<(), Fail> {
    let alloc = rt.alloc();
    let mut servers = FieldServers::new(alloc, Vec::new(alloc))?;
    let mut folder = MemoryFolder::new(alloc, Vec::new(alloc), true)?;
    let mut ends = [0; VIEWED.len()];
    for (line, end) in VIEWED.iter().zip(ends.iter_mut()) {
        reply_in(alloc, &mut folder, &mut servers, line)?;
        *end = folder.calls_noted();
    }
    for call in 0..folder.calls_noted() {
        for choice in 0..5 {
            let mut image = folder.image_at(alloc, call, choice)?;
            let mut shown = reply_in(alloc, &mut image, &mut servers, "{\"info\":true}")?;
            shown.extend_from_slice(&reply_in(alloc, &mut image, &mut servers, KEPT)?)?;
            assert!(rt;
                may_be_left(&SHOWN, &ends, call, &shown),
                "call {call}, choice {choice}"
            );
        }
    }
    Ok(())
}
