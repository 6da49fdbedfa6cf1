//! The lines of small loads, and how many there are of the greatest.

use load_lines::{first_lines, info_line, load_map, second_lines, view_line};
use std::alloc::{AllocError, Global};
use std::test::Fail;

/// The lines that a load of 3 documents from the number 1 begins with, each with a newline.
const FIRST: &str =
    r#"{"put":{"_id":"_design/load","language":"pick","views":{"by_group":{"map":"emit [doc.group, doc.amount], doc.amount","reduce":"_stats"}}}}
{"put":{"_id":"doc000001","amount":1683,"group":8}}
{"put":{"_id":"doc000002","amount":575,"group":8}}
{"put":{"_id":"doc000003","amount":1011,"group":3}}
"#;

/// The line that asks for the view.
const VIEW: &str = r#"{"query":{"group_level":1},"view":["load","by_group"]}"#;

/// Numbers of documents, the number to begin with, and the lines that raise amounts.
const SECOND: &[(u32, u32, &str)] = &[
    (
        3,
        1,
        r#"{"put":{"_id":"doc000003","_rev":"1-00000000000000000000000000000004","amount":1012,"group":3}}
"#,
    ),
    (
        7,
        0,
        r#"{"put":{"_id":"doc000003","_rev":"1-00000000000000000000000000000004","amount":999,"group":8}}
{"put":{"_id":"doc000006","_rev":"1-00000000000000000000000000000007","amount":1693,"group":7}}
"#,
    ),
    (
        7,
        2_147_483_647,
        r#"{"put":{"_id":"doc000003","_rev":"1-00000000000000000000000000000004","amount":987,"group":2}}
{"put":{"_id":"doc000006","_rev":"1-00000000000000000000000000000007","amount":2823,"group":6}}
"#,
    ),
    (2, 5, ""),
];

/// The lines one behind the other, each with a newline.
fn joined(alloc: Global, lines: &[Vec<u8>]) -> Result<Vec<u8>, AllocError> {
    let mut text = Vec::new(alloc);
    for line in lines {
        text.extend_from_slice(line.as_slice())?;
        text.extend_from_slice(b"\n")?;
    }
    Ok(text)
}

#[test]
fn small_loads_have_their_lines(rt: HostRuntime) -> Result<(), Fail> {
    let alloc = rt.alloc();
    let first = joined(alloc, first_lines(alloc, 3, 1)?.as_slice())?;
    assert!(rt; first.as_slice() == FIRST.as_bytes());
    for &(docs, number, want) in SECOND {
        let second = joined(alloc, second_lines(alloc, docs, number)?.as_slice())?;
        assert!(rt; second.as_slice() == want.as_bytes(), "{docs} {number}");
    }
    assert!(rt; view_line() == VIEW.as_bytes());
    assert!(rt; info_line() == r#"{"info":true}"#.as_bytes());
    assert!(rt; load_map() == "emit [doc.group, doc.amount], doc.amount");
    Ok(())
}

#[test]
fn the_greatest_load_has_all_its_lines(rt: HostRuntime) -> Result<(), Fail> {
    let alloc = rt.alloc();
    assert_eq!(rt; first_lines(alloc, 20_000, 5)?.len(), 20_001);
    assert_eq!(rt; second_lines(alloc, 20_000, 5)?.len(), 6_666);
    Ok(())
}
