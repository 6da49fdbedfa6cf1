//! Runs over ports that give small pieces, and of which calls fail.
use super::{DISK_FAULT, GIVEN, Given, LINES, REPLIES, run};
use std::test::Fail;

const ONE_REPLY: &str = "{\"error\":\"bad_request\",\"reason\":\"line is not JSON\"}\n";

const TWO_REPLIES: &str = r#"{"error":"bad_request","reason":"line is not JSON"}
{"error":"bad_request","reason":"line is not JSON"}
"#;

/// Lines of which some are empty, or end with the input, and the replies.
const ANSWERED: &[(&str, &str)] = &[
    ("", ""),
    ("\n", ""),
    ("\n\n\n", ""),
    ("x", ONE_REPLY),
    ("x\n", ONE_REPLY),
    ("{\"info\":true", ONE_REPLY),
    ("\nx\n\ny", TWO_REPLIES),
    (LINES, REPLIES),
];

#[test]
fn each_line_that_is_not_empty_is_answered(rt: HostRuntime) -> Result<(), Fail> {
    for &(input, want) in ANSWERED {
        for piece in 1..=8 {
            let given = Given {
                input,
                piece,
                ..GIVEN
            };
            let (held, status) = run(rt.alloc(), &[], &given)?;
            assert!(rt;
                status == 0 && held.as_slice() == want.as_bytes(),
                "{input}, piece {piece}"
            );
        }
    }
    Ok(())
}

/// The ports of a run.
#[derive(Clone, Copy, Debug)]
enum Port {
    Source,
    Sink,
    Folder,
}

/// How many newlines the bytes have.
fn newlines(bytes: &[u8]) -> usize {
    bytes.iter().filter(|byte| **byte == b'\n').count()
}

/// Whether these are the replies to the first lines.
fn are_first_replies(held: &[u8]) -> bool {
    REPLIES.as_bytes().starts_with(held) && (held.is_empty() || held.ends_with(b"\n"))
}

/// Whether a run may write this where a call of the port fails: the replies to the lines that were read, a beginning of the
/// replies, and the replies to some lines and a line that tells the fault.
fn may_be_written(port: Port, read: usize, held: &[u8]) -> bool {
    match port {
        Port::Source => {
            let read = &LINES.as_bytes()[..read.min(LINES.len())];
            are_first_replies(held) && newlines(held) == newlines(read)
        }
        Port::Sink => REPLIES.as_bytes().starts_with(held) && held.len() < REPLIES.len(),
        Port::Folder => match held.strip_suffix(DISK_FAULT.as_bytes()) {
            Some(answered) => are_first_replies(answered),
            None => false,
        },
    }
}

/// The port of which each call fails once, how many bytes a call takes, the status of the runs, and how many calls there are at
/// least.
const PORTS: &[(Port, usize, u8, usize)] = &[
    (Port::Source, 1, 5, 200),
    (Port::Source, 3, 5, 60),
    (Port::Source, 8, 5, 20),
    (Port::Sink, 1, 4, 300),
    (Port::Sink, 10, 4, 30),
    (Port::Sink, 1000, 4, 5),
    (Port::Folder, 1000, 3, 20),
];

#[test]
fn a_failing_call_ends_the_run(rt: HostRuntime) -> Result<(), Fail> {
    for &(port, piece, want, calls) in PORTS {
        for call in 0..usize::MAX {
            let numbers = [call as u64];
            let (reads, writes, fail) = match port {
                Port::Source => (&numbers[..], &[][..], &[][..]),
                Port::Sink => (&[][..], &numbers[..], &[][..]),
                Port::Folder => (&[][..], &[][..], &numbers[..]),
            };
            let given = Given {
                piece,
                reads,
                writes,
                ..GIVEN
            };
            let (held, status) = run(rt.alloc(), fail, &given)?;
            if status == 0 && call >= calls {
                break;
            }
            let read = call.saturating_mul(piece);
            assert!(rt;
                status == want && may_be_written(port, read, &held),
                "{port:?}, call {call}"
            );
        }
    }
    Ok(())
}

const USAGE: &str =
    "usage: couchview serve [--width N] [LANG=PATH]... | couchview load DOCS NUMBER\n";

/// The line that ends the replies, and the one before it.
const ROWS: &str = r#"
{"total_rows":2,"offset":0,"rows":[{"id":"b","key":"Ida","value":1},{"id":"a","key":"Ole","value":1}]}
{"total_rows":2,"offset":0,"rows":[{"id":"b","key":"Ida","value":1},{"id":"a","key":"Ole","value":1}]}
"#;

const FAULT_AND_ROWS: &str = r#"
{"error":"server_fault","reason":"query server failed twice"}
{"total_rows":2,"offset":0,"rows":[{"id":"b","key":"Ida","value":1},{"id":"a","key":"Ole","value":1}]}
"#;

/// What a load writes behind the reply to its first view.
const LOADED: &str = r#"
{"rows":[{"key":[3],"value":{"sum":1012,"count":1,"min":1012,"max":1012,"sumsqr":1024144}},{"key":[8],"value":{"sum":2258,"count":2,"min":575,"max":1683,"sumsqr":3163114}}]}
{"rows":[{"key":[3],"value":{"sum":1012,"count":1,"min":1012,"max":1012,"sumsqr":1024144}},{"key":[8],"value":{"sum":2258,"count":2,"min":575,"max":1683,"sumsqr":3163114}}]}
{"doc_count":4,"doc_del_count":0,"update_seq":5}
"#;

/// Both views of a load are refused, and the answer afresh is what it was.
const REFUSED: &str = r#"{"error":"server_fault","reason":"query server failed twice"}
{"error":"server_fault","reason":"query server failed twice"}
{"rows":[{"key":[3],"value":{"sum":1012,"count":1,"min":1012,"max":1012,"sumsqr":1024144}},{"key":[8],"value":{"sum":2258,"count":2,"min":575,"max":1683,"sumsqr":3163114}}]}
{"doc_count":4,"doc_del_count":0,"update_seq":5}
"#;

/// The words of a command, the failing calls of the folder, the sink and the query servers, and the end of what is written, with
/// the status.
///
/// The calls of the first view are the start 0; `reset` 1 and 2; `add_fun` 3 and 4; `map_doc` of two documents 5 to 8. A second
/// attempt starts a child anew.
const FAILING: &[(&str, &[u64], &[u64], &[u64], &str, u8)] = &[
    ("serve", &[], &[], &[], ROWS, 0),
    ("serve", &[], &[], &[6], ROWS, 0),
    ("serve", &[], &[], &[6, 13], FAULT_AND_ROWS, 0),
    ("serve", &[0], &[], &[], DISK_FAULT, 3),
    ("serve", &[0], &[0], &[], "", 4),
    ("load", &[], &[], &[], USAGE, 2),
    ("load", &[], &[0], &[], "", 4),
    ("load 3 1", &[], &[], &[], LOADED, 0),
    ("load 3 1", &[], &[], &[6], LOADED, 0),
    ("load 3 1", &[], &[], &[0, 1, 2, 3], REFUSED, 0),
    ("load 3 1", &[], &[0], &[], "", 4),
    ("load 3 1", &[0], &[], &[], DISK_FAULT, 3),
    ("load 3 1", &[20], &[], &[], DISK_FAULT, 3),
];

#[test]
fn failing_calls_are_told(rt: HostRuntime) -> Result<(), Fail> {
    for &(words, fail, writes, servers, want, want_status) in FAILING {
        let given = Given {
            words,
            writes,
            servers,
            ..GIVEN
        };
        let (held, status) = run(rt.alloc(), fail, &given)?;
        let is_wanted = held.ends_with(want.as_bytes()) && held.is_empty() == want.is_empty();
        assert!(rt; is_wanted && status == want_status, "{want}");
    }
    Ok(())
}
