//! Request lines and their reply lines.

use crate::replies::reply_in;
use crate::runs::RUNS;
use crash_disk::MemoryFolder;
use json_terms::{Chars, NoMemory};
use std::alloc::{AllocError, Global};
use std::test::Fail;
use view_engine::{
    folders_hold_worlds, functions_may_be_told, requests_have_one_outcome, worlds_go_on,
    worlds_stay_sound,
};
use view_ports::{Answer, FieldServers, ScriptServers, Servers};

#[test]
fn requests_are_answered(rt: HostRuntime) -> Result<(), Fail> {
    requests_have_one_outcome::<FieldServers>();
    worlds_stay_sound::<FieldServers>();
    worlds_go_on::<FieldServers>();
    functions_may_be_told();
    folders_hold_worlds();
    let alloc = rt.alloc();
    for run in RUNS {
        let mut folder = MemoryFolder::new(alloc, Vec::new(alloc), false)?;
        let mut servers = FieldServers::new(alloc, Vec::new(alloc))?;
        let mut reply = Vec::new(alloc);
        for (k, line) in run.lines().enumerate() {
            if k % 2 == 0 {
                reply = reply_in(alloc, &mut folder, &mut servers, line)?;
            } else {
                assert!(rt;
                    reply.strip_suffix(b"\n") == Some(line.as_bytes()),
                    "{line}"
                );
            }
        }
    }
    Ok(())
}

/// What stands at the two ends of a line, and what is repeated behind the first and before the second.
type Parts = [&'static str; 4];

const EMPTY: Parts = ["", "", "", ""];

const NUL: Parts = ["\"\u{0}\"", "", "", ""];

const TEXT: Parts = ["{\"put\":{\"_id\":\"x\",\"t\":\"", "a", "", "\"}}"];

const ARRAYS: Parts = ["{\"put\":{\"_id\":\"x\",\"t\":", "[", "]", "}}"];

fn line_of(alloc: Global, parts: Parts, count: usize) -> Result<String, AllocError> {
    let [first, open, close, last] = parts;
    let (open, close) = (open.repeat(alloc, count)?, close.repeat(alloc, count)?);
    format!(in alloc; "{first}{open}{close}{last}")
}

/// The replies to some lines over a new folder.
fn replies<C: Servers>(alloc: Global, servers: &mut C, lines: &[&str]) -> Result<Vec<u8>, Fail> {
    let mut folder = MemoryFolder::new(alloc, Vec::new(alloc), false)?;
    let mut replies = Vec::new(alloc);
    for line in lines {
        replies.extend_from_slice(&reply_in(alloc, &mut folder, servers, line)?)?;
    }
    Ok(replies)
}

const ACCEPTED: &str =
    "{\"ok\":true,\"id\":\"x\",\"rev\":\"1-00000000000000000000000000000001\"}\n";

const TOO_LARGE: &str = "{\"error\":\"too_large\",\"reason\":\"document passes 524288 bytes\"}\n";

const TOO_LONG: &str = "{\"error\":\"line_too_long\",\"reason\":\"line passes 2097152 bytes\"}\n";

const DOCUMENT: &str = "{\"error\":\"too_deep\",\"reason\":\"document passes depth 64\"}\n";

const TOO_DEEP: &str = "{\"error\":\"bad_request\",\"reason\":\"line is too deep\"}\n";

const NOT_JSON: &str = "{\"error\":\"bad_request\",\"reason\":\"line is not JSON\"}\n";

/// The parts of a line, how often the inner ones stand in it, and its reply. A line of `TEXT` has 26 bytes without its letters,
/// and its document 18.
const LIMITS: &[(Parts, usize, &str)] = &[
    (EMPTY, 0, ""),
    (NUL, 0, NOT_JSON),
    (TEXT, 524_270, ACCEPTED),
    (TEXT, 524_271, TOO_LARGE),
    (TEXT, 2_097_126, TOO_LARGE),
    (TEXT, 2_097_127, TOO_LONG),
    (ARRAYS, 63, ACCEPTED),
    (ARRAYS, 64, DOCUMENT),
    (ARRAYS, 98, DOCUMENT),
    (ARRAYS, 99, TOO_DEEP),
    (ARRAYS, 125, TOO_DEEP),
    (ARRAYS, 126, NOT_JSON),
    (ARRAYS, 10_000, NOT_JSON),
];

#[test]
fn lines_have_limits(rt: HostRuntime) -> Result<(), Fail> {
    let alloc = rt.alloc();
    for &(parts, count, want) in LIMITS {
        let line = line_of(alloc, parts, count)?;
        let mut servers = FieldServers::new(alloc, Vec::new(alloc))?;
        let reply = replies(alloc, &mut servers, &[line.as_str()])?;
        assert!(rt; reply.as_slice() == want.as_bytes(), "{count} times");
    }
    Ok(())
}

fn script(alloc: Global, lines: &[&str]) -> Result<Vec<Answer>, NoMemory> {
    let mut answers = Vec::new(alloc);
    for line in lines {
        answers.push(Answer::Line(Chars::from_text(alloc, line)?))?;
    }
    Ok(answers)
}

const ONE_VIEW: &[&str] = &[
    "{\"put\":{\"_id\":\"_design/s\",\"language\":\"script\",\"views\":{\"v\":{\"map\":\"n\"}}}}",
    "{\"put\":{\"_id\":\"x\"}}",
    "{\"view\":[\"s\",\"v\"]}",
];

/// What a server answers, and the reply to a view.
const ANSWERED: &[(&[&str], &str)] = &[
    (
        &["true", "true", "[[[2,\"b\"],[1,\"a\"]]]"],
        "\n{\"total_rows\":2,\"offset\":0,\"rows\":[{\"id\":\"x\",\"key\":1,\"value\":\"a\"},{\"id\":\"x\",\"key\":2,\"value\":\"b\"}]}\n",
    ),
    (
        &["true", "[\"error\",\"compilation_error\",\"no\"]", ""],
        "\n{\"error\":\"compilation_error\",\"reason\":\"_design/s\"}\n",
    ),
    (
        &["true", "true", "[\"\\\\\"]"],
        "\n{\"error\":\"server_reply\",\"reason\":\"[\\\"\\\\\\\\\\\"]\"}\n",
    ),
    (
        &["true", "true", "{}"],
        "\n{\"error\":\"server_reply\",\"reason\":\"{}\"}\n",
    ),
];

#[test]
fn a_view_is_what_its_server_answers(rt: HostRuntime) -> Result<(), Fail> {
    let alloc = rt.alloc();
    for &(lines, want) in ANSWERED {
        let mut servers = ScriptServers::new(alloc, script(alloc, lines)?)?;
        let replies = replies(alloc, &mut servers, ONE_VIEW)?;
        assert!(rt; replies.ends_with(want.as_bytes()), "{want}");
    }
    Ok(())
}

const TWO_VIEWS: &[&str] = &[
    "{\"put\":{\"_id\":\"_design/f\",\"language\":\"field\",\"views\":{\"v\":{\"map\":\"n\"}}}}",
    "{\"put\":{\"_id\":\"x\",\"n\":1}}",
    "{\"view\":[\"f\",\"v\"]}",
    "{\"view\":[\"f\",\"v\"]}",
];

const ROWS_TWICE: &str = r#"
{"total_rows":1,"offset":0,"rows":[{"id":"x","key":1,"value":null}]}
{"total_rows":1,"offset":0,"rows":[{"id":"x","key":1,"value":null}]}
"#;

const FAULT_AND_ROWS: &str = r#"
{"error":"server_fault","reason":"query server failed twice"}
{"total_rows":1,"offset":0,"rows":[{"id":"x","key":1,"value":null}]}
"#;

/// The calls that fail, and the replies to the views. The calls of a view are the start 0; `reset` 1 and 2; `add_fun` 3 and 4;
/// `map_doc` of the one document 5 and 6.
const FAILING: &[(&[u64], &str)] = &[(&[6], ROWS_TWICE), (&[6, 13], FAULT_AND_ROWS)];

#[test]
fn two_failed_attempts_are_a_fault(rt: HostRuntime) -> Result<(), Fail> {
    let alloc = rt.alloc();
    for &(calls, want) in FAILING {
        let mut servers = FieldServers::new(alloc, Vec::from_slice(alloc, calls)?)?;
        let replies = replies(alloc, &mut servers, TWO_VIEWS)?;
        assert!(rt; replies.ends_with(want.as_bytes()), "{want}");
    }
    Ok(())
}
