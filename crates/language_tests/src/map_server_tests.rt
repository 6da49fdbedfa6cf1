//! Sessions, servers in the process, and whole runs over ports in memory.

ghost use Rattle.std.specs.Prelude.{◌≢◌};

use map_server::{LINE_LIMIT, PickServers, Session, serve_lines};
use std::alloc::Global;
use std::test::Fail;
use test_tools::{nested, same_text};
use view_ports::{InProcess, MemorySink, MemorySource, Servers, ServersFault};

const COMPLAINT: &str = r#"["error","compilation_error","source"]"#;

const BAD_LINE: &str = r#"["error","bad_line","line"]"#;

/// Lines of one session, and their answers: functions are added, run and forgotten; reduces are answered at once; lines that
/// are no command change nothing.
const SESSION: &[(&str, &str)] = &[
    (r#"["map_doc",{"_id":"a"}]"#, "[]"),
    (r#"["add_fun","emit doc._id, doc.n"]"#, "true"),
    (r#"["add_fun","for x in doc.xs { emit x, 'y' }"]"#, "true"),
    (r#"["add_fun","emit doc._id"]"#, COMPLAINT),
    (r#"["add_fun",""]"#, "true"),
    (
        r#"["map_doc",{"xs":[2,{"b":1}],"n":-7,"_id":"a"}]"#,
        r#"[[["a",-7]],[[2,"y"],[{"b":1},"y"]],[]]"#,
    ),
    (r#"["map_doc",{"n":[]}]"#, "[[],[],[]]"),
    (r#"["reset",{"reduce_limit":false}]"#, "true"),
    (r#"["map_doc",{"_id":"a","n":1}]"#, "[]"),
    (
        r#"["reduce",["max"],[[[1,"a"],3],[[2,"b"],1],[[3,"c"],2]]]"#,
        "[true,[3]]",
    ),
    (r#"["rereduce",["rows"],[true,-1,"x",2]]"#, "[true,[2]]"),
    (r#"["reduce",["count"],[[[1,"a"],3]]]"#, COMPLAINT),
    (r#"["rereduce",["emit doc, doc"],[3]]"#, COMPLAINT),
    (r#"["reduce",["rows"],[]]"#, BAD_LINE),
    (r#"["rereduce",["rows"],[]]"#, BAD_LINE),
    (r#"["reduce",["rows"],[[1,3]]]"#, BAD_LINE),
    (r#"["reduce","rows",[[[1,"a"],3]]]"#, BAD_LINE),
    (r#"["add_fun","emit doc.n, 1"]"#, "true"),
    ("", BAD_LINE),
    (" ", BAD_LINE),
    ("x", BAD_LINE),
    ("[", BAD_LINE),
    ("[]", BAD_LINE),
    ("{}", BAD_LINE),
    ("[null]", BAD_LINE),
    (r#"["open"]"#, BAD_LINE),
    (r#"["RESET"]"#, BAD_LINE),
    (r#"["add_fun"]"#, BAD_LINE),
    (r#"["add_fun",1]"#, BAD_LINE),
    (r#"["add_fun","a","b"]"#, BAD_LINE),
    (r#"["map_doc"]"#, BAD_LINE),
    (r#"["map_doc",[1]]"#, BAD_LINE),
    (r#"["map_doc",{"n":1.5}]"#, BAD_LINE),
    (r#"["map_doc",{"n":9223372036854775808}]"#, BAD_LINE),
    (r#"["rereduce",["first"],[1e400]]"#, BAD_LINE),
    (r#"["ddoc","_design/d"]"#, BAD_LINE),
    ("[\"reset\"]\u{0}", BAD_LINE),
    (r#"["map_doc",{"n":1}]"#, "[[[1,1]]]"),
];

/// What the session answers.
fn answered(session: &mut Session, alloc: Global, line: &str) -> Result<String, Fail> {
    let mut out = Vec::new(alloc);
    session.step(alloc, line.as_bytes(), &mut out)?;
    Ok(String::from_utf8(out)?)
}

#[test]
fn a_session_answers_each_line(rt: HostRuntime) -> Result<(), Fail> {
    let mut session = Session::new(rt.alloc())?;
    for (line, want) in SESSION {
        same_text(answered(&mut session, rt.alloc(), line), want, line)?;
    }
    Ok(())
}

/// A value that nests so deep, between two texts.
fn around(alloc: Global, depth: usize, before: &str, behind: &str) -> Result<String, Fail> {
    let value = nested(alloc, depth, "[", "", "]")?;
    Ok(format!(in alloc; "{before}{value}{behind}")?)
}

/// What a session with a function answers to a line around a value that nests so deep.
fn deep_answer(alloc: Global, depth: usize, before: &str, behind: &str) -> Result<String, Fail> {
    let line = around(alloc, depth, before, behind)?;
    let mut session = Session::new(alloc)?;
    let _ = answered(&mut session, alloc, r#"["add_fun","emit doc.a, null"]"#)?;
    answered(&mut session, alloc, line.as_str())
}

const REREDUCE: [&str; 2] = [r#"["rereduce",["first"],["#, "]]"];

const REDUCE: [&str; 2] = [r#"["reduce",["last"],[[[1,"a"],"#, "]]]"];

const MAP_DOC: [&str; 2] = [r#"["map_doc",{"a":"#, "}]"];

/// Texts around a value that nests so deep, and its depth and the texts around it in the answer.
const DEEP: &[([&str; 2], usize, [&str; 2], usize)] = &[
    (REREDUCE, 98, ["[true,[", "]]"], 98),
    (REREDUCE, 99, [BAD_LINE, ""], 0),
    (REDUCE, 97, ["[true,[", "]]"], 97),
    (REDUCE, 98, [BAD_LINE, ""], 0),
    (MAP_DOC, 63, ["[[[", ",null]]]"], 63),
    (MAP_DOC, 64, [BAD_LINE, ""], 0),
];

#[test]
fn the_deepest_values_are_answered(rt: HostRuntime) -> Result<(), Fail> {
    for (line, depth, answer, shown) in DEEP {
        let want = around(rt.alloc(), *shown, answer[0], answer[1])?;
        let given = deep_answer(rt.alloc(), *depth, line[0], line[1]);
        same_text(given, want.as_str(), line[0])?;
    }
    Ok(())
}

/// A reset with spaces behind it.
fn long_line(alloc: Global, length: usize) -> Result<Vec<u8>, Fail> {
    let mut line = vec![in alloc; b' '; length]?;
    for (at, byte) in br#"["reset"]"#.iter().enumerate() {
        if at < line.len() {
            line[at] = *byte;
        }
    }
    Ok(line)
}

/// The second answer stands behind the first.
#[test]
fn a_line_is_134217728_bytes_at_most(rt: HostRuntime) -> Result<(), Fail> {
    let mut session = Session::new(rt.alloc())?;
    let mut out = Vec::new(rt.alloc());
    let mut line = long_line(rt.alloc(), LINE_LIMIT)?;
    for _ in 0..2 {
        session.step(rt.alloc(), &line, &mut out)?;
        line.push(b' ')?;
    }
    assert_eq!(rt;
        out.as_slice(),
        br#"true["error","bad_line","line"]"#.as_slice()
    );
    Ok(())
}

/// Starts the child for an empty line. Another one is sent, and its answer received.
fn asked(servers: &mut PickServers, alloc: Global, line: &str) -> Result<Vec<u8>, ServersFault> {
    if line.is_empty() {
        servers.start(alloc, 0, "pick")?;
        return Ok(Vec::new(alloc));
    }
    servers.send(alloc, 0, line.as_bytes())?;
    servers.receive(alloc, 0)
}

/// Whether the line is answered so. `None` is a fault.
fn gives(servers: &mut PickServers, alloc: Global, line: &str, want: Option<&str>) -> bool {
    match asked(servers, alloc, line) {
        Ok(answer) => want.is_some_and(|want| answer.as_slice() == want.as_bytes()),
        Err(fault) => fault == ServersFault::Failed && want.is_none(),
    }
}

/// Lines and their answers where the first start and the second send fail.
const ASKED: &[(&str, Option<&str>)] = &[
    ("", None),
    ("", Some("")),
    (r#"["add_fun","emit doc.n, 1"]"#, Some("true")),
    (r#"["map_doc",{"n":1}]"#, None),
    (r#"["map_doc",{"n":2}]"#, Some("[[[2,1]]]")),
];

#[test]
fn servers_in_the_process_fail_at_the_listed_calls(rt: HostRuntime) -> Result<(), Fail> {
    let fail = [0, 4].to_vec(rt.alloc())?;
    let mut servers: PickServers = InProcess::new(rt.alloc(), fail)?;
    for (line, want) in ASKED {
        assert!(rt; gives(&mut servers, rt.alloc(), line, *want));
    }
    Ok(())
}

const LINES: &[u8] = br#"["reset",{"reduce_limit":false}]
["add_fun","emit doc.n, doc._id"]

["map_doc",{"_id":"a","_rev":"1-00000000000000000000000000000002","n":7}]
["reduce",["max"],[[[7,"a"],"a"],[[8,"b"],"b"]]]
["open"]"#;

const ANSWERS: &[u8] = br#"true
true
["error","bad_line","line"]
[[[7,"a"]]]
[true,["b"]]
["error","bad_line","line"]
"#;

/// The status of a run over ports that take at most `piece` bytes a call, and what it wrote.
fn run(
    alloc: Global,
    input: &[u8],
    piece: usize,
    failing_reads: &[u64],
    failing_writes: &[u64],
) -> Result<(u8, Vec<u8>), Fail>
    requires { piece ≢ 0 }
{
    let mut source = MemorySource::new(alloc, input, piece, failing_reads.to_vec(alloc)?)?;
    let mut sink = MemorySink::new(alloc, piece, failing_writes.to_vec(alloc)?)?;
    let status = serve_lines(alloc, &mut source, &mut sink);
    Ok((status, sink.held().to_vec(alloc)?))
}

/// An input, the most bytes that a call on a port takes, and the answers.
const RUNS: &[(&[u8], usize, &[u8])] = &[
    (b"", 1, b""),
    (b"[\"reset\"]", 1, b"true\n"),
    (b"[\"reset\"]", 8, b"true\n"),
    (b"[\"reset\"]\n", 1, b"true\n"),
    (b"[\"reset\"]\n", 8, b"true\n"),
    (LINES, 1, ANSWERS),
    (LINES, 2, ANSWERS),
    (LINES, 3, ANSWERS),
    (LINES, 5, ANSWERS),
    (LINES, 8, ANSWERS),
];

fn runs_so(alloc: Global, input: &[u8], piece: usize, answers: &[u8]) -> Result<bool, Fail> {
    let (status, held) = run(alloc, input, piece.max(1), &[], &[])?;
    Ok(status == 0 && held.as_slice() == answers)
}

#[test]
fn lines_are_answered_in_order(rt: HostRuntime) -> Result<(), Fail> {
    for (input, piece, answers) in RUNS {
        assert!(rt; runs_so(rt.alloc(), input, *piece, answers)?);
    }
    Ok(())
}

/// Whether a run may end so: what it wrote are answers, all of them where no call failed, whole lines where a read
/// failed, and less than all where a write failed.
fn is_right(status: u8, held: &[u8], writes: bool) -> bool {
    let is_end_right = match (status, writes) {
        (0, _) => held.len() == ANSWERS.len(),
        (5, false) => held.is_empty() || held.ends_with(b"\n"),
        (4, true) => held.len() < ANSWERS.len(),
        _ => false,
    };
    ANSWERS.starts_with(held) && is_end_right
}

/// Whether each run ends right in which one read or one write fails.
fn all_end_right(alloc: Global, piece: usize, writes: bool) -> Result<bool, Fail>
    requires { piece ≢ 0 }
{
    for call in 0..u64::MAX {
        let (status, held) = if writes {
            run(alloc, LINES, piece, &[], &[call])?
        } else {
            run(alloc, LINES, piece, &[call], &[])?
        };
        if !is_right(status, &held, writes) {
            return Ok(false);
        }
        if status == 0 {
            return Ok(true);
        }
    }
    Ok(false)
}

#[test]
fn a_port_that_fails_ends_the_run(rt: HostRuntime) -> Result<(), Fail> {
    for piece in 1..=6 {
        let reads = all_end_right(rt.alloc(), piece, false)?;
        let writes = all_end_right(rt.alloc(), piece, true)?;
        assert!(rt; reads && writes, "pieces of {piece}");
    }
    Ok(())
}
