//! What no contract says: real children answer, and each side of a switch gets its own calls.

ghost use Rattle.std.specs.Prelude.{◌≡◌, codes};

use Call::{Ask, Receive, Send, Start, Stop};
use json_terms::{Chars, NoMemory};
use real_ports::{BuiltInPath, Diagnostics, Program, RealServers, Switch};
use std::alloc::Global;
use std::test::Fail;
use test_tools::{Call, called, same_text, shown};
use view_ports::{Answer, FieldServers, ScriptServers, Servers, ServersFault};

const FAILED: &str = "the query server failed";

const CAT: &str = "/bin/cat";

const SHELL: &str = "/bin/sh";

/// Calls in their order, and what each gives.
const CALLS: &[(u32, Call, &str, &str)] = &[
    (0, Start, CAT, ""),
    (8, Start, SHELL, ""),
    (0, Ask, "[\"reset\"]", "[\"reset\"]"),
    (0, Ask, "", ""),
    // Both lines come from one command, and the second is kept until it is asked for.
    (8, Ask, "printf 'a\\nb\\n'", "a"),
    (0, Ask, "more", "more"),
    (8, Ask, "echo c", "b"),
    (8, Receive, "", "c"),
    (0, Stop, "", ""),
    (8, Stop, "", ""),
    // No call succeeds without a child.
    (0, Receive, "", FAILED),
    (1, Start, "./no such program", FAILED),
    (1, Send, "x", FAILED),
    (1, Receive, "", FAILED),
    // A child ends, and its last line has no newline.
    (1, Start, SHELL, ""),
    (1, Send, "printf x; exit", ""),
    (1, Receive, "", FAILED),
    (1, Receive, "", FAILED),
    // A start ends a child that ignores the end of its input.
    (1, Start, SHELL, ""),
    (1, Send, "while :; do :; done", ""),
    (1, Start, CAT, ""),
    (1, Ask, "x", "x"),
    (1, Stop, "", ""),
    (1, Stop, "", ""),
];

fn servers(rt: HostRuntime) -> Result<RealServers, NoMemory> {
    RealServers::new(rt, Diagnostics::new(rt, Program::Couchview))
}

#[test]
fn children_answer_each_line(rt: HostRuntime) -> Result<(), Fail> {
    let mut servers = servers(rt)?;
    for (slot, call, line, want) in CALLS {
        let given = called(&mut servers, rt.alloc(), *slot, *call, line);
        same_text(shown(rt.alloc(), given), want, line)?;
    }
    Ok(())
}

/// Whether a line of so many letters comes back from the child of slot 3.
fn comes_back(
    servers: &mut RealServers,
    alloc: Global,
    length: usize,
) -> Result<bool, ServersFault> {
    let line = vec![in alloc; b'x'; length]?;
    servers.send(alloc, 3, &line)?;
    Ok(servers.receive(alloc, 3)? == line)
}

// `cat` prints what it has read before it reads on, so both ends must be served.
#[test]
fn long_lines_come_back(rt: HostRuntime) -> Result<(), Fail> {
    let mut servers = servers(rt)?;
    servers.start(rt.alloc(), 3, CAT)?;
    for length in [65_535, 65_536, 500_000, 3_000_000] {
        assert!(rt; comes_back(&mut servers, rt.alloc(), length)?, "{length}");
    }
    servers.stop(3);
    Ok(())
}

// The long line doesn't fit into the pipe, so it isn't sent, though a short one may be.
#[test]
fn a_child_that_has_ended_takes_no_line(rt: HostRuntime) -> Result<(), Fail> {
    let mut servers = servers(rt)?;
    servers.start(rt.alloc(), 3, SHELL)?;
    servers.send(rt.alloc(), 3, b"exit")?;
    let line = vec![in rt.alloc(); b'x'; 1_000_000]?;
    let sent = servers.send(rt.alloc(), 3, &line);
    assert_eq!(rt; sent, Err(ServersFault::Failed));
    Ok(())
}

/// The path `here`.
#[derive(Drop)]
struct Here;

impl BuiltInPath for Here {
    ghost bytes = { codes "here" };

    fn path() -> &'static str {
        "here"
    }
}

type TwoKinds = Switch<Here, FieldServers, ScriptServers>;

/// The children of the path `here` answer themselves, and the others from a script of a line and a fault.
fn two_kinds(alloc: Global) -> Result<TwoKinds, NoMemory> {
    let mut answers = Vec::new(alloc);
    answers.push(Answer::Line(Chars::from_text(alloc, "first")?))?;
    answers.push(Answer::Fail)?;
    let script = ScriptServers::new(alloc, answers)?;
    let field = FieldServers::new(alloc, Vec::new(alloc))?;
    Ok(Switch::over(field, script))
}

/// Starts a child in slot 0 and one in slot 1, and sends each a line.
fn start_two(servers: &mut TwoKinds, alloc: Global, paths: [&str; 2]) -> Result<(), ServersFault> {
    servers.start(alloc, 0, paths[0])?;
    servers.start(alloc, 1, paths[1])?;
    servers.send(alloc, 0, b"[\"reset\"]")?;
    servers.send(alloc, 1, b"[\"reset\"]")
}

/// Whether a call received this line.
fn is_line(given: Result<Vec<u8>, ServersFault>, want: &[u8]) -> bool {
    match given {
        Ok(line) => line.as_slice() == want,
        Err(_) => false,
    }
}

#[test]
fn the_built_in_path_stays_in_the_process(rt: HostRuntime) -> Result<(), Fail> {
    let mut servers = two_kinds(rt.alloc())?;
    start_two(&mut servers, rt.alloc(), ["here", "her"])?;
    assert!(rt; is_line(servers.receive(rt.alloc(), 0), b"true"));
    assert!(rt; is_line(servers.receive(rt.alloc(), 1), b"first"));
    // Slot 0 goes to the other side, and slot 1 to this one.
    start_two(&mut servers, rt.alloc(), ["else", "here"])?;
    assert!(rt; is_line(servers.receive(rt.alloc(), 1), b"true"));
    assert!(rt; !is_line(servers.receive(rt.alloc(), 0), b"true"));
    servers.stop(0);
    servers.stop(1);
    Ok(())
}
