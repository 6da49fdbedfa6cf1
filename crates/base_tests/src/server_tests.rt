//! Servers in the process, servers of a script, and the commands that they are sent.

use Call::{Ask, Receive, Send, Start, Stop};
use json_terms::{Chars, NoMemory, Row, Term, Terms, write_term};
use std::alloc::Global;
use std::test::Fail;
use test_tools::{Call, called, nested, same_text, shown, text_of};
use view_ports::{
    Answer, Command, FieldServers, InProcess, ScriptServers, Servers, ServersFault, read_command,
};

const COMPLAINT: &str = r#"["error","compilation_error","source"]"#;

const BAD_LINE: &str = r#"["error","bad_line","line"]"#;

const FAILED: &str = "the query server failed";

const ADD: &str = r#"["add_fun","a"]"#;

const MAP: &str = r#"["map_doc",{"a":7}]"#;

/// Calls in one session, and what each gives.
const SESSION: &[(u32, Call, &str, &str)] = &[
    (0, Start, "", ""),
    (0, Ask, r#"["map_doc",{"name":1}]"#, "[]"),
    (0, Ask, r#"["reset"]"#, "true"),
    (0, Ask, r#"["add_fun","name"]"#, "true"),
    (
        0,
        Ask,
        r#"["map_doc",{"_id":"a","name":"x"}]"#,
        r#"[[["x",null]]]"#,
    ),
    (0, Ask, r#"["map_doc",{"_id":"a"}]"#, "[[]]"),
    (0, Ask, r#"["map_doc",{"name":null}]"#, "[[[null,null]]]"),
    (0, Ask, r#"["add_fun",""]"#, COMPLAINT),
    (0, Ask, r#"["reduce",["name"],[[[1,"a"],2]]]"#, COMPLAINT),
    (0, Ask, r#"["rereduce",["name"],[1,2]]"#, COMPLAINT),
    (0, Ask, r#"["reduce",["name"],[]]"#, BAD_LINE),
    (0, Ask, r#"["ddoc","_design/d"]"#, BAD_LINE),
    (0, Ask, "", BAD_LINE),
    (0, Ask, r#"["add_fun","_id"]"#, "true"),
    (
        0,
        Ask,
        r#"["map_doc",{"name":{"b":[2],"a":1},"_id":"a"}]"#,
        r#"[[[{"a":1,"b":[2]},null]],[["a",null]]]"#,
    ),
    (0, Ask, r#"["reset",{"reduce_limit":false}]"#, "true"),
    (0, Ask, r#"["map_doc",{"name":1}]"#, "[]"),
];

/// Slot 0 answers in the order of the lines, and then has nothing to say. Slot 8 never gets the function. A second start
/// forgets the function, and a stop leaves nobody who answers.
const SLOTS: &[(u32, Call, &str, &str)] = &[
    (0, Start, "", ""),
    (8, Start, "", ""),
    (0, Send, ADD, ""),
    (0, Send, MAP, ""),
    (0, Receive, "", "true"),
    (0, Receive, "", "[[[7,null]]]"),
    (0, Receive, "", ""),
    (8, Ask, MAP, "[]"),
    (0, Start, "", ""),
    (0, Ask, MAP, "[]"),
    (0, Stop, "", ""),
    (0, Send, MAP, ""),
    (0, Receive, "", ""),
];

/// The calls 0, 3, 4 and 6 fail; a stop is no such call. The line that was sent waits still after a receive that fails,
/// and the one that wasn't sent doesn't. A start that fails leaves no child.
const FAILING: &[(u32, Call, &str, &str)] = &[
    (0, Stop, "", ""),
    (0, Start, "", FAILED),
    (0, Start, "", ""),
    (0, Send, ADD, ""),
    (0, Send, MAP, FAILED),
    (0, Receive, "", FAILED),
    (0, Receive, "", "true"),
    (0, Start, "", FAILED),
    (0, Send, ADD, ""),
    (0, Receive, "", ""),
];

/// Makes the calls on servers of which some calls fail, and compares what each gives.
fn assert_calls(
    alloc: Global,
    fail: &[u64],
    calls: &[(u32, Call, &str, &str)],
) -> Result<(), Fail> {
    let mut servers: FieldServers = InProcess::new(alloc, fail.to_vec(alloc)?)?;
    for (slot, call, line, want) in calls {
        let given = called(&mut servers, alloc, *slot, *call, line);
        same_text(shown(alloc, given), want, line)?;
    }
    Ok(())
}

#[test]
fn servers_in_the_process_answer_each_call(rt: HostRuntime) -> Result<(), Fail> {
    assert_calls(rt.alloc(), &[], SESSION)?;
    assert_calls(rt.alloc(), &[], SLOTS)?;
    assert_calls(rt.alloc(), &[0, 3, 4, 6], FAILING)
}

/// A script of a line, a fault and an empty line.
fn script(alloc: Global) -> Result<Vec<Answer>, NoMemory> {
    let mut answers = Vec::new(alloc);
    answers.push(Answer::Line(Chars::from_text(alloc, "true")?))?;
    answers.push(Answer::Fail)?;
    answers.push(Answer::Line(Chars::from_text(alloc, "")?))?;
    Ok(answers)
}

/// What the child of the slot answers from the script.
fn scripted(
    servers: &mut ScriptServers,
    alloc: Global,
    slot: u32,
) -> Result<Vec<u8>, ServersFault> {
    if slot >= 9 {
        return Err(ServersFault::Failed);
    }
    servers.start(alloc, slot, "x")?;
    servers.send(alloc, slot, br#"["reset"]"#)?;
    let given = servers.receive(alloc, slot);
    servers.stop(slot);
    given
}

#[test]
fn a_script_is_given_in_order(rt: HostRuntime) -> Result<(), Fail> {
    let mut servers = ScriptServers::new(rt.alloc(), script(rt.alloc())?)?;
    for (slot, want) in [(0, "true"), (8, FAILED), (3, ""), (0, FAILED), (0, FAILED)] {
        let given = scripted(&mut servers, rt.alloc(), slot);
        same_text(shown(rt.alloc(), given), want, want)?;
    }
    Ok(())
}

#[test]
fn want_of_memory_has_words(rt: HostRuntime) -> Result<(), Fail> {
    let text = format!(in rt.alloc(); "{}", ServersFault::NoMemory)?;
    assert_eq!(rt; text.as_str(), "out of memory");
    Ok(())
}

/// The source, and key, id and value of each row.
fn reduce_text(alloc: Global, source: &str, rows: &[Row]) -> Result<String, Fail> {
    let mut out = source.as_bytes().to_vec(alloc)?;
    for row in rows {
        out.push(b' ')?;
        write_term(alloc, &row.key, &mut out)?;
        out.push(b'@')?;
        out.extend_from_slice(row.id.as_str().as_bytes())?;
        out.push(b'=')?;
        write_term(alloc, &row.value, &mut out)?;
    }
    Ok(String::from_utf8(out)?)
}

/// Two texts, one behind the other.
fn joined(alloc: Global, before: &str, behind: &str) -> Result<String, Fail> {
    Ok(format!(in alloc; "{before} {behind}")?)
}

fn rereduce_text(alloc: Global, source: &str, values: Terms) -> Result<String, Fail> {
    let values = text_of(alloc, &Term::Array(values))?;
    joined(alloc, source, values.as_str())
}

/// The command in few characters: its source, and the terms that it is about.
fn command_text(alloc: Global, command: Command) -> Result<String, Fail> {
    match command {
        Command::Reset => joined(alloc, "reset", ""),
        Command::AddFun { source } => joined(alloc, "add_fun", source.as_str()),
        Command::MapDoc { document } => text_of(alloc, &Term::Object(document)),
        Command::Reduce { source, rows } => reduce_text(alloc, source.as_str(), rows.as_slice()),
        Command::Rereduce { source, values } => rereduce_text(alloc, source.as_str(), values),
        Command::Other => joined(alloc, "other", ""),
    }
}

/// Lines, and the commands that they are.
const LINES: &[(&str, &str)] = &[
    (r#"["reset"]"#, "reset "),
    (r#" [ "reset" , 1, {} ] "#, "reset "),
    (r#"["\u0072eset"]"#, "reset "),
    (r#"["add_fun","a b"]"#, "add_fun a b"),
    (r#"["add_fun",""]"#, "add_fun "),
    (r#"["map_doc",{}]"#, "{}"),
    (r#"["map_doc",{"b":1,"a":2,"b":3}]"#, r#"{"a":2,"b":3}"#),
    (
        r#"["reduce",["s"],[[[1,"a"],[2]],[[null,""],"v"]]]"#,
        r#"s 1@a=[2] null@="v""#,
    ),
    (r#"["rereduce",[""],[1,[],null]]"#, " [1,[],null]"),
    ("", "other "),
    ("reset", "other "),
    (r#""reset""#, "other "),
    ("[]", "other "),
    (r#"{"reset":[]}"#, "other "),
    (r#"[["reset"]]"#, "other "),
    (r#"["reset"]x"#, "other "),
    (r#"["Reset"]"#, "other "),
    (r#"["reset "]"#, "other "),
    (r#"["reset",1.5]"#, "other "),
    (r#"["add_fun"]"#, "other "),
    (r#"["add_fun",1]"#, "other "),
    (r#"["add_fun",["a"]]"#, "other "),
    (r#"["add_fun","a","b"]"#, "other "),
    (r#"["map_doc"]"#, "other "),
    (r#"["map_doc",[]]"#, "other "),
    (r#"["map_doc",{},{}]"#, "other "),
    (r#"["reduce",["s"]]"#, "other "),
    (r#"["reduce","s",[[[1,"a"],2]]]"#, "other "),
    (r#"["reduce",["s","t"],[[[1,"a"],2]]]"#, "other "),
    (r#"["reduce",[],[[[1,"a"],2]]]"#, "other "),
    (r#"["reduce",["s"],[]]"#, "other "),
    (r#"["reduce",["s"],[[[1,2],2]]]"#, "other "),
    (r#"["reduce",["s"],[[[1,"a"]]]]"#, "other "),
    (r#"["reduce",["s"],[[[1,"a"],2],3]]"#, "other "),
    (r#"["rereduce",["s"],[]]"#, "other "),
    (r#"["rereduce",["s"],{}]"#, "other "),
    (r#"["rereduce",["s"],[1],[2]]"#, "other "),
];

#[test]
fn lines_are_read_as_commands(rt: HostRuntime) -> Result<(), Fail> {
    for (line, want) in LINES {
        let command = read_command(rt.alloc(), line.as_bytes())?;
        same_text(command_text(rt.alloc(), command), want, line)?;
    }
    Ok(())
}

/// Whether a document with so many arrays, one in the other, is a proper one.
fn is_proper(alloc: Global, arrays: usize) -> Result<bool, NoMemory> {
    let value = nested(alloc, arrays, "[", "", "]")?;
    let line = format!(in alloc; "[\"map_doc\",{{\"a\":{value}}}]")?;
    match read_command(alloc, line.as_bytes())? {
        Command::MapDoc { document } => Ok(document.len() == 1),
        _ => Ok(false),
    }
}

#[test]
fn a_document_nests_64_deep_at_most(rt: HostRuntime) -> Result<(), Fail> {
    for (arrays, want) in [(63, true), (64, false)] {
        assert_eq!(rt; is_proper(rt.alloc(), arrays)?, want, "{arrays} arrays");
    }
    Ok(())
}
