//! Documents mapped through servers that answer, fail and print what they shouldn't.

use child_pool::{DocRowLists, Document, Pool, PoolFault};
use design_docs::{Design, DesignFault, read_design};
use json_terms::{Chars, NoMemory, RowLists, Term, depth_within, read_term, write_term};
use std::alloc::Global;
use std::test::Fail;
use test_tools::same_text;
use view_ports::{Answer, FieldServers, ScriptServers, Servers};

/// Appends the keys and values of the rows of each view.
fn put_rows(alloc: Global, lists: &RowLists, text: &mut Vec<u8>) -> Result<(), NoMemory> {
    for list in lists.as_slice() {
        text.push(b'[')?;
        for row in list.as_slice() {
            write_term(alloc, &row.key, text)?;
            text.push(b'=')?;
            write_term(alloc, &row.value, text)?;
            text.push(b';')?;
        }
        text.push(b']')?;
    }
    Ok(())
}

fn rows_text(alloc: Global, documents: &DocRowLists) -> Result<String, Fail> {
    let mut text = Vec::new(alloc);
    for lists in documents.as_slice() {
        put_rows(alloc, lists, &mut text)?;
    }
    Ok(String::from_utf8(text)?)
}

/// The rows, or the fault.
fn shown(alloc: Global, given: Result<DocRowLists, PoolFault>) -> Result<String, Fail> {
    match given {
        Ok(lists) => rows_text(alloc, &lists),
        Err(PoolFault::BadReply(line)) => Ok(format!(in alloc; "bad reply {}", line.as_str())?),
        Err(fault) => Ok(format!(in alloc; "{fault}")?),
    }
}

/// The design of a document's text.
fn design_of(alloc: Global, text: &str) -> Result<Design, Fail> {
    let document = read_term(alloc, text.as_bytes())?;
    match read_design(alloc, &document) {
        Ok(design) => Ok(design),
        Err(DesignFault::NoMemory) => Err(Fail::from(NoMemory)),
        Err(_fault) => Err(Fail::from("no design")),
    }
}

fn document_of(alloc: Global, text: &str) -> Result<Document, Fail> {
    let term = read_term(alloc, text.as_bytes())?;
    let Term::Object(_) = &term else {
        return Err(Fail::from("no object"));
    };
    if !depth_within(&term, 64) {
        return Err(Fail::from("too deep"));
    }
    Ok(Document::new(term))
}

fn documents_of(alloc: Global, texts: &[&str]) -> Result<Vec<Document>, Fail> {
    let mut documents = Vec::new(alloc);
    for text in texts {
        documents.push(document_of(alloc, text)?)?;
    }
    Ok(documents)
}

/// The rows of some documents. The design has few views.
fn mapped<C: Servers>(
    alloc: Global,
    pool: &mut Pool,
    servers: &mut C,
    design: &Design,
    documents: &[Document],
) -> Result<DocRowLists, PoolFault> {
    if design.views.len() > 32 {
        return Err(PoolFault::NoMemory);
    }
    match pool.prepare(alloc, servers, design, 1) {
        Ok(()) => pool.map_batch(alloc, servers, design, documents),
        Err(fault) => Err(fault),
    }
}

/// What the pool answers for the documents of some texts.
fn answered<C: Servers>(
    alloc: Global,
    pool: &mut Pool,
    servers: &mut C,
    design: &str,
    texts: &[&str],
) -> Result<String, Fail> {
    let documents = documents_of(alloc, texts)?;
    let design = design_of(alloc, design)?;
    shown(alloc, mapped(alloc, pool, servers, &design, &documents))
}

/// What a pool without children answers for a document and a view of its member `a`.
fn outcome<C: Servers>(alloc: Global, servers: &mut C) -> Result<String, Fail> {
    let mut pool = Pool::new(alloc, 1, &[])?;
    answered(alloc, &mut pool, servers, FIELD_A, &[DOCUMENT])
}

const DOCUMENT: &str = r#"{"_id":"x","a":7}"#;

const FIELD_A: &str = r#"{"_id":"_design/d","language":"field","views":{"v":{"map":"a"}}}"#;

const FIELDS_A_AND_B: &str =
    r#"{"_id":"_design/d","language":"field","views":{"v":{"map":"a"},"w":{"map":"b"}}}"#;

const NO_FIELD: &str = r#"{"_id":"_design/d","language":"field","views":{"v":{"map":""}}}"#;

const ROWS: &str = "[7=null;]";

const FAULT: &str = "query server failed twice";

const NEVER: u64 = u64::MAX;

/// Two calls that fail, and what the pool answers.
///
/// The calls of the first attempts: the start 0; `reset` 1 and 2; `add_fun` 3 and 4; `map_doc` 5 and 6. A second attempt
/// starts a child anew: where 6 failed, its calls are 7 to 13, and a call 14 isn't made. Where two prompts fail once each, both are
/// made good: where 1 failed, the calls of its second attempt are 2 to 4, and then `add_fun` is 5 and 6, and `map_doc` 7 and 8.
const FAILING: &[([u64; 2], &str)] = &[
    ([0, NEVER], ROWS),
    ([1, NEVER], ROWS),
    ([2, NEVER], ROWS),
    ([3, NEVER], ROWS),
    ([4, NEVER], ROWS),
    ([5, NEVER], ROWS),
    ([6, NEVER], ROWS),
    ([0, 1], FAULT),
    ([1, 2], FAULT),
    ([2, 3], FAULT),
    ([3, 4], FAULT),
    ([4, 5], FAULT),
    ([5, 6], FAULT),
    ([6, 7], FAULT),
    ([6, 8], FAULT),
    ([6, 9], FAULT),
    ([6, 10], FAULT),
    ([6, 11], FAULT),
    ([6, 12], FAULT),
    ([6, 13], FAULT),
    ([6, 14], ROWS),
    ([1, 5], ROWS),
    ([1, 7], ROWS),
    ([2, 10], ROWS),
    ([NEVER, NEVER], ROWS),
];

fn with_failing_calls(alloc: Global, fail: &[u64; 2]) -> Result<String, Fail> {
    let mut servers = FieldServers::new(alloc, fail.to_vec(alloc)?)?;
    outcome(alloc, &mut servers)
}

#[test]
fn one_failed_call_is_made_good_and_two_are_a_fault(rt: HostRuntime) -> Result<(), Fail> {
    for (fail, want) in FAILING {
        same_text(with_failing_calls(rt.alloc(), fail), want, "")?;
    }
    Ok(())
}

const LOG: &str = r#"["log","x"]"#;

fn push_line(alloc: Global, answers: &mut Vec<Answer>, line: &str) -> Result<(), NoMemory> {
    answers.push(Answer::Line(Chars::from_text(alloc, line)?))?;
    Ok(())
}

/// Three lines, with so many log lines behind the first.
fn script(alloc: Global, lines: &[&str; 3], logs: u32) -> Result<Vec<Answer>, NoMemory> {
    let mut answers = Vec::new(alloc);
    push_line(alloc, &mut answers, lines[0])?;
    for _ in 0..logs {
        push_line(alloc, &mut answers, LOG)?;
    }
    push_line(alloc, &mut answers, lines[1])?;
    push_line(alloc, &mut answers, lines[2])?;
    Ok(answers)
}

fn with_script(alloc: Global, lines: &[&str; 3], logs: u32) -> Result<String, Fail> {
    let mut servers = ScriptServers::new(alloc, script(alloc, lines, logs)?)?;
    outcome(alloc, &mut servers)
}

const COMPILE: &str = "a source doesn't compile";

/// The answers to `reset`, `add_fun` and `map_doc`, how many log lines stand behind the first, and what the pool answers.
const SCRIPTS: &[([&str; 3], u32, &str)] = &[
    (["true", "true", "[[]]"], 0, "[]"),
    (["true", "true", "[[[1,[2]]]]"], 0, "[1=[2];]"),
    (["true", "true", "[[[1,[2]]]]"], 1, "[1=[2];]"),
    (["true", "true", "[[[1,[2]]]]"], 1_000, "[1=[2];]"),
    (["true", "true", "[[]]"], 1_001, "bad reply [\"log\",\"x\"]"),
    (["true", "true", "[]"], 0, "bad reply []"),
    (["true", "true", "[[],[]]"], 0, "bad reply [[],[]]"),
    (["true", "true", "[[[1]]]"], 0, "bad reply [[[1]]]"),
    (["true", "true", "\u{e9}"], 0, "bad reply ??"),
    (["true", "false", "[[]]"], 0, "bad reply false"),
    (["1", "true", "[[]]"], 0, "bad reply 1"),
    (
        ["true", r#"["error","compilation_error","no"]"#, "[[]]"],
        0,
        COMPILE,
    ),
    (
        ["true", r#"["fatal","compilation_error","no"]"#, "[[]]"],
        0,
        COMPILE,
    ),
    (
        ["true", r#"["error","bad_line","no"]"#, "[[]]"],
        0,
        r#"bad reply ["error","bad_line","no"]"#,
    ),
];

#[test]
fn replies_that_are_not_proper_are_shown(rt: HostRuntime) -> Result<(), Fail> {
    for (lines, logs, want) in SCRIPTS {
        same_text(with_script(rt.alloc(), lines, *logs), want, lines[2])?;
    }
    Ok(())
}

/// Requests on one pool, and its answers.
///
/// A child is kept between requests: the calls of the first are 0 to 6, those of the second 7 to 12, without a start. The
/// third fails at its first call and at the start after it; the fourth starts a child again.
const REQUESTS: &[(&str, &[&str], &str)] = &[
    (FIELD_A, &[DOCUMENT], ROWS),
    (FIELD_A, &[DOCUMENT], ROWS),
    (FIELD_A, &[DOCUMENT], FAULT),
    (FIELD_A, &[DOCUMENT], ROWS),
    (
        FIELDS_A_AND_B,
        &[r#"{"a":1,"b":2}"#, r#"{"b":3}"#, "{}"],
        "[1=null;][2=null;][][3=null;][][]",
    ),
    (NO_FIELD, &[DOCUMENT], COMPILE),
];

#[test]
fn a_child_is_kept_and_a_stopped_one_is_started_anew(rt: HostRuntime) -> Result<(), Fail> {
    let mut servers = FieldServers::new(rt.alloc(), [13, 14].to_vec(rt.alloc())?)?;
    let mut pool = Pool::new(rt.alloc(), 1, &[])?;
    for (design, documents, want) in REQUESTS {
        let given = answered(rt.alloc(), &mut pool, &mut servers, design, documents);
        same_text(given, want, design)?;
    }
    pool.stop_all(&mut servers);
    Ok(())
}

/// A pool with some words of the command line.
fn pool_of(alloc: Global, words: &[&str]) -> Result<Pool, NoMemory> {
    let mut list = Vec::new(alloc);
    for word in words {
        list.push(String::from_str(alloc, word)?)?;
    }
    Pool::new(alloc, 1, list.as_slice())
}

/// The path of a language where the words are given, or `-`.
fn path_of(alloc: Global, words: &[&str], language: &str) -> Result<String, Fail> {
    let pool = pool_of(alloc, words)?;
    Ok(String::from_str(alloc, pool.path_of(language).unwrap_or("-"))?)
}

const WORDS: &[&str] = &[
    "js=node",
    "odd=a=b",
    "empty=",
    "=x",
    "none",
    "field=own",
    "pick=other",
];

const PATHS: &[(&[&str], &str, &str)] = &[
    (WORDS, "js", "node"),
    (WORDS, "odd", "a=b"),
    (WORDS, "empty", ""),
    (WORDS, "field", "own"),
    (WORDS, "pick", "other"),
    (WORDS, "", "-"),
    (WORDS, "none", "-"),
    (WORDS, "x", "-"),
    (&[], "field", "builtin:field"),
    (&[], "pick", "builtin:pick"),
    (&[], "javascript", "-"),
];

#[test]
fn words_name_paths_of_languages(rt: HostRuntime) -> Result<(), Fail> {
    for (words, language, want) in PATHS {
        same_text(path_of(rt.alloc(), words, language), want, language)?;
    }
    Ok(())
}
