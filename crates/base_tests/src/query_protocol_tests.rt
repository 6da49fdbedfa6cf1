//! The lines of commands, and what replies say.

use json_terms::{
    Chars, Members, NoMemory, Row, RowLists, Term, depth_within, read_term, write_term,
};
use query_protocol::{
    Kind, Reply, ReplyFault, add_fun_line, map_line, read_reply, reduce_line, rereduce_line,
    reset_line,
};
use std::alloc::Global;
use std::test::Fail;
use test_tools::{nested, same_text, text_of};

/// Appends the line that asks about a document.
fn put_map(alloc: Global, document: &str, out: &mut Vec<u8>) -> Result<(), Fail> {
    let document = read_term(alloc, document.as_bytes())?;
    let Term::Object(_) = &document else {
        return Err(Fail::from("no object"));
    };
    if !depth_within(&document, 64) {
        return Err(Fail::from("too deep"));
    }
    Ok(map_line(alloc, &document, out)?)
}

/// Appends the line that asks to reduce two rows.
fn put_reduce(alloc: Global, out: &mut Vec<u8>) -> Result<(), Fail> {
    let rows = [
        Row {
            key: Term::Null,
            id: Chars::from_text(alloc, "a\n")?,
            place: 0,
            value: Term::Int(-1),
        },
        Row {
            key: Term::True,
            id: Chars::from_text(alloc, "b")?,
            place: 7,
            value: Term::Object(Members::new(alloc)),
        },
    ];
    Ok(reduce_line(alloc, "sum", &rows, out)?)
}

/// The lines of a session's beginning, one behind the other.
fn first_lines(alloc: Global) -> Result<Vec<u8>, NoMemory> {
    let mut out = Vec::new(alloc);
    reset_line(alloc, &mut out)?;
    add_fun_line(alloc, "emit \"a\"\n\u{e9}", &mut out)?;
    Ok(out)
}

const FIRST: &str = r#"["reset",{"reduce_limit":false}]["add_fun","emit \"a\"\né"]"#;

/// The lines that ask for rows and for results, one behind the other.
fn later_lines(alloc: Global) -> Result<Vec<u8>, Fail> {
    let mut out = Vec::new(alloc);
    put_map(alloc, r#"{"b": [1, null], "_id": "a"}"#, &mut out)?;
    put_reduce(alloc, &mut out)?;
    rereduce_line(alloc, "sum", &[Term::Int(7), Term::Null], &mut out)?;
    Ok(out)
}

const LATER: &str =
    r#"["map_doc",{"_id":"a","b":[1,null]}]["reduce",["sum"],[[[null,"a\n"],-1],[[true,"b"],{}]]]["rereduce",["sum"],[7,null]]"#;

#[test]
fn each_command_has_its_line(rt: HostRuntime) -> Result<(), Fail> {
    assert_eq!(rt; first_lines(rt.alloc())?.as_slice(), FIRST.as_bytes());
    assert_eq!(rt; later_lines(rt.alloc())?.as_slice(), LATER.as_bytes());
    Ok(())
}

/// `KEY=VALUE ` for each row, and `;` behind the rows of each function.
fn rows_text(alloc: Global, lists: &RowLists) -> Result<String, Fail> {
    let mut out = Vec::new(alloc);
    for rows in lists.as_slice() {
        for row in rows.as_slice() {
            write_term(alloc, &row.key, &mut out)?;
            out.push(b'=')?;
            write_term(alloc, &row.value, &mut out)?;
            out.push(b' ')?;
        }
        out.push(b';')?;
    }
    Ok(String::from_utf8(out)?)
}

/// What the reply says, or why it is none.
fn meaning(alloc: Global, kind: Kind, line: &str) -> Result<String, Fail> {
    let word = match read_reply(alloc, kind, line.as_bytes()) {
        Ok(Reply::Log) => "log",
        Ok(Reply::Yes) => "yes",
        Ok(Reply::Compile) => "complaint",
        Ok(Reply::Rows(lists)) => return rows_text(alloc, &lists),
        Ok(Reply::Value(term)) => return text_of(alloc, &term),
        Err(ReplyFault::BadReply) => "bad",
        Err(ReplyFault::NoMemory) => "out of memory",
    };
    Ok(String::from_str(alloc, word)?)
}

/// Lines, and what they say where a reply of the kind is waited for.
const REPLIES: &[(Kind, &str, &str)] = &[
    (Kind::Source, "true", "yes"),
    (Kind::Source, " true ", "yes"),
    (Kind::Source, "", "bad"),
    (Kind::Source, "tru", "bad"),
    (Kind::Source, "true true", "bad"),
    (Kind::Source, "false", "bad"),
    (Kind::Source, "1.0", "bad"),
    (Kind::Source, r#""true""#, "bad"),
    (Kind::Source, "[true]", "bad"),
    (Kind::Source, "[]", "bad"),
    (Kind::Source, "[true,[1]]", "bad"),
    (Kind::Source, r#"["log",""]"#, "log"),
    (Kind::Source, r#"["log",1]"#, "bad"),
    (Kind::Source, r#"["log"]"#, "bad"),
    (Kind::Source, r#"["log","a","b"]"#, "bad"),
    (Kind::Source, r#"["logs","a"]"#, "bad"),
    (Kind::Source, r#"{"log":"a"}"#, "bad"),
    (
        Kind::Source,
        r#"["error","compilation_error",""]"#,
        "complaint",
    ),
    (
        Kind::Source,
        r#"["fatal","compilation_error","a"]"#,
        "complaint",
    ),
    (Kind::Source, r#"["fatal","compilation_error",1]"#, "bad"),
    (Kind::Source, r#"["error","compilation_error"]"#, "bad"),
    (Kind::Source, r#"["compilation_error","a"]"#, "bad"),
    (Kind::Source, r#"["warn","compilation_error","a"]"#, "bad"),
    (Kind::Source, r#"["error","bad_line","a"]"#, "bad"),
    (
        Kind::Source,
        r#"["error","compilation_error","a",1]"#,
        "bad",
    ),
    (Kind::Reset, "true", "yes"),
    (Kind::Reset, "", "bad"),
    (Kind::Reset, "[true,[1]]", "bad"),
    (Kind::Reset, r#"["log",""]"#, "log"),
    (Kind::Reset, r#"["error","compilation_error",""]"#, "bad"),
    (Kind::Reset, r#"["fatal","compilation_error","a"]"#, "bad"),
    (Kind::Rows(0), "[]", ""),
    (Kind::Rows(0), "[[]]", "bad"),
    (Kind::Rows(1), "[]", "bad"),
    (Kind::Rows(1), "[[[2,1],[1,2]]]", "2=1 1=2 ;"),
    (
        Kind::Rows(2),
        r#"[[["a",1],[null,{"b":[2]}]],[]]"#,
        r#""a"=1 null={"b":[2]} ;;"#,
    ),
    (Kind::Rows(2), r#"[[["a",1]]]"#, "bad"),
    (Kind::Rows(2), "[[],[],[]]", "bad"),
    (Kind::Rows(2), r#"[[],[["a"]]]"#, "bad"),
    (Kind::Rows(2), r#"[[],[["a",1,2]]]"#, "bad"),
    (Kind::Rows(2), r#"[[],[["a",1.5]]]"#, "bad"),
    (Kind::Rows(2), "[[],[1]]", "bad"),
    (Kind::Rows(2), "[[],1]", "bad"),
    (Kind::Rows(2), "[[],[]", "bad"),
    (Kind::Rows(2), r#"{"a":[],"b":[]}"#, "bad"),
    (Kind::Rows(2), r#"["log","a"]"#, "log"),
    (Kind::Rows(2), "[true,[1]]", "bad"),
    (Kind::Rows(2), "true", "bad"),
    (Kind::Rows(3), r#"["error","compilation_error","a"]"#, "bad"),
    (Kind::Value, "[true,[7]]", "7"),
    (Kind::Value, "[true,[null]]", "null"),
    (
        Kind::Value,
        r#"[true, [{"b":1,"a":[]}]]"#,
        r#"{"a":[],"b":1}"#,
    ),
    (Kind::Value, "[true,[]]", "bad"),
    (Kind::Value, "[true,[1,2]]", "bad"),
    (Kind::Value, "[true,[1],2]", "bad"),
    (Kind::Value, "[true,1]", "bad"),
    (Kind::Value, "[false,[1]]", "bad"),
    (Kind::Value, "[1,[1]]", "bad"),
    (Kind::Value, "[[1]]", "bad"),
    (Kind::Value, "[[[1,2]]]", "bad"),
    (Kind::Value, "true", "bad"),
    (Kind::Value, "[true,[1e2]]", "bad"),
    (Kind::Value, r#"["log","a"]"#, "log"),
    (
        Kind::Value,
        r#"["error","compilation_error","a"]"#,
        "complaint",
    ),
    (Kind::Value, r#"["error","reduce_overflow","a"]"#, "bad"),
];

#[test]
fn replies_have_their_meaning(rt: HostRuntime) -> Result<(), Fail> {
    for (kind, line, want) in REPLIES {
        same_text(meaning(rt.alloc(), *kind, line), want, line)?;
    }
    Ok(())
}

/// Whether the line is a proper reply that has so many of a text between two others.
fn is_proper(
    alloc: Global,
    kind: Kind,
    count: usize,
    filling: &[&str; 2],
    around: &[&str; 2],
) -> Result<bool, NoMemory> {
    let inside = nested(alloc, count, filling[0], "", filling[1])?;
    let line = format!(in alloc; "{}{inside}{}", around[0], around[1])?;
    Ok(read_reply(alloc, kind, line.as_bytes()).is_ok())
}

const KEY: &[&str; 2] = &["[[[", ",1]]]"];

const KEY_TEXT: &[&str; 2] = &["[[[\"", "\",1]]]"];

const VALUE_TEXT: &[&str; 2] = &["[[[1,\"", "\"]]]"];

const RESULT: &[&str; 2] = &["[true,[", "]]"];

const RESULT_TEXT: &[&str; 2] = &["[true,[\"", "\"]]"];

const LETTERS: &[&str; 2] = &["a", ""];

const ARRAYS: &[&str; 2] = &["[", "]"];

/// The kind of a reply, how many of which texts stand in it, and whether it is proper.
const LIMITS: &[(Kind, usize, &[&str; 2], &[&str; 2], bool)] = &[
    (Kind::Rows(1), 1_048_574, LETTERS, KEY_TEXT, true),
    (Kind::Rows(1), 1_048_575, LETTERS, KEY_TEXT, false),
    (Kind::Rows(1), 1_048_574, LETTERS, VALUE_TEXT, true),
    (Kind::Rows(1), 1_048_575, LETTERS, VALUE_TEXT, false),
    (Kind::Value, 1_048_574, LETTERS, RESULT_TEXT, true),
    (Kind::Value, 1_048_575, LETTERS, RESULT_TEXT, false),
    (Kind::Rows(1), 96, ARRAYS, KEY, true),
    (Kind::Rows(1), 97, ARRAYS, KEY, false),
    (Kind::Value, 96, ARRAYS, RESULT, true),
    (Kind::Value, 97, ARRAYS, RESULT, false),
];

#[test]
fn answers_have_limits(rt: HostRuntime) -> Result<(), Fail> {
    for (kind, count, filling, around, want) in LIMITS {
        let proper = is_proper(rt.alloc(), *kind, *count, filling, around)?;
        assert!(rt; proper == *want, "{count}");
    }
    Ok(())
}

#[test]
fn faults_have_words(rt: HostRuntime) -> Result<(), Fail> {
    let words = format!(in rt.alloc(); "{}, {}", ReplyFault::BadReply, ReplyFault::NoMemory)?;
    assert_eq!(rt; words.as_str(), "no proper reply, out of memory");
    Ok(())
}
