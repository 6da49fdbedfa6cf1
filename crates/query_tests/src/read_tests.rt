//! What is read of a query, and why others are refused.

use json_terms::{NoMemory, read_term};
use query_args::{Edge, Query, QueryFault, Target, read_query};
use raw_collation::Level;
use std::alloc::Global;
use std::test::Fail;
use test_tools::text_of;

/// An end: its key, the id behind an `@`, and a `!` where the end itself doesn't belong to the range.
fn edge_text(alloc: Global, edge: &Option<Edge>) -> Result<String, Fail> {
    let Some(edge) = edge else {
        return Ok(String::new(alloc));
    };
    let mut text = text_of(alloc, &edge.key)?;
    if let Some(id) = &edge.id {
        text.push_str("@")?;
        text.push_str(id.as_str())?;
    }
    if !edge.inclusive {
        text.push_str("!")?;
    }
    Ok(text)
}

fn keys_text(alloc: Global, query: &Query) -> Result<String, Fail> {
    let mut text = String::new(alloc);
    if let Some(keys) = &query.keys {
        text.push_str(" keys")?;
        for key in keys.as_slice() {
            text.push_str(" ")?;
            text.push_str(text_of(alloc, key)?.as_str())?;
        }
    }
    Ok(text)
}

/// What of a query is true, each with its name.
fn switches_text(alloc: Global, query: &Query) -> Result<String, Fail> {
    let mut text = String::new(alloc);
    for (is_on, name) in [
        (query.descending, " down"),
        (query.reduced, " reduced"),
        (!query.update, " as it stands"),
        (query.show_seq, " seq"),
    ] {
        if is_on {
            text.push_str(name)?;
        }
    }
    Ok(text)
}

fn level_text(alloc: Global, level: Level) -> Result<String, Fail> {
    match level {
        Level::All => Ok(String::new(alloc)),
        Level::First(count) => Ok(format!(in alloc; " first {count}")?),
        Level::Whole => Ok(String::from_str(alloc, " whole")?),
    }
}

/// The ends of the range, and what else differs from a query without parameters.
fn shown(alloc: Global, query: &Query) -> Result<String, Fail> {
    let start = edge_text(alloc, &query.start)?;
    let end = edge_text(alloc, &query.end)?;
    let keys = keys_text(alloc, query)?;
    let switches = switches_text(alloc, query)?;
    let level = level_text(alloc, query.level)?;
    let (skip, limit) = (query.skip, query.limit.unwrap_or(99));
    Ok(format!(in alloc; "{start}..{end}{keys}{switches}{level} {skip} {limit}")?)
}

/// A fault, and the name that it holds.
fn fault_text(alloc: Global, fault: QueryFault) -> Result<String, Fail> {
    let (kind, name) = match &fault {
        QueryFault::UnknownName(name) => ("unknown ", name.as_str()),
        QueryFault::BadValue(name) => ("bad ", name.as_str()),
        QueryFault::ReduceOfMapOnly => ("no reduce", ""),
        QueryFault::GroupUnreduced => ("group", ""),
        QueryFault::KeysNeedGroup => ("keys", ""),
        QueryFault::KeyAndKeys => ("together", ""),
        QueryFault::CursorReduces => ("cursor", ""),
        QueryFault::NoMemory => return Err(Fail::from(NoMemory)),
    };
    Ok(format!(in alloc; "{kind}{name}")?)
}

fn read_text(alloc: Global, target: Target, text: &str) -> Result<String, Fail> {
    let query = read_term(alloc, text.as_bytes())?;
    match read_query(alloc, &query, target) {
        Ok(query) => shown(alloc, &query),
        Err(fault) => fault_text(alloc, fault),
    }
}

const ALL_DOCS: Target = Target::AllDocs;

const PLAIN: Target = Target::View(false);

const REDUCED: Target = Target::View(true);

const CURSOR: Target = Target::Cursor(true);

const PLAIN_CURSOR: Target = Target::Cursor(false);

/// What is asked, a query, and what is read of it. 99 stands for no limit.
const QUERIES: &[(Target, &str, &str)] = &[
    (PLAIN, "{}", ".. 0 99"),
    (PLAIN, "[]", ".. 0 99"),
    (REDUCED, "{}", ".. reduced 0 99"),
    (ALL_DOCS, "{}", ".. 0 99"),
    (PLAIN_CURSOR, "{}", ".. 0 99"),
    (
        PLAIN,
        r#"{"startkey":[1],"startkey_docid":"a","endkey":{"b":2},"endkey_docid":"é","inclusive_end":false,"skip":2,"limit":3}"#,
        r#"[1]@a..{"b":2}@é! 2 3"#,
    ),
    (
        PLAIN,
        r#"{"key":null,"startkey_docid":"a","endkey_docid":"b","descending":true}"#,
        "null@a..null@b down 0 99",
    ),
    (
        PLAIN,
        r#"{"startkey_docid":"a","endkey_docid":"b","inclusive_end":false}"#,
        ".. 0 99",
    ),
    (PLAIN, r#"{"keys":[2,"x",2]}"#, r#".. keys 2 "x" 2 0 99"#),
    (PLAIN, r#"{"keys":[]}"#, ".. keys 0 99"),
    (PLAIN, r#"{"update":false}"#, ".. as it stands seq 0 99"),
    (PLAIN, r#"{"update":true,"update_seq":true}"#, ".. seq 0 99"),
    (
        PLAIN,
        r#"{"skip":9223372036854775807,"limit":0}"#,
        ".. 9223372036854775807 0",
    ),
    (REDUCED, r#"{"reduce":false}"#, ".. 0 99"),
    (REDUCED, r#"{"reduce":true}"#, ".. reduced 0 99"),
    (
        REDUCED,
        r#"{"group":true,"group_level":2}"#,
        ".. reduced whole 0 99",
    ),
    (
        REDUCED,
        r#"{"group":false,"group_level":1000}"#,
        ".. reduced first 1000 0 99",
    ),
    (REDUCED, r#"{"group_level":0}"#, ".. reduced 0 99"),
    (
        REDUCED,
        r#"{"keys":[1],"group":true}"#,
        ".. keys 1 reduced whole 0 99",
    ),
    (CURSOR, r#"{"reduce":false}"#, ".. 0 99"),
    (
        ALL_DOCS,
        r#"{"key":"a","inclusive_end":false,"descending":true,"skip":1,"limit":2}"#,
        r#""a".."a"! down 1 2"#,
    ),
    // The order of refusals.
    (PLAIN, r#"{"zz":1,"skip":-1}"#, "unknown zz"),
    (PLAIN, r#"{"zz":1,"za":1}"#, "unknown za"),
    (PLAIN, r#"{"skip":-1,"limit":-1}"#, "bad limit"),
    (PLAIN, r#"{"key":1,"keys":1}"#, "bad keys"),
    (PLAIN, r#"{"key":1,"keys":[],"reduce":true}"#, "together"),
    (PLAIN, r#"{"key":1,"endkey":1}"#, "together"),
    (PLAIN, r#"{"startkey":1,"keys":[]}"#, "together"),
    (PLAIN, r#"{"reduce":true,"group":true}"#, "no reduce"),
    (PLAIN, r#"{"group":true}"#, "group"),
    (PLAIN, r#"{"group_level":1}"#, "group"),
    (REDUCED, r#"{"reduce":false,"group_level":1}"#, "group"),
    (REDUCED, r#"{"keys":[],"group_level":1}"#, "keys"),
    (REDUCED, r#"{"keys":[],"group":false}"#, "keys"),
    (CURSOR, "{}", "cursor"),
    (CURSOR, r#"{"keys":[1]}"#, "keys"),
    (CURSOR, r#"{"keys":[1],"group":true}"#, "cursor"),
    (CURSOR, r#"{"zz":1}"#, "unknown zz"),
    (ALL_DOCS, r#"{"keys":[]}"#, "unknown keys"),
    (
        ALL_DOCS,
        r#"{"startkey_docid":"a"}"#,
        "unknown startkey_docid",
    ),
    (ALL_DOCS, r#"{"update":true}"#, "unknown update"),
    (ALL_DOCS, r#"{"reduce":false}"#, "unknown reduce"),
    (ALL_DOCS, r#"{"key":1,"startkey":1}"#, "together"),
    // Values of another kind.
    (PLAIN, r#"{"startkey_docid":1}"#, "bad startkey_docid"),
    (PLAIN, r#"{"endkey_docid":null}"#, "bad endkey_docid"),
    (PLAIN, r#"{"keys":{}}"#, "bad keys"),
    (PLAIN, r#"{"inclusive_end":"true"}"#, "bad inclusive_end"),
    (PLAIN, r#"{"descending":1}"#, "bad descending"),
    (PLAIN, r#"{"limit":"1"}"#, "bad limit"),
    (PLAIN, r#"{"group_level":1001}"#, "bad group_level"),
    (PLAIN, r#"{"group_level":-1}"#, "bad group_level"),
    (PLAIN, r#"{"reduce":null}"#, "bad reduce"),
    (PLAIN, r#"{"group":0}"#, "bad group"),
    (PLAIN, r#"{"update":"lazy"}"#, "bad update"),
    (PLAIN, r#"{"update_seq":[]}"#, "bad update_seq"),
];

#[test]
fn queries_are_read(rt: HostRuntime) -> Result<(), Fail> {
    let alloc = rt.alloc();
    for &(target, query, want) in QUERIES {
        let text = read_text(alloc, target, query)?;
        assert!(rt; text.as_str() == want, "{query}");
    }
    Ok(())
}
