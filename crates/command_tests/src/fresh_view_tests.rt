//! Answers over small databases.

use design_docs::Builtin;
use doc_file::Change;
use fresh_view::{answer_afresh, fresh_rows_are_the_views};
use json_terms::{Chars, read_term};
use query_args::{Target, read_query};
use std::alloc::Global;
use std::test::Fail;

/// An id and the text of its document, or none after a deletion.
type LastWrite<'a> = (&'a str, Option<&'a str>);

const TWICE: &str = "emit doc.k, 1 emit [doc.k, doc._id], 2";

const THREE: &[LastWrite] = &[
    ("c", Some(r#"{"_id":"c","k":2}"#)),
    ("a", Some(r#"{"_id":"a","k":2}"#)),
    ("b", Some(r#"{"_id":"b","k":1}"#)),
];

const OTHERS: &[LastWrite] = &[
    ("gone", None),
    ("_design/d", Some(r#"{"_id":"_design/d","k":0,"views":{}}"#)),
    ("b", Some(r#"{"_id":"b","k":1}"#)),
    ("ago", None),
];

const GROUPS: &[LastWrite] = &[
    ("a", Some(r#"{"g":"x","a":3}"#)),
    ("b", Some(r#"{"g":"y","a":1}"#)),
    ("c", Some(r#"{"g":"x","a":5}"#)),
];

const BY_GROUP: &str = "emit [doc.g, doc.a], doc.a";

// Last writes, a map source, a query, and what answers it.
const ANSWERS: &[(&[LastWrite], &str, &str, &str)] = &[
    (
        &[],
        TWICE,
        r#"{"reduce":false}"#,
        r#"{"total_rows":0,"offset":0,"rows":[]}"#,
    ),
    (
        THREE,
        TWICE,
        r#"{"reduce":false,"startkey":2}"#,
        r#"{"total_rows":6,"offset":1,"rows":[{"id":"a","key":2,"value":1},{"id":"c","key":2,"value":1},{"id":"b","key":[1,"b"],"value":2},{"id":"a","key":[2,"a"],"value":2},{"id":"c","key":[2,"c"],"value":2}]}"#,
    ),
    (
        THREE,
        "emit 1, 1 emit 1, 0",
        r#"{"reduce":false,"limit":4}"#,
        r#"{"total_rows":6,"offset":0,"rows":[{"id":"a","key":1,"value":1},{"id":"a","key":1,"value":0},{"id":"b","key":1,"value":1},{"id":"b","key":1,"value":0}]}"#,
    ),
    (
        OTHERS,
        TWICE,
        r#"{"reduce":false}"#,
        r#"{"total_rows":2,"offset":0,"rows":[{"id":"b","key":1,"value":1},{"id":"b","key":[1,"b"],"value":2}]}"#,
    ),
    (OTHERS, "emit", "{}", "the map source does not compile"),
    (&[], "emit", "{}", "the map source does not compile"),
    (
        GROUPS,
        BY_GROUP,
        r#"{"group_level":1}"#,
        r#"{"rows":[{"key":["x"],"value":8},{"key":["y"],"value":1}]}"#,
    ),
    (
        GROUPS,
        BY_GROUP,
        "{}",
        r#"{"rows":[{"key":null,"value":9}]}"#,
    ),
    (
        GROUPS,
        BY_GROUP,
        r#"{"group":true,"limit":1,"update_seq":true}"#,
        r#"{"update_seq":7,"rows":[{"key":["x",3],"value":3}]}"#,
    ),
    (
        &[("a", Some("7"))],
        "emit 1, 2",
        r#"{"reduce":false}"#,
        r#"{"total_rows":1,"offset":0,"rows":[{"id":"a","key":1,"value":2}]}"#,
    ),
];

fn changes_of(alloc: Global, writes: &[LastWrite]) -> Result<Vec<Change>, Fail> {
    let mut changes = Vec::new(alloc);
    for (id, text) in writes {
        let doc = match text {
            Some(text) => Some(read_term(alloc, text.as_bytes())?),
            None => None,
        };
        changes.push(Change {
            seq: 1,
            id: Chars::from_text(alloc, id)?,
            doc,
        })?;
    }
    Ok(changes)
}

/// What a view with `_sum` answers behind a `> `, or the fault where nothing is written behind it.
fn answered(
    alloc: Global,
    writes: &[LastWrite],
    source: &str,
    query: &str,
) -> Result<String, Fail> {
    let changes = changes_of(alloc, writes)?;
    let query = read_term(alloc, query.as_bytes())?;
    let query = read_query(alloc, &query, Target::View(true))?;
    let mut out = Vec::new(alloc);
    out.extend_from_slice(b"> ")?;
    let result = answer_afresh(
        alloc,
        source,
        Builtin::Sum,
        &query,
        7,
        changes.as_slice(),
        &mut out,
    );
    if let Err(fault) = result {
        return Ok(format!(in alloc; "{}{fault}", String::from_utf8(out)?)?);
    }
    Ok(String::from_utf8(out)?)
}

#[test]
fn views_are_answered_afresh(rt: HostRuntime) -> Result<(), Fail> {
    fresh_rows_are_the_views();
    for (writes, source, query, want) in ANSWERS {
        let given = answered(rt.alloc(), writes, source, query)?;
        let want = format!(in rt.alloc(); "> {want}")?;
        assert!(rt;
            given.as_str() == want.as_str(),
            "{given} is answered for {want}"
        );
    }
    Ok(())
}
