//! Which rows are in the range of a query.

use json_terms::read_term;
use query_args::{Query, Target, in_range, passes_end, passes_start, read_query};
use std::alloc::Global;
use std::test::Fail;

/// The keys and ids of some rows.
const ROWS: &[(&str, &str)] = &[
    ("1", "a"),
    ("2", "b"),
    ("2", "ba"),
    ("2", "c"),
    ("\"x\"", "d"),
    ("[]", "e"),
];

/// The ids of the rows in range. A row that isn't behind an end is told by a mark of it: `<` of the start and `>` of the end.
fn ids(alloc: Global, query: &Query) -> Result<String, Fail> {
    let mut ids = String::new(alloc);
    for &(key, id) in ROWS {
        let key = read_term(alloc, key.as_bytes())?;
        let mark = if in_range(query, &key, id) {
            id
        } else if !passes_start(query, &key, id) {
            "<"
        } else if !passes_end(query, &key, id) {
            ">"
        } else {
            "?"
        };
        ids.push_str(" ")?;
        ids.push_str(mark)?;
    }
    Ok(ids)
}

/// Queries, and which of the rows are in range.
const RANGES: &[(&str, &str)] = &[
    ("{}", " a b ba c d e"),
    (r#"{"startkey":2}"#, " < b ba c d e"),
    (r#"{"endkey":2}"#, " a b ba c > >"),
    (r#"{"endkey":2,"inclusive_end":false}"#, " a > > > > >"),
    (r#"{"key":2}"#, " < b ba c > >"),
    (r#"{"key":2,"inclusive_end":false}"#, " < > > > > >"),
    (r#"{"startkey":2,"startkey_docid":"ba"}"#, " < < ba c d e"),
    (r#"{"endkey":2,"endkey_docid":"ba"}"#, " a b ba > > >"),
    (
        r#"{"endkey":2,"endkey_docid":"ba","inclusive_end":false}"#,
        " a b > > > >",
    ),
    (
        r#"{"startkey_docid":"z","endkey_docid":"a"}"#,
        " a b ba c d e",
    ),
    (r#"{"startkey":2,"descending":true}"#, " a b ba c < <"),
    (r#"{"endkey":2,"descending":true}"#, " > b ba c d e"),
    (
        r#"{"startkey":2,"startkey_docid":"ba","descending":true}"#,
        " a b ba < < <",
    ),
    (
        r#"{"endkey":2,"endkey_docid":"ba","descending":true}"#,
        " > > ba c d e",
    ),
    (
        r#"{"endkey":2,"endkey_docid":"ba","descending":true,"inclusive_end":false}"#,
        " > > > c d e",
    ),
    (r#"{"startkey":[],"endkey":1}"#, " < < < < > >"),
];

#[test]
fn ranges_have_their_rows(rt: HostRuntime) -> Result<(), Fail> {
    let alloc = rt.alloc();
    for &(text, want) in RANGES {
        let query = read_term(alloc, text.as_bytes())?;
        let query = read_query(alloc, &query, Target::View(false))?;
        let ids = ids(alloc, &query)?;
        assert!(rt; ids.as_str() == want, "{text}");
    }
    Ok(())
}
