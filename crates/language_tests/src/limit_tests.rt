//! Where a run ends.

use crate::programs::mapped;
use map_lang::runs_stay_within_bounds;
use std::alloc::Global;
use std::test::Fail;
use test_tools::nested;

const TEXTS: &str = "emit doc.t, 1 emit 1, 1";

const TURNS: &str = "for x in doc.a { for y in doc.b { } emit x, 1 } ";

const DEPTH: &str = "emit [[[[[[[[[[[[[[[[doc.a]]]]]]]]]]]]]]]], 1 emit 1, 1";

// A source, how many of which texts stand between which others in the document, and how many rows the source gives.
// The limits are those of all texts together, of turns, and of the depth of a key.
const LIMITS: &[(&str, usize, [&str; 2], [&str; 2], usize)] = &[
    (TEXTS, 1_048_573, ["a", ""], ["{\"t\":\"", "\"}"], 1),
    (TEXTS, 1_048_574, ["a", ""], ["{\"t\":\"", "\"}"], 0),
    (
        TURNS,
        49_998,
        [",0", ""],
        ["{\"a\":[1,2],\"b\":[0", "]}"],
        2,
    ),
    (
        TURNS,
        49_999,
        [",0", ""],
        ["{\"a\":[1,2],\"b\":[0", "]}"],
        1,
    ),
    (DEPTH, 80, ["[", "]"], ["{\"a\":", "}"], 2),
    (DEPTH, 81, ["[", "]"], ["{\"a\":", "}"], 0),
];

fn document_of(
    alloc: Global,
    count: usize,
    filling: &[&str; 2],
    around: &[&str; 2],
) -> Result<String, Fail> {
    let inside = nested(alloc, count, filling[0], "", filling[1])?;
    Ok(format!(in alloc; "{}{inside}{}", around[0], around[1])?)
}

// How many rows a source gives of a document. No key has a comma.
fn row_count(alloc: Global, source: &str, document: Result<String, Fail>) -> Result<usize, Fail> {
    let given = mapped(alloc, source, document?.as_str())?;
    Ok(
        given
            .as_bytes()
            .iter()
            .filter(|byte| **byte == b',')
            .count(),
    )
}

#[test]
fn a_run_ends_before_it_passes_a_limit(rt: HostRuntime) -> Result<(), Fail> {
    runs_stay_within_bounds();
    for (source, count, filling, around, want) in LIMITS {
        let document = document_of(rt.alloc(), *count, filling, around);
        assert!(rt;
            row_count(rt.alloc(), source, document)? == *want,
            "{count}"
        );
    }
    Ok(())
}
