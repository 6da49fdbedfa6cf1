//! What programs give, worked out by hand from the language's description.

use crate::programs::mapped;
use std::test::Fail;
use test_tools::same_text;

// Programs, documents, and the rows of these.
const PROGRAMS: &[(&str, &str, &str)] = &[
    ("", "{}", ""),
    (
        "emit doc.n, doc._id",
        "{\"_id\":\"a\",\"n\":7}",
        "[7,\"a\"]",
    ),
    ("emit doc, 1", "{\"a\":1}", "[{\"a\":1},1]"),
    ("emit doc.x, 1", "{\"a\":1}", ""),
    ("emit 1, doc.x", "{\"a\":1}", ""),
    ("emit doc.a, 1", "{\"a\":null}", "[null,1]"),
    ("emit doc.a.b, 1", "{\"a\":{\"b\":[1]}}", "[[1],1]"),
    ("emit doc.a.b, 1", "{\"a\":5}", ""),
    ("emit doc['a b'], 1", "{\"a b\":2}", "[2,1]"),
    ("emit doc.l[0], doc.l[1]", "{\"l\":[5,6]}", "[5,6]"),
    ("emit doc.l[2], 1", "{\"l\":[5,6]}", ""),
    ("emit doc.l[-1], 1", "{\"l\":[5,6]}", ""),
    ("emit doc.l['0'], 1", "{\"l\":[5]}", ""),
    ("emit doc[0], 1", "{\"0\":1}", ""),
    ("emit doc['0'], 1", "{\"0\":1}", "[1,1]"),
    ("emit doc.l[0][1], 1", "{\"l\":[[5,6]]}", "[6,1]"),
    (
        "emit [], [1, 'a', true, false, null, -3]",
        "{}",
        "[[],[1,\"a\",true,false,null,-3]]",
    ),
    ("emit [doc.a, doc.b], 1", "{\"a\":1}", ""),
    ("emit [[doc.b]], 1 emit 2, 2", "{}", "[2,2]"),
    (
        "emit [doc.a, [doc.a]], 'x'",
        "{\"a\":\"q\"}",
        "[[\"q\",[\"q\"]],\"x\"]",
    ),
    ("emit doc.emit, doc.if", "{\"emit\":1,\"if\":2}", "[1,2]"),
    ("if doc.a == 1 { emit 1, 1 }", "{\"a\":1}", "[1,1]"),
    ("if doc.a == 1 { emit 1, 1 }", "{\"a\":2}", ""),
    ("if doc.a == 1 { emit 1, 1 }", "{}", ""),
    ("if doc.a == doc.b { emit 1, 1 }", "{}", ""),
    (
        "if doc.a == doc.b { emit 1, 1 }",
        "{\"a\":{\"x\":[1]},\"b\":{\"x\":[1]}}",
        "[1,1]",
    ),
    ("if doc.a == '1' { emit 1, 1 }", "{\"a\":1}", ""),
    ("if doc.a == null { emit 1, 1 }", "{\"a\":null}", "[1,1]"),
    (
        "if doc.s == 'open' { emit doc.m, doc._id }",
        "{\"_id\":\"o3\",\"m\":202401,\"s\":\"open\"}",
        "[202401,\"o3\"]",
    ),
    (
        "for x in doc.t { emit x, 1 }",
        "{\"t\":[\"t\",\"u\",\"t\"]}",
        "[\"t\",1][\"u\",1][\"t\",1]",
    ),
    ("for x in doc.t { emit x, 1 }", "{\"t\":{\"a\":1}}", ""),
    ("for x in doc.t { emit x, 1 }", "{\"t\":\"abc\"}", ""),
    ("for x in doc.t { emit x, 1 }", "{}", ""),
    ("for x in doc.t { emit x, 1 }", "{\"t\":[]}", ""),
    (
        "for x in doc.a { for y in doc.b { emit x, y } }",
        "{\"a\":[1,2],\"b\":[3,4]}",
        "[1,3][1,4][2,3][2,4]",
    ),
    (
        "for x in doc.a { for y in x.l { emit y, x.k } emit x.k, null }",
        "{\"a\":[{\"k\":1,\"l\":[5,6]},{\"k\":2,\"l\":[]},{\"k\":3}]}",
        "[5,1][6,1][1,null][2,null][3,null]",
    ),
    (
        "for x in [1, doc.a] { emit x, 1 }",
        "{\"a\":2}",
        "[1,1][2,1]",
    ),
    ("for x in [1, doc.b] { emit x, 1 }", "{\"a\":2}", ""),
    (
        "for x in doc.a { if x == doc.k { emit x, 'hit' } }",
        "{\"a\":[1,2,1],\"k\":1}",
        "[1,\"hit\"][1,\"hit\"]",
    ),
    ("emit 2, 1 emit 1, 2 emit 2, 1", "{}", "[2,1][1,2][2,1]"),
    ("for x in doc.a { } emit doc.a, 1", "{\"a\":[1]}", "[[1],1]"),
    ("emit 'å', doc.t", "{\"t\":\"é\"}", "[\"å\",\"é\"]"),
];

#[test]
fn programs_give_their_rows(rt: HostRuntime) -> Result<(), Fail> {
    for (source, document, rows) in PROGRAMS {
        same_text(mapped(rt.alloc(), source, document), rows, source)?;
    }
    Ok(())
}
