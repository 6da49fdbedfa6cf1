//! What compiles, worked out by hand from the language's description.

use json_terms::NoMemory;
use map_lang::{ParseFault, compiles_once, parse};
use std::alloc::Global;
use std::test::Fail;
use test_tools::nested;

// Sources of the grammar.
const PROPER: &[&str] = &[
    "",
    " \t\r\n",
    "emit 1,2",
    "emit doc, doc",
    "emit doc.n, doc._id",
    "emit 1, 2emit 3, 4",
    "emit doc.emit, doc.if",
    "emit doc.doc, doc.null",
    "emit doc.for.in.true.false, 1",
    "emit doc[0]['a'].b, null",
    "emit doc[-1], 1",
    "emit -5, 5",
    "emit 9223372036854775807, -9223372036854775808",
    "emit 0, 0",
    "emit '', 'x'",
    "emit 'a\nb', '\"\\ {'",
    "emit 'blåbær', '😀'",
    "emit [], [ ]",
    "emit [1, [2, []]], [doc.a, true]",
    "emit\tdoc . a\r\n,\ndoc [ 0 ] [ 'b' ]",
    "if doc.a == doc.b { }",
    "if doc.a==1{emit 1,1}",
    "if true == false { if null == [] { } }",
    "for x in doc.a { }",
    "for x in doc { emit x, x }",
    "for x in doc.a { for y in x { emit x, y } }",
    "for x in doc.a { } for x in doc.b { emit x.x, 1 }",
    "for _a1 in [1,2] { emit _a1, 1 }",
    "for lib in doc.lib { emit lib, 1 }",
    "for emits in doc.a { emit emits, 1 }",
    "for Doc in doc { emit Doc, 1 }",
    "for forx in doc { emit forx, 1 }",
    "emit doc.a1_B, doc._",
    "emit 1,2 emit 3,4 if 1==1{}",
    "if [[[[[[[[[[[[[[[[]]]]]]]]]]]]]]]] == 1 { emit doc[0][0], 1 }",
];

// Other sources.
const REFUSED: &[&str] = &[
    "emit",
    "emit 1",
    "emit 1,",
    "emit 1 2",
    "emit ,1",
    "emit 1,2,",
    "emit 1,2 3",
    "doc",
    "1emit 1,2",
    "emit1,2",
    "Emit 1,2",
    "emit x, 1",
    "emit doc.n",
    "emit doc., 1",
    "emit doc.1, 1",
    "emit doc.'a', 1",
    "emit doc[], 1",
    "emit doc[x], 1",
    "emit doc[0, 1",
    "emit doc[00], 1",
    "emit doc[-0], 1",
    "emit 01, 1",
    "emit -0, 1",
    "emit +1, 1",
    "emit - 1, 1",
    "emit 9223372036854775808, 1",
    "emit -9223372036854775809, 1",
    "emit 1.5, 1",
    "emit 'a'.b, 1",
    "emit true.a, 1",
    "emit [1].a, 1",
    "emit [1,], 1",
    "emit [,1], 1",
    "emit [1 2], 1",
    "emit [1, 1",
    "emit 'a, 1",
    "emit \"a\", 1",
    "emit if, 1",
    "emit in, 1",
    "if 1 = 1 { }",
    "if 1 = = 1 { }",
    "if 1 === 1 { }",
    "if 1 == 1",
    "if 1 == 1 {",
    "if 1 == 1 { } }",
    "{ }",
    "if doc { }",
    "for x doc { }",
    "for x in doc",
    "for 1 in doc { }",
    "for doc in doc { }",
    "for true in doc { }",
    "for in in doc { }",
    "for x in x { }",
    "for x in doc { } emit x, 1",
    "for x in doc.a { for x in doc.b { } }",
    "for x in doc { for y in x { } emit y, 1 }",
    "emit doc.å, 1",
    "emit doc.a, 1;",
    "emit doc\u{a0}.a, 1",
    "emit doc.a, 1\u{b}",
];

// Whether the source compiles. `None` is want of memory.
fn compiles(alloc: Global, source: &str) -> Option<bool> {
    match parse(alloc, source) {
        Ok(_) => Some(true),
        Err(ParseFault::Refused) => Some(false),
        Err(ParseFault::NoMemory) => None,
    }
}

#[test]
fn sources_of_the_grammar_compile(rt: HostRuntime) {
    compiles_once();
    for source in PROPER {
        assert!(rt; compiles(rt.alloc(), source) == Some(true), "{source}");
    }
}

#[test]
fn other_sources_are_refused(rt: HostRuntime) {
    for source in REFUSED {
        assert!(rt; compiles(rt.alloc(), source) == Some(false), "{source}");
    }
}

// Blocks and arrays that nest so deep, the arrays in the innermost block.
fn deep(alloc: Global, blocks: usize, arrays: usize) -> Result<String, NoMemory> {
    let array = nested(alloc, arrays, "[", "", "]")?;
    let emit = format!(in alloc; "emit {array}, 1")?;
    nested(alloc, blocks, "if 1 == 1 {", emit.as_str(), "}")
}

// How deep blocks nest, and arrays in the innermost, and whether that compiles.
const DEEP: &[(usize, usize, bool)] = &[
    (0, 16, true),
    (0, 17, false),
    (15, 1, true),
    (16, 1, false),
    (8, 8, true),
    (8, 9, false),
    (1, 16, false),
];

#[test]
fn blocks_and_arrays_nest_16_deep_together(rt: HostRuntime) -> Result<(), Fail> {
    for (blocks, arrays, want) in DEEP {
        let source = deep(rt.alloc(), *blocks, *arrays)?;
        assert!(rt; compiles(rt.alloc(), source.as_str()) == Some(*want));
    }
    Ok(())
}
