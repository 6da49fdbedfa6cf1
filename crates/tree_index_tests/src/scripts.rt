//! Requests on an index one after another, and what it shows then.

use crate::indexes::{Doc, Request, Turn};

/// Two rows of a document in a view, one in the next, and a document with rows in others.
pub const TWO: &[Doc] = &[
    ("a", ["[[1,5],[1,7]]", "[[null,true]]", "[]"]),
    ("b", ["[[2,3]]", "[]", "[[false,0]]"]),
];

/// A document with other rows, one without rows, and a new one.
const LATER: &[Doc] = &[
    ("a", ["[[1,6]]", "[[null,true]]", "[]"]),
    ("b", ["[]", "[]", "[]"]),
    ("c", ["[]", r#"[["k",null]]"#, "[[false,1],[true,2]]"]),
];

/// A child answers its reset, and how many rows there are.
pub const ONE_ROW: &[&str] = &["true", "[true,[1]]"];

const TWO_ROWS: &[&str] = &["true", "[true,[2]]"];

/// What an index without a commit shows.
pub const NOTHING: &str = "0|||";

/// Two exchanges, of which the second is rolled back and comes again; the index opened with a newest write behind its sequence, at it,
/// and before it, by which it is emptied; and its removal.
///
/// A leaf has 8 bytes for its length and 2 more, and 8 before each item. The items of the first exchange have 27, 27 and 27 bytes in the
/// first view, 11 in the second, 19 in the third, and 46 and 31 in the back-index: its leaves have 115, 29, 37 and 103 bytes, which are
/// 284. Those of the second have 45, 53, 64 and 92, which are 254. A root record has 38 + 3 * 20 = 98.
pub const SCRIPT: &[Turn] = &[
    (Request::Open(0), NOTHING, 0),
    (Request::Replace(TWO, ONE_ROW), NOTHING, 8_192 + 284),
    (
        Request::Commit(3),
        "3|1 a 0 5;1 a 1 7;2 b 0 3;|null a 0 true;|false b 0 0;",
        8_574,
    ),
    (
        Request::Replace(LATER, TWO_ROWS),
        "3|1 a 0 5;1 a 1 7;2 b 0 3;|null a 0 true;|false b 0 0;",
        8_828,
    ),
    (
        Request::RollBack,
        "3|1 a 0 5;1 a 1 7;2 b 0 3;|null a 0 true;|false b 0 0;",
        8_828,
    ),
    (
        Request::Commit(4),
        "4|1 a 0 5;1 a 1 7;2 b 0 3;|null a 0 true;|false b 0 0;",
        8_926,
    ),
    (
        Request::Replace(LATER, TWO_ROWS),
        "4|1 a 0 5;1 a 1 7;2 b 0 3;|null a 0 true;|false b 0 0;",
        9_180,
    ),
    (
        Request::Commit(7),
        r#"7|1 a 0 6;|null a 0 true;"k" c 0 null;|false c 0 1;true c 1 2;"#,
        9_278,
    ),
    (
        Request::Open(8),
        r#"7|1 a 0 6;|null a 0 true;"k" c 0 null;|false c 0 1;true c 1 2;"#,
        9_278,
    ),
    (
        Request::Open(7),
        r#"7|1 a 0 6;|null a 0 true;"k" c 0 null;|false c 0 1;true c 1 2;"#,
        9_278,
    ),
    (Request::Open(6), NOTHING, 0),
    (Request::Replace(TWO, ONE_ROW), NOTHING, 8_476),
    (
        Request::Commit(1),
        "1|1 a 0 5;1 a 1 7;2 b 0 3;|null a 0 true;|false b 0 0;",
        8_574,
    ),
    (Request::Remove, NOTHING, 0),
];

/// Exchanges that are refused: where a child doesn't answer, and where the reduce doesn't compile. The leaves of the views before it are
/// left behind, of 45 and 53 bytes. Then exchanges that ask no child: of a document that has rows in another view, whose leaves have 150
/// and 135 bytes, of one that never had a row, and of all, by which nothing is left. Commits at the same sequence and at a lower one.
pub const REFUSALS: &[Turn] = &[
    (Request::Open(0), NOTHING, 0),
    (Request::Replace(TWO, ONE_ROW), NOTHING, 8_476),
    (
        Request::Commit(3),
        "3|1 a 0 5;1 a 1 7;2 b 0 3;|null a 0 true;|false b 0 0;",
        8_574,
    ),
    (
        Request::Replace(LATER, &[]),
        "query server failed twice|3|1 a 0 5;1 a 1 7;2 b 0 3;|null a 0 true;|false b 0 0;",
        8_672,
    ),
    (
        Request::ReplaceByField(LATER),
        "a source doesn't compile|3|1 a 0 5;1 a 1 7;2 b 0 3;|null a 0 true;|false b 0 0;",
        8_770,
    ),
    (
        Request::RollBack,
        "3|1 a 0 5;1 a 1 7;2 b 0 3;|null a 0 true;|false b 0 0;",
        8_770,
    ),
    (
        Request::Commit(5),
        "5|1 a 0 5;1 a 1 7;2 b 0 3;|null a 0 true;|false b 0 0;",
        8_868,
    ),
    (
        Request::Replace(&[("c", ["[[3,4]]", "[]", "[]"])], &[]),
        "5|1 a 0 5;1 a 1 7;2 b 0 3;|null a 0 true;|false b 0 0;",
        9_153,
    ),
    (
        Request::Commit(6),
        "6|1 a 0 5;1 a 1 7;2 b 0 3;3 c 0 4;|null a 0 true;|false b 0 0;",
        9_251,
    ),
    (
        Request::Replace(&[("z", ["[]", "[]", "[]"])], &[]),
        "6|1 a 0 5;1 a 1 7;2 b 0 3;3 c 0 4;|null a 0 true;|false b 0 0;",
        9_251,
    ),
    (
        Request::Commit(6),
        "6|1 a 0 5;1 a 1 7;2 b 0 3;3 c 0 4;|null a 0 true;|false b 0 0;",
        9_349,
    ),
    (
        Request::Replace(
            &[
                ("c", ["[]", "[]", "[]"]),
                ("a", ["[]", "[]", "[]"]),
                ("b", ["[]", "[]", "[]"]),
            ],
            &[],
        ),
        "6|1 a 0 5;1 a 1 7;2 b 0 3;3 c 0 4;|null a 0 true;|false b 0 0;",
        9_349,
    ),
    (Request::Commit(2), "2|||", 9_447),
];

/// What an index shows after `REST`.
pub const REST_SHOWN: &str = "9|1 a 0 1;|0 b 0 0;|0 c 0 4;";

/// What is done with an index that a stop or a fault left: it is opened, and the rows of all documents of the script are exchanged.
pub const REST: &[Turn] = &[
    (Request::Open(u64::MAX), "", 0),
    (
        Request::Replace(
            &[
                ("a", ["[[1,1]]", "[]", "[]"]),
                ("b", ["[]", "[[0,0]]", "[]"]),
                ("c", ["[]", "[]", "[[0,4]]"]),
            ],
            ONE_ROW,
        ),
        "",
        0,
    ),
    (Request::Commit(9), REST_SHOWN, 0),
];
