//! A script of writes and updates, and what an index shows behind each write.

use crate::benches::{Bench, Doc};
use doc_file::{DocFault, Rev};
use std::alloc::Global;

/// A document's id, its other members, the generation and the number of the write that it is put over, and what an index shows
/// that is updated behind it.
type Write = (&'static str, &'static str, (u64, u64), &'static str);

const NEW: (u64, u64) = (0, 0);

const WRITES: [Write; 11] = [
    ("x", r#","a":1,"b":2"#, NEW, "1[1 x 0;][2 x 0;]"),
    ("y", r#","a":3"#, NEW, "2[1 x 0;3 y 0;][2 x 0;]"),
    ("z", r#","b":4"#, NEW, "3[1 x 0;3 y 0;][2 x 0;4 z 0;]"),
    ("y", "", (1, 2), "4[1 x 0;][2 x 0;4 z 0;]"),
    ("z", r#","_deleted":true"#, (1, 3), "5[1 x 0;][2 x 0;]"),
    ("x", r#","a":9,"b":0"#, (1, 1), "6[9 x 0;][0 x 0;]"),
    (
        "_design/d",
        r#","a":5,"language":"field","views":{}"#,
        NEW,
        "7[9 x 0;][0 x 0;]",
    ),
    ("w", r#","a":5"#, NEW, "8[5 w 0;9 x 0;][0 x 0;]"),
    (
        "y",
        r#","a":"s","b":0"#,
        (2, 4),
        "9[5 w 0;9 x 0;\"s\" y 0;][0 x 0;0 y 0;]",
    ),
    (
        "w",
        r#","_deleted":true"#,
        (1, 8),
        "10[9 x 0;\"s\" y 0;][0 x 0;0 y 0;]",
    ),
    ("y", r#","a":null"#, (3, 9), "11[9 x 0;null y 0;][0 x 0;]"),
];

/// How many of the writes come before each update.
pub const TURNS: [usize; 7] = [3, 0, 1, 1, 1, 1, 4];

fn doc_of(write: &Write) -> Doc<'static> {
    let &(id, members, (generation, seq), _shown) = write;
    let over = if seq == 0 {
        None
    } else {
        Some(Rev { generation, seq })
    };
    Doc { id, members, over }
}

/// What an index shows behind so many writes.
pub fn shown_behind(count: usize) -> &'static str {
    match WRITES.get(count.saturating_sub(1)) {
        Some(write) if count > 0 => write.3,
        _ => "0[][]",
    }
}

/// What an index shows that was updated in each of so many turns.
pub fn shown_after(turns: usize) -> &'static str {
    let mut writes = 0_usize;
    for count in TURNS.iter().take(turns) {
        writes = writes.saturating_add(*count);
    }
    shown_behind(writes)
}

/// Puts the next writes behind so many.
pub fn put_next(
    alloc: Global,
    bench: &mut Bench,
    before: usize,
    count: usize,
) -> Result<(), DocFault> {
    for write in WRITES.iter().skip(before).take(count) {
        bench.put(alloc, &doc_of(write))?;
    }
    Ok(())
}
