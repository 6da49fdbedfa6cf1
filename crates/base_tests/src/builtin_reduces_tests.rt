//! Values of groups under the built-in reduces, worked out by hand from CouchDB's documentation: of whole groups, and joined
//! from those of parts. The bytes of items and of values, worked out by hand.

ghost use Rattle.std.specs.Prelude.{◌<◌};

use builtin_reduces::{BuiltinSum, BuiltinSummer, RowItem, join, leaf, print_builtin};
use design_docs::Builtin;
use json_terms::{Chars, Row, Term, read_term};
use std::alloc::Global;
use std::test::Fail;
use test_tools::{nested, same_text};
use tree_laws::{Item, Summer};

/// Rows with these values, which stand as an array of JSON.
fn rows_of(alloc: Global, values: &str) -> Result<Vec<Row>, Fail> {
    let Term::Array(terms) = read_term(alloc, values.as_bytes())? else {
        return Err(Fail::from("no array"));
    };
    let mut rows = Vec::new(alloc);
    for value in terms.into_vec() {
        let id = Chars::from_text(alloc, "d")?;
        rows.push(Row {
            key: Term::Null,
            id,
            place: 0,
            value,
        })?;
    }
    Ok(rows)
}

/// A value as it is printed behind `ab`.
fn printed(alloc: Global, sum: &BuiltinSum) -> Result<String, Fail> {
    let mut out = b"ab".to_vec(alloc)?;
    print_builtin(alloc, sum, &mut out)?;
    Ok(String::from_utf8(out)?)
}

/// The value of the rows as one group.
fn whole(alloc: Global, kind: Builtin, values: &str) -> Result<String, Fail> {
    let rows = rows_of(alloc, values)?;
    printed(alloc, &leaf(alloc, kind, &rows)?)
}

/// The value that is joined from those of parts of so many rows.
fn in_parts(alloc: Global, kind: Builtin, values: &str, size: usize) -> Result<String, Fail>
    requires { 0 < size }
{
    let rows = rows_of(alloc, values)?;
    let mut parts = Vec::new(alloc);
    for part in rows.chunks(size) {
        parts.push(leaf(alloc, kind, part)?)?;
    }
    printed(alloc, &join(alloc, kind, &parts)?)
}

/// Values of rows, and what is printed of them.
const SUMS: &[(&str, &str)] = &[
    ("[1,[2,3],[]]", "ab[3,3]"),
    ("[[]]", "ab[0]"),
    ("[[],[]]", "ab[0]"),
    ("[5,6]", "ab11"),
    ("[-7]", "ab-7"),
    ("[0]", "ab0"),
    ("[[4]]", "ab[4]"),
    ("[[1,2,3],[-1],[0,5],7]", "ab[7,7,3]"),
    ("[[1],[2,30,400],[],[5,6]]", "ab[8,36,400]"),
    ("[2,3,[10,20],4]", "ab[19,20]"),
    (
        "[9223372036854775807,9223372036854775807]",
        "ab18446744073709551614",
    ),
    (
        "[-9223372036854775808,-9223372036854775808,-9223372036854775808]",
        "ab-27670116110564327424",
    ),
    (
        "[9223372036854775807,[9223372036854775807,-9223372036854775808],[0,-9223372036854775808]]",
        "ab[18446744073709551614,-18446744073709551616]",
    ),
    ("[9223372036854775807,-9223372036854775808]", "ab-1"),
    (r#"["x",4]"#, REFUSED),
    (r#"[4,"x"]"#, REFUSED),
    ("[null]", REFUSED),
    ("[1,true]", REFUSED),
    ("[[1,null],2]", REFUSED),
    ("[[1],[[2]]]", REFUSED),
    ("[{}]", REFUSED),
    (r#"[[1,2],{"a":1},[3]]"#, REFUSED),
];

const REFUSED: &str = r#"ab{"error":"builtin_reduce_error"}"#;

const OVERFLOW: &str = r#"ab{"error":"builtin_reduce_overflow"}"#;

const COUNTS: &[(&str, &str)] = &[
    ("[1]", "ab1"),
    (r#"[null,"x",[1],{},true]"#, "ab5"),
    ("[1,1,1,1,1,1,1,1,1,1,1,1]", "ab12"),
];

const STATS: &[(&str, &str)] = &[
    (
        "[5]",
        r#"ab{"sum":5,"count":1,"min":5,"max":5,"sumsqr":25}"#,
    ),
    (
        "[3,-4,0,7]",
        r#"ab{"sum":6,"count":4,"min":-4,"max":7,"sumsqr":74}"#,
    ),
    (
        "[-2,-9,-3]",
        r#"ab{"sum":-14,"count":3,"min":-9,"max":-2,"sumsqr":94}"#,
    ),
    (
        "[9223372036854775807,-9223372036854775808]",
        r#"ab{"sum":-1,"count":2,"min":-9223372036854775808,"max":9223372036854775807,"sumsqr":170141183460469231713240559642174554113}"#,
    ),
    (
        "[-9223372036854775808,-9223372036854775808,-9223372036854775808]",
        r#"ab{"sum":-27670116110564327424,"count":3,"min":-9223372036854775808,"max":-9223372036854775808,"sumsqr":255211775190703847597530955573826158592}"#,
    ),
    (
        "[-9223372036854775808,-9223372036854775808,-9223372036854775808,-9223372036854775808]",
        OVERFLOW,
    ),
    (
        r#"[-9223372036854775808,-9223372036854775808,-9223372036854775808,-9223372036854775808,"x"]"#,
        REFUSED,
    ),
    (
        r#"["x",-9223372036854775808,-9223372036854775808,-9223372036854775808,-9223372036854775808]"#,
        REFUSED,
    ),
    (
        "[-9223372036854775808,-9223372036854775808,-9223372036854775808,-9223372036854775808,1]",
        OVERFLOW,
    ),
    ("[[1]]", REFUSED),
    ("[1,null]", REFUSED),
];

fn agree(alloc: Global, kind: Builtin, table: &[(&str, &str)]) -> Result<(), Fail> {
    for (values, want) in table {
        same_text(whole(alloc, kind, values), want, values)?;
        for size in 1..4 {
            same_text(in_parts(alloc, kind, values, size), want, values)?;
        }
    }
    Ok(())
}

#[test]
fn numbers_and_arrays_are_summed(rt: HostRuntime) -> Result<(), Fail> {
    agree(rt.alloc(), Builtin::Sum, SUMS)
}

#[test]
fn rows_are_counted(rt: HostRuntime) -> Result<(), Fail> {
    agree(rt.alloc(), Builtin::Count, COUNTS)
}

#[test]
fn stats_are_told_of_numbers(rt: HostRuntime) -> Result<(), Fail> {
    agree(rt.alloc(), Builtin::Stats, STATS)
}

/// The key, the id, the place and the value of a row, and its bytes as an item.
const ITEMS: &[(&str, &str, u32, &str, &[u8])] = &[
    (
        "1",
        "d",
        2,
        "null",
        b"\x01\x01\0\0\0\0\0\0\0\x01\0\0\0d\x02\0\0\0\x03",
    ),
    (
        "[\"a\"]",
        "",
        0,
        "{}",
        b"\x06\x01\0\0\0\x07\x01\0\0\0a\0\0\0\0\0\0\0\0\x05\0\0\0\0",
    ),
    (
        "null",
        "\u{e9}",
        4294967295,
        "true",
        b"\x03\x02\0\0\0\xc3\xa9\xff\xff\xff\xff\x04",
    ),
];

/// The bytes of no item.
const NO_ITEMS: &[&[u8]] = &[
    b"",
    b"\x01\x01\0\0\0\0\0\0\0\x01\0\0\0d\x02\0\0\0",
    b"\x01\x01\0\0\0\0\0\0\0\x01\0\0\0d\x02\0\0\0\x03\x03",
    b"\x09\x01\0\0\0\0\0\0\0\x01\0\0\0d\x02\0\0\0\x03",
    b"\x03\x01\0\0\0\xff\0\0\0\0\x03",
    b"\x03\x02\0\0\0d\0\0\0\0\x03",
    b"\x03\x01\0\0\0d\0\0\0\x03",
];

/// A reduce, values of rows, and the bytes of what it gives for them.
const SUM_BYTES: &[(Builtin, &str, &[u8])] = &[
    (
        Builtin::Count,
        "[null,1,\"x\"]",
        b"\0\x03\0\0\0\0\0\0\0\0\0\0\0\0\0\0\0",
    ),
    (
        Builtin::Sum,
        "[-3,2]",
        b"\x01\xff\xff\xff\xff\xff\xff\xff\xff\xff\xff\xff\xff\xff\xff\xff\xff",
    ),
    (
        Builtin::Sum,
        "[300,-42]",
        b"\x01\x02\x01\0\0\0\0\0\0\0\0\0\0\0\0\0\0",
    ),
    (
        Builtin::Sum,
        "[9223372036854775807,9223372036854775807]",
        b"\x01\xfe\xff\xff\xff\xff\xff\xff\xff\0\0\0\0\0\0\0\0",
    ),
    (
        Builtin::Sum,
        "[[1,5],[0,-6]]",
        b"\x02\x02\0\0\0\x01\0\0\0\0\0\0\0\0\0\0\0\0\0\0\0\xff\xff\xff\xff\xff\xff\xff\xff\xff\xff\xff\xff\xff\xff\xff\xff",
    ),
    (
        Builtin::Stats,
        "[3,-4]",
        b"\x03\xff\xff\xff\xff\xff\xff\xff\xff\xff\xff\xff\xff\xff\xff\xff\xff\x02\0\0\0\0\0\0\0\0\0\0\0\0\0\0\0\xfc\xff\xff\xff\xff\xff\xff\xff\xff\xff\xff\xff\xff\xff\xff\xff\x03\0\0\0\0\0\0\0\0\0\0\0\0\0\0\0\x19\0\0\0\0\0\0\0\0\0\0\0\0\0\0\0",
    ),
    (Builtin::Sum, "[1,null]", b"\x04"),
    (
        Builtin::Stats,
        "[-9223372036854775808,-9223372036854775808,-9223372036854775808,-9223372036854775808]",
        b"\x05",
    ),
];

/// A reduce, and the bytes of a value within its bounds: the shortest list, and the greatest sum of squares.
const FITTING: &[(Builtin, &[u8])] = &[
    (
        Builtin::Sum,
        b"\x02\x01\0\0\0\x05\0\0\0\0\0\0\0\0\0\0\0\0\0\0\0",
    ),
    (
        Builtin::Stats,
        b"\x03\xff\xff\xff\xff\xff\xff\xff\xff\xff\xff\xff\xff\xff\xff\xff\xff\x02\0\0\0\0\0\0\0\0\0\0\0\0\0\0\0\xfc\xff\xff\xff\xff\xff\xff\xff\xff\xff\xff\xff\xff\xff\xff\xff\x03\0\0\0\0\0\0\0\0\0\0\0\0\0\0\0\xfe\xff\xff\xff\xff\xff\xff\xff\xff\xff\xff\xff\xff\xff\xff\xff",
    ),
];

/// The bytes of no value.
const NO_SUMS: &[&[u8]] = &[
    b"",
    b"\x06",
    b"\x04\0",
    b"\x05\x04",
    b"\0\x03\0\0\0\0\0\0\0\0\0\0\0\0\0\0",
    b"\0\x03\0\0\0\0\0\0\0\0\0\0\0\0\0\0\0\0",
    b"\0\0\0\0\0\0\0\0\0\x01\0\0\0\0\0\0\0",
    b"\x01\x03\0\0\0\0\0\0\0\0\0\0\0\0\0\0",
    b"\x02\x02\0\0\0\x01\0\0\0\0\0\0\0\0\0\0\0\0\0\0\0",
    b"\x02\0\0\0\0",
    b"\x02\0\0\0\0\0",
    b"\x02\xff\xff\xff\xff\x01\0\0\0\0\0\0\0\0\0\0\0\0\0\0\0",
    b"\x03\xff\xff\xff\xff\xff\xff\xff\xff\xff\xff\xff\xff\xff\xff\xff\xff\x02\0\0\0\0\0\0\0\0\0\0\0\0\0\0\0\xff\xff\xff\xff\xff\xff\xff\x7f\xff\xff\xff\xff\xff\xff\xff\xff\x03\0\0\0\0\0\0\0\0\0\0\0\0\0\0\0\x19\0\0\0\0\0\0\0\0\0\0\0\0\0\0\0",
    b"\x03\xff\xff\xff\xff\xff\xff\xff\xff\xff\xff\xff\xff\xff\xff\xff\xff\x02\0\0\0\0\0\0\0\0\0\0\0\0\0\0\0\xfc\xff\xff\xff\xff\xff\xff\xff\xff\xff\xff\xff\xff\xff\xff\xff\0\0\0\0\0\0\0\x80\0\0\0\0\0\0\0\0\x19\0\0\0\0\0\0\0\0\0\0\0\0\0\0\0",
    b"\x03\xff\xff\xff\xff\xff\xff\xff\xff\xff\xff\xff\xff\xff\xff\xff\xff\xff\xff\xff\xff\xff\xff\xff\xff\xff\xff\xff\xff\xff\xff\xff\xff\xfc\xff\xff\xff\xff\xff\xff\xff\xff\xff\xff\xff\xff\xff\xff\xff\x03\0\0\0\0\0\0\0\0\0\0\0\0\0\0\0\x19\0\0\0\0\0\0\0\0\0\0\0\0\0\0\0",
    b"\x03\xff\xff\xff\xff\xff\xff\xff\xff\xff\xff\xff\xff\xff\xff\xff\xff\x02\0\0\0\0\0\0\0\0\0\0\0\0\0\0\0\xfc\xff\xff\xff\xff\xff\xff\xff\xff\xff\xff\xff\xff\xff\xff\xff\x03\0\0\0\0\0\0\0\0\0\0\0\0\0\0\0\x19\0\0\0\0\0\0\0\0\0\0\0\0\0\0",
    b"\x03\xff\xff\xff\xff\xff\xff\xff\xff\xff\xff\xff\xff\xff\xff\xff\xff\x02\0\0\0\0\0\0\0\0\0\0\0\0\0\0\0\xfc\xff\xff\xff\xff\xff\xff\xff\xff\xff\xff\xff\xff\xff\xff\xff\x03\0\0\0\0\0\0\0\0\0\0\0\0\0\0\0\xff\xff\xff\xff\xff\xff\xff\xff\xff\xff\xff\xff\xff\xff\xff\xff",
];

fn row_of(alloc: Global, key: &str, id: &str, place: u32, value: &str) -> Result<Row, Fail> {
    Ok(Row {
        key: read_term(alloc, key.as_bytes())?,
        id: Chars::from_text(alloc, id)?,
        place,
        value: read_term(alloc, value.as_bytes())?,
    })
}

fn item_of(alloc: Global, row: Row) -> Result<RowItem, Fail> {
    match RowItem::new(alloc, row)? {
        Some(item) => Ok(item),
        None => Err(Fail::from("out of bounds")),
    }
}

/// The bytes of a copy of the item, behind `ab`.
fn bytes_of<I: Item>(alloc: Global, item: &I) -> Result<Vec<u8>, Fail> {
    let mut out = b"ab".to_vec(alloc)?;
    item.copy_item(alloc)?.encode(alloc, &mut out)?;
    Ok(out)
}

/// Whether the bytes are those of an item, which has the same bytes.
fn is_item<I: Item>(alloc: Global, bytes: &[u8]) -> Result<bool, Fail> {
    match I::decode(alloc, bytes)? {
        Ok(item) => Ok(bytes_of(alloc, &item)?.ends_with(bytes)),
        Err(_) => Ok(false),
    }
}

#[test]
fn items_have_bytes(rt: HostRuntime) -> Result<(), Fail> {
    for (key, id, place, value, bytes) in ITEMS {
        let item = item_of(rt.alloc(), row_of(rt.alloc(), key, id, *place, value)?)?;
        let mut want = b"ab".to_vec(rt.alloc())?;
        want.extend_from_slice(bytes)?;
        assert!(rt; bytes_of(rt.alloc(), &item)? == want, "{key}");
        assert!(rt; is_item::<RowItem>(rt.alloc(), bytes)?, "{key}");
    }
    for bytes in NO_ITEMS {
        assert!(rt; !is_item::<RowItem>(rt.alloc(), bytes)?);
    }
    Ok(())
}

/// The key, the id, the place and the value of rows, in rising order; the value makes no difference.
const RISING: &[(&str, &str, u32, &str)] = &[
    ("1", "a", 0, "9"),
    ("1", "a", 1, "8"),
    ("1", "b", 0, "7"),
    ("2", "a", 0, "6"),
    ("[]", "a", 0, "5"),
];

#[test]
fn values_make_no_difference_to_the_order(rt: HostRuntime) -> Result<(), Fail> {
    let mut rows = Vec::new(rt.alloc());
    let mut others = Vec::new(rt.alloc());
    for (key, id, place, value) in RISING {
        rows.push(item_of(rt.alloc(), row_of(rt.alloc(), key, id, *place, value)?)?)?;
        others.push(item_of(rt.alloc(), row_of(rt.alloc(), key, id, *place, "7")?)?)?;
    }
    for (i, row) in rows.iter().enumerate() {
        for (k, other) in others.iter().enumerate() {
            assert_eq!(rt; row.cmp_item(other), i.cmp(&k));
        }
    }
    Ok(())
}

#[test]
fn rows_out_of_bounds_are_no_items(rt: HostRuntime) -> Result<(), Fail> {
    for (depth, kept) in [(96, true), (97, false)] {
        let deep = nested(rt.alloc(), depth, "[", "", "]")?;
        for (key, value) in [(deep.as_str(), "1"), ("1", deep.as_str())] {
            let row = row_of(rt.alloc(), key, "d", 0, value)?;
            assert_eq!(rt; RowItem::new(rt.alloc(), row)?.is_some(), kept);
        }
    }
    Ok(())
}

fn items_of(alloc: Global, values: &str) -> Result<Vec<RowItem>, Fail> {
    let mut items = Vec::new(alloc);
    for row in rows_of(alloc, values)? {
        items.push(item_of(alloc, row)?)?;
    }
    Ok(items)
}

/// The value of items, joined from those of two at a time.
fn joined<S: Summer>(summer: &mut S, alloc: Global, items: &[S::Unit]) -> Result<S::Sum, Fail> {
    let mut sums = Vec::new(alloc);
    for part in items.chunks(2) {
        let Ok(sum) = summer.leaf(alloc, part) else {
            return Err(Fail::from("no value"));
        };
        sums.push(sum)?;
    }
    match summer.join(alloc, &sums) {
        Ok(sum) => Ok(sum),
        Err(_) => Err(Fail::from("no value")),
    }
}

fn sum_bytes<S: Summer>(alloc: Global, summer: &S, sum: &S::Sum) -> Result<Vec<u8>, Fail> {
    let mut out = b"ab".to_vec(alloc)?;
    summer.encode_sum(alloc, sum, &mut out)?;
    Ok(out)
}

/// Whether the bytes are those of a value, which has the same bytes.
fn is_sum<S: Summer>(alloc: Global, summer: &S, bytes: &[u8]) -> Result<bool, Fail> {
    match summer.decode_sum(alloc, bytes)? {
        Ok(sum) => Ok(sum_bytes(alloc, summer, &sum)?.ends_with(bytes)),
        Err(_) => Ok(false),
    }
}

#[test]
fn values_have_bytes(rt: HostRuntime) -> Result<(), Fail> {
    for (kind, values, bytes) in SUM_BYTES {
        let mut summer = BuiltinSummer::new(*kind);
        let items = items_of(rt.alloc(), values)?;
        let sum = joined(&mut summer, rt.alloc(), &items)?;
        let mut want = b"ab".to_vec(rt.alloc())?;
        want.extend_from_slice(bytes)?;
        assert!(rt; sum_bytes(rt.alloc(), &summer, &sum)? == want, "{values}");
        assert!(rt; is_sum(rt.alloc(), &summer, bytes)?, "{values}");
    }
    for (kind, bytes) in FITTING {
        assert!(rt; is_sum(rt.alloc(), &BuiltinSummer::new(*kind), bytes)?);
    }
    for bytes in NO_SUMS {
        for kind in [Builtin::Count, Builtin::Sum, Builtin::Stats] {
            assert!(rt; !is_sum(rt.alloc(), &BuiltinSummer::new(kind), bytes)?);
        }
    }
    Ok(())
}
