//! The order of terms and of rows, worked out by hand from CouchDB's documentation and from this project's order of
//! the members of objects.

use json_terms::{Chars, Row, Term, read_term};
use raw_collation::{Level, group_key, raw_cmp, row_cmp, same_group, sort_rows};
use std::alloc::Global;
use std::test::Fail;

/// Terms in rising order. Of the texts by bytes the last but one comes before the last, and by UTF-16 units behind it.
const RISING: &str = r#"[
    -9223372036854775808, -256, -2, -1, 0, 1, 2, 10, 255, 256, 9223372036854775807, false, null, true,
    {}, {"": "z"}, {"a": -1}, {"a": 1}, {"a": 1, "b": 0}, {"a": 1, "b": null}, {"a": 2}, {"a": true},
    {"a": {"b": 1}}, {"a": []}, {"aa": -5}, {"b": -5}, {"é": -5},
    [], [-1, true], [1], [1, 0], [1, 0, false], [1, 2], [null], [{}], [[]], [[1]], [[1], 7], [[1, 5]], [""],
    "", "1", "A", "Z", "a", "a\u0000", "aa", "ab", "b", "z", "é", "中", "\uffff", "😀"
]"#;

/// The first two terms whose order isn't that of their places.
fn misplaced_terms(terms: &[Term]) -> Option<(usize, usize)> {
    for i in 0..terms.len() {
        for j in 0..terms.len() {
            if raw_cmp(&terms[i], &terms[j]) != i.cmp(&j) {
                return Some((i, j));
            }
        }
    }
    None
}

#[test]
fn each_two_terms_compare_by_their_places(rt: HostRuntime) -> Result<(), Fail> {
    let Term::Array(terms) = read_term(rt.alloc(), RISING.as_bytes())? else {
        return Err(Fail::from("no array"));
    };
    assert_eq!(rt; terms.len(), 54);
    assert_eq!(rt; misplaced_terms(terms.as_slice()), None);
    Ok(())
}

/// Rows in rising order: key, id, place, and their number from 0 on, which is their value.
const ROWS: &[(&str, &str, u32, i64)] = &[
    ("-1", "z", 7, 0),
    ("0", "doc-10", 5, 1),
    ("0", "doc-9", 0, 2),
    ("0", "doc-9", 2, 3),
    ("0", "doc-9", 10, 4),
    ("0", "doc-9", 10, 5),
    ("1", "same", 0, 6),
    ("false", "", 0, 7),
    ("null", "same", 0, 8),
    ("true", "same", 0, 9),
    ("{}", "same", 0, 10),
    ("{\"a\":1}", "same", 0, 11),
    ("[]", "same", 0, 12),
    ("[1]", "same", 0, 13),
    ("[1,0]", "same", 0, 14),
    ("\"\"", "same", 0, 15),
    ("\"a\"", "same", 0, 16),
];

fn rising_rows(alloc: Global) -> Result<Vec<Row>, Fail> {
    let mut rows = Vec::with_capacity(alloc, ROWS.len())?;
    for (key, id, place, value) in ROWS {
        let id = Chars::from_text(alloc, id)?;
        let key = read_term(alloc, key.as_bytes())?;
        rows.push(Row {
            key,
            id,
            place: *place,
            value: Term::Int(*value),
        })?;
    }
    Ok(rows)
}

/// The first two rows whose order isn't that of their places.
fn misplaced_rows(rows: &[Row]) -> Option<(usize, usize)> {
    for i in 0..rows.len() {
        for j in 0..rows.len() {
            if row_cmp(&rows[i], &rows[j]) != i.cmp(&j) {
                return Some((i, j));
            }
        }
    }
    None
}

/// Whether the values of the rows are 0, 1, 2 and so on.
fn values_count_up(rows: &[Row]) -> bool {
    rows.iter().enumerate().all(|(i, row)| match row.value {
        Term::Int(n) => u64::try_from(n) == Ok(i as u64),
        _ => false,
    })
}

#[test]
fn rows_go_by_key_then_id_then_place_then_value(rt: HostRuntime) -> Result<(), Fail> {
    let mut rows = rising_rows(rt.alloc())?;
    assert_eq!(rt; misplaced_rows(&rows), None);
    rows.reverse();
    sort_rows(&mut rows);
    assert!(rt; rows.len() == 17 && values_count_up(&rows));
    Ok(())
}

/// Keys, and their group keys at the levels 1, 2 and 5. At level 0 each has `null`, and by the whole key each has itself.
const GROUPS: &[(&str, &str, &str, &str)] = &[
    ("1", "1", "1", "1"),
    ("null", "null", "null", "null"),
    ("true", "true", "true", "true"),
    (
        "{\"a\":[1,2]}",
        "{\"a\":[1,2]}",
        "{\"a\":[1,2]}",
        "{\"a\":[1,2]}",
    ),
    ("[]", "[]", "[]", "[]"),
    ("[1]", "[1]", "[1]", "[1]"),
    ("[1,2]", "[1]", "[1,2]", "[1,2]"),
    ("[1,2,3,4,5,6]", "[1]", "[1,2]", "[1,2,3,4,5]"),
    ("[1,2,3,4,5,7]", "[1]", "[1,2]", "[1,2,3,4,5]"),
    (
        "[[1,2],[3,4],5]",
        "[[1,2]]",
        "[[1,2],[3,4]]",
        "[[1,2],[3,4],5]",
    ),
    (
        "[{\"a\":[1,2]},null,[]]",
        "[{\"a\":[1,2]}]",
        "[{\"a\":[1,2]},null]",
        "[{\"a\":[1,2]},null,[]]",
    ),
    ("[[[1]]]", "[[[1]]]", "[[[1]]]", "[[[1]]]"),
    ("\"ab\"", "\"ab\"", "\"ab\"", "\"ab\""),
];

/// The group key of a key of the table at a level.
fn expected(
    alloc: Global,
    row: &(&'static str, &'static str, &'static str, &'static str),
    level: Level,
) -> Result<Term, Fail> {
    let text = match level {
        Level::All => "null",
        Level::First(1) => row.1,
        Level::First(2) => row.2,
        Level::First(_) => row.3,
        Level::Whole => row.0,
    };
    Ok(read_term(alloc, text.as_bytes())?)
}

/// The first key of the table that has another group key at this level, or is of one group with a key that it isn't of one with.
fn misgrouped(alloc: Global, level: Level) -> Result<Option<&'static str>, Fail> {
    for row in GROUPS {
        let key = read_term(alloc, row.0.as_bytes())?;
        let group = expected(alloc, row, level)?;
        if raw_cmp(&group_key(alloc, level, &key)?, &group).is_ne() {
            return Ok(Some(row.0));
        }
        for other in GROUPS {
            let one_group = raw_cmp(&group, &expected(alloc, other, level)?).is_eq();
            if same_group(level, &key, &read_term(alloc, other.0.as_bytes())?) != one_group {
                return Ok(Some(row.0));
            }
        }
    }
    Ok(None)
}

#[test]
fn keys_are_grouped_by_their_first_elements(rt: HostRuntime) -> Result<(), Fail> {
    for level in [
        Level::All,
        Level::First(1),
        Level::First(2),
        Level::First(5),
        Level::Whole,
    ] {
        assert_eq!(rt; misgrouped(rt.alloc(), level)?, None);
    }
    Ok(())
}
