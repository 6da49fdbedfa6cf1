//! Root records and items of the back-index in bytes, worked out by hand, and bytes that are none; places before ids; and
//! summaries of nothing.

use index_items::{
    BackItem, BackRow, BackRows, BeforeId, IndexRoot, NoSummary, back_indexes_are_one,
    entries_hold_all_rows, entries_hold_no_others, read_root, root_records_have_lengths,
    write_root,
};
use json_terms::{Chars, Term};
use std::alloc::Global;
use std::test::Fail;
use test_tools::{same_text, text_of};
use tree_laws::{Bound, Item, Summer, Tree};

/// Sequence 258, one view with 9 items below 300, and a back-index of 1 item at 7.
const ONE_VIEW: &[u8] = b"\x32\0\0\0\0\0\0\0\
    \x02\x01\0\0\0\0\0\0\x01\0\
    \x2c\x01\0\0\0\0\0\0\x02\0\0\0\x09\0\0\0\0\0\0\0\
    \x07\0\0\0\0\0\0\0\x01\0\0\0\x01\0\0\0\0\0\0\0";

/// Root records, how many views they have, the lowest offset where they may stand, and what they hold.
const ROOTS: &[(&[u8], u32, u64, &str)] = &[
    (
        b"\x1e\0\0\0\0\0\0\0\x03\0\0\0\0\0\0\0\0\0\
        \0\0\0\0\0\0\0\0\0\0\0\0\0\0\0\0\0\0\0\0",
        0,
        0,
        "3 | 0 0 0 |",
    ),
    (ONE_VIEW, 1, 72, "258 | 300 2 9 | 7 1 1 |"),
    (
        b"\x46\0\0\0\0\0\0\0\xff\xff\xff\xff\xff\xff\xff\xff\x02\0\
        \x05\0\0\0\0\0\0\0\0\0\0\0\0\0\0\0\0\0\0\0\
        \0\x01\0\0\0\0\0\0\x01\0\0\0\x01\0\0\0\0\0\0\0\
        \xff\xff\xff\xff\xff\xff\xff\xff\x0e\0\0\0\0\0\0\0\0\x01\0\0",
        2,
        8_796_093_022_208,
        "18446744073709551615 | 5 0 0 | 256 1 1 | 18446744073709551615 14 1099511627776 |",
    ),
];

/// Bytes that are no root record of no views, whatever the offset: less than a length; a length of 0 with nothing behind it; a
/// record without its length; one whose length is less by 1, greater by 1, that of all bytes, and 0; of 1 view; cut short, and
/// going on behind the tree; a tree of height 0 with 1 item, one of height 1 with none, one of height 2 with 7, one of height 1
/// with more than 2^40, and one of height 15 with 2^40.
const NO_ROOTS: &[&[u8]] = &[
    b"",
    b"\x1e\0\0\0\0\0\0",
    b"\0\0\0\0\0\0\0\0",
    b"\x03\0\0\0\0\0\0\0\0\0\0\0\0\0\0\0\0\0\0\0\0\0\0\0\0\0\0\0\0\0",
    b"\x1d\0\0\0\0\0\0\0\x03\0\0\0\0\0\0\0\0\0\0\0\0\0\0\0\0\0\0\0\0\0\0\0\0\0\0\0\0\0",
    b"\x1f\0\0\0\0\0\0\0\x03\0\0\0\0\0\0\0\0\0\0\0\0\0\0\0\0\0\0\0\0\0\0\0\0\0\0\0\0\0",
    b"\x26\0\0\0\0\0\0\0\x03\0\0\0\0\0\0\0\0\0\0\0\0\0\0\0\0\0\0\0\0\0\0\0\0\0\0\0\0\0",
    b"\0\0\0\0\0\0\0\0\x03\0\0\0\0\0\0\0\0\0\0\0\0\0\0\0\0\0\0\0\0\0\0\0\0\0\0\0\0\0",
    b"\x1e\0\0\0\0\0\0\0\x03\0\0\0\0\0\0\0\x01\0\0\0\0\0\0\0\0\0\0\0\0\0\0\0\0\0\0\0\0\0",
    b"\x1d\0\0\0\0\0\0\0\x03\0\0\0\0\0\0\0\0\0\0\0\0\0\0\0\0\0\0\0\0\0\0\0\0\0\0\0\0",
    b"\x1f\0\0\0\0\0\0\0\x03\0\0\0\0\0\0\0\0\0\0\0\0\0\0\0\0\0\0\0\0\0\0\0\0\0\0\0\0\0\0",
    b"\x1e\0\0\0\0\0\0\0\x03\0\0\0\0\0\0\0\0\0\0\0\0\0\0\0\0\0\0\0\0\0\x01\0\0\0\0\0\0\0",
    b"\x1e\0\0\0\0\0\0\0\x03\0\0\0\0\0\0\0\0\0\0\0\0\0\0\0\0\0\x01\0\0\0\0\0\0\0\0\0\0\0",
    b"\x1e\0\0\0\0\0\0\0\x03\0\0\0\0\0\0\0\0\0\0\0\0\0\0\0\0\0\x02\0\0\0\x07\0\0\0\0\0\0\0",
    b"\x1e\0\0\0\0\0\0\0\x03\0\0\0\0\0\0\0\0\0\0\0\0\0\0\0\0\0\x01\0\0\0\x01\0\0\0\0\x01\0\0",
    b"\x1e\0\0\0\0\0\0\0\x03\0\0\0\0\0\0\0\0\0\0\0\0\0\0\0\0\0\x0f\0\0\0\0\0\0\0\0\x01\0\0",
];

fn tree_text(alloc: Global, tree: Tree) -> Result<String, Fail> {
    let Tree {
        root,
        height,
        count,
    } = tree;
    Ok(format!(in alloc; " {root} {height} {count} |")?)
}

/// The sequence, the tree of each view, and the tree of the back-index.
fn root_text(alloc: Global, root: &IndexRoot) -> Result<String, Fail> {
    let seq = root.seq;
    let mut text = format!(in alloc; "{seq} |")?;
    for tree in &root.views {
        text.push_str(&tree_text(alloc, *tree)?)?;
    }
    text.push_str(&tree_text(alloc, root.back)?)?;
    Ok(text)
}

fn text_read(alloc: Global, bytes: &[u8], views: u32, offset: u64) -> Result<String, Fail> {
    match read_root(alloc, bytes, views, offset)? {
        Some(root) => root_text(alloc, &root),
        None => Err(Fail::from("no root record")),
    }
}

/// Whether what the bytes hold is written as these bytes; none where they are no root record.
fn is_written_again(
    alloc: Global,
    bytes: &[u8],
    views: u32,
    offset: u64,
) -> Result<Option<bool>, Fail> {
    let Some(root) = read_root(alloc, bytes, views, offset)? else {
        return Ok(None);
    };
    if root.views.len() > 65_535 {
        return Err(Fail::from("too many views"));
    }
    let mut out = b"ab".to_vec(alloc)?;
    write_root(alloc, root.seq, &root.views, root.back, &mut out)?;
    Ok(Some(out.strip_prefix(b"ab") == Some(bytes)))
}

#[test]
fn root_records_are_read_and_written_again(rt: HostRuntime) -> Result<(), Fail> {
    root_records_have_lengths();
    let alloc = rt.alloc();
    for (bytes, views, offset, text) in ROOTS {
        assert_eq!(rt; bytes.len(), 38 + 20 * *views as usize, "{text}");
        same_text(text_read(alloc, bytes, *views, *offset), text, text)?;
        assert_eq!(rt;
            is_written_again(alloc, bytes, *views, *offset)?,
            Some(true),
            "{text}"
        );
    }
    Ok(())
}

#[test]
fn other_bytes_are_no_root_record(rt: HostRuntime) -> Result<(), Fail> {
    let alloc = rt.alloc();
    for (at, bytes) in NO_ROOTS.iter().enumerate() {
        assert_eq!(rt; is_written_again(alloc, bytes, 0, u64::MAX)?, None, "{at}");
    }
    for (bytes, views, offset, text) in ROOTS {
        for other in [0, 1, 2, 3, 65_536, 65_537, 65_538] {
            if other != *views {
                assert_eq!(rt;
                    is_written_again(alloc, bytes, other, *offset)?,
                    None,
                    "{text}"
                );
            }
        }
        if *offset > 0 {
            assert_eq!(rt;
                is_written_again(alloc, bytes, *views, *offset - 1)?,
                None,
                "{text}"
            );
        }
    }
    Ok(())
}

#[test]
fn no_part_of_a_root_record_is_one(rt: HostRuntime) -> Result<(), Fail> {
    let alloc = rt.alloc();
    for end in 0..ONE_VIEW.len() {
        assert_eq!(rt;
            is_written_again(alloc, &ONE_VIEW[..end], 1, 1000)?,
            None,
            "{end}"
        );
    }
    let mut longer = ONE_VIEW.to_vec(alloc)?;
    longer.push(0)?;
    assert_eq!(rt; is_written_again(alloc, &longer, 1, 1000)?, None);
    Ok(())
}

/// The bytes with another in the place of one of them.
fn altered(alloc: Global, bytes: &[u8], index: usize) -> Result<Vec<u8>, Fail> {
    let mut altered = bytes.to_vec(alloc)?;
    if index >= altered.len() {
        return Err(Fail::from("no such byte"));
    }
    altered[index] ^= 1;
    Ok(altered)
}

/// Another byte of the sequence and of the places of the roots make another root record, and 8 items in place of 9; no other byte
/// does.
#[test]
fn an_altered_root_record_is_none_or_another(rt: HostRuntime) -> Result<(), Fail> {
    let alloc = rt.alloc();
    let mut changed = Vec::new(alloc);
    for index in 0..ONE_VIEW.len() {
        let bytes = altered(alloc, ONE_VIEW, index)?;
        match is_written_again(alloc, &bytes, 1, 1000)? {
            Some(again) => {
                assert!(rt; again, "{index}");
                changed.push(index)?;
            }
            None => {}
        }
    }
    assert_eq!(rt;
        changed.as_slice(),
        [
            8, 9, 10, 11, 12, 13, 14, 15, 18, 19, 20, 21, 22, 23, 24, 25, 30, 38, 39, 40, 41, 42,
            43, 44, 45
        ]
        .as_slice()
    );
    Ok(())
}

/// The document `ab` with the rows `null` at place 0 of view 0, and `"x"` at place 5 of view 258.
const TWO_ROWS: &[u8] = b"\x02\0\0\0ab\x02\0\0\0\
    \0\0\x03\0\0\0\0\
    \x02\x01\x07\x01\0\0\0x\x05\0\0\0";

/// Items of the back-index in bytes, and what they hold.
const ITEMS: &[(&[u8], &str)] = &[
    (TWO_ROWS, "ab: 0 null 0, 258 \"x\" 5,"),
    (b"\0\0\0\0\0\0\0\0", ":"),
    (
        b"\x02\0\0\0\xc3\xa9\x01\0\0\0\xff\xff\x06\x01\0\0\0\x04\xff\xff\xff\xff",
        "\u{e9}: 65535 [true] 4294967295,",
    ),
];

/// Bytes that are no item: without a number of rows; of a text that is no UTF-8, and of one longer than all that is left; with
/// fewer rows than they say, and with more; with a key that is no term; and without a place.
const NO_ITEMS: &[&[u8]] = &[
    b"",
    b"\0\0\0\0",
    b"\x01\0\0\0\xff\0\0\0\0",
    b"\x05\0\0\0a\0\0\0\0",
    b"\0\0\0\0\x01\0\0\0",
    b"\0\0\0\0\xff\xff\xff\xff\0\0\x03\0\0\0\0",
    b"\0\0\0\0\0\0\0\0\0\0\x03\0\0\0\0",
    b"\0\0\0\0\x01\0\0\0\0\0\x09\0\0\0\0",
    b"\0\0\0\0\x01\0\0\0\0\0\x03\0\0\0",
];

fn item_text(alloc: Global, item: &BackItem) -> Result<String, Fail> {
    let id = item.id.as_str();
    let mut text = format!(in alloc; "{id}:")?;
    for row in item.rows.as_slice() {
        let key = text_of(alloc, &row.key)?;
        text.push_str(&format!(in alloc; " {} {key} {},", row.view, row.place)?)?;
    }
    Ok(text)
}

fn bytes_of(alloc: Global, item: &BackItem) -> Result<Vec<u8>, Fail> {
    let mut out = Vec::new(alloc);
    item.encode(alloc, &mut out)?;
    Ok(out)
}

/// What the bytes hold, if a copy of it has these bytes; none where they are no item.
fn item_read(alloc: Global, bytes: &[u8]) -> Result<Option<String>, Fail> {
    let Ok(item) = BackItem::decode(alloc, bytes)? else {
        return Ok(None);
    };
    let copy = item.copy_item(alloc)?;
    if bytes_of(alloc, &copy)?.as_slice() != bytes {
        return Err(Fail::from("other bytes"));
    }
    Ok(Some(item_text(alloc, &item)?))
}

fn text_held(alloc: Global, bytes: &[u8]) -> Result<String, Fail> {
    match item_read(alloc, bytes)? {
        Some(text) => Ok(text),
        None => Err(Fail::from("no item")),
    }
}

#[test]
fn items_have_bytes(rt: HostRuntime) -> Result<(), Fail> {
    let alloc = rt.alloc();
    for (bytes, text) in ITEMS {
        same_text(text_held(alloc, bytes), text, text)?;
    }
    for (at, bytes) in NO_ITEMS.iter().enumerate() {
        assert!(rt; item_read(alloc, bytes)?.is_none(), "{at}");
    }
    for end in 0..TWO_ROWS.len() {
        assert!(rt; item_read(alloc, &TWO_ROWS[..end])?.is_none(), "{end}");
    }
    let mut longer = TWO_ROWS.to_vec(alloc)?;
    longer.push(0)?;
    assert!(rt; item_read(alloc, &longer)?.is_none());
    Ok(())
}

/// The item of a document with the row `null` at this place of view 3.
fn item_of(alloc: Global, id: Chars, place: u32) -> Result<Option<BackItem>, Fail> {
    let mut rows = Vec::new(alloc);
    rows.push(BackRow {
        view: 3,
        key: Term::Null,
        place,
    })?;
    Ok(BackItem::new(alloc, id, BackRows::from_vec(rows))?)
}

fn short_item(alloc: Global, id: &str, place: u32) -> Result<BackItem, Fail> {
    match item_of(alloc, Chars::from_text(alloc, id)?, place)? {
        Some(item) => Ok(item),
        None => Err(Fail::from("out of bounds")),
    }
}

#[test]
fn ids_have_a_greatest_length(rt: HostRuntime) -> Result<(), Fail> {
    let alloc = rt.alloc();
    let mut id = String::from_str(alloc, "x")?;
    for _ in 0..19 {
        let more = id.clone()?;
        id.push_str(&more)?;
    }
    assert_eq!(rt; id.len(), 524_288);
    let longest = Chars::from_text(alloc, &id)?;
    id.push('x')?;
    assert!(rt; item_of(alloc, longest, 0)?.is_some());
    assert!(rt; item_of(alloc, Chars::new(id), 0)?.is_none());
    Ok(())
}

/// Two ids, and whether the place before the first has the item of the second before it.
const PLACES: &[(&str, &str, bool)] = &[
    ("b", "a", true),
    ("b", "b", false),
    ("b", "c", false),
    ("b", "", true),
    ("", "", false),
    ("", "a", false),
    ("b", "ba", false),
    ("ba", "b", true),
    ("b", "aaaa", true),
    ("b", "B", true),
    ("\u{e9}", "z", true),
    ("z", "\u{e9}", false),
];

fn is_before<B: Bound<Unit = BackItem>>(place: &B, item: &BackItem) -> bool {
    place.before(item)
}

#[test]
fn items_stand_before_ids(rt: HostRuntime) -> Result<(), Fail> {
    let alloc = rt.alloc();
    for (id, other, want) in PLACES {
        let item = short_item(alloc, other, 0)?;
        assert_eq!(rt; is_before(&BeforeId::new(id), &item), *want, "{id} {other}");
        let here = short_item(alloc, id, 0)?;
        assert_eq!(rt; item.cmp_item(&here).is_lt(), *want, "{id} {other}");
        let elsewhere = short_item(alloc, id, 1)?;
        assert!(rt; here.cmp_item(&elsewhere).is_eq(), "{id}");
    }
    Ok(())
}

#[test]
fn summaries_of_nothing_have_no_bytes(rt: HostRuntime) -> Result<(), Fail> {
    let alloc = rt.alloc();
    let mut summer = NoSummary::<BackItem>::new();
    summer.leaf(alloc, &[])?;
    summer.join(alloc, &[(), ()])?;
    let mut out = b"ab".to_vec(alloc)?;
    summer.encode_sum(alloc, &(), &mut out)?;
    assert!(rt; out.as_slice() == b"ab".as_slice());
    assert!(rt; summer.decode_sum(alloc, b"")?.is_ok());
    assert!(rt; summer.decode_sum(alloc, b"\0")?.is_err());
    Ok(())
}

#[test]
fn laws_hold_of_back_indexes(_rt: HostRuntime) -> Result<(), Fail> {
    back_indexes_are_one();
    entries_hold_all_rows();
    entries_hold_no_others();
    Ok(())
}
