//! Terms read from texts, written, looked into and copied.

use json_terms::{
    Chars, Members, NoMemory, Term, TermFault, Terms, copy_term, depth_within, member, read_term,
    text_is_line, write_term, write_text,
};
use std::alloc::Global;
use std::test::Fail;
use test_tools::{nested, same_text, text_of};

/// What the text is read as, copied and written again, or why it is no term.
fn read(alloc: Global, text: &[u8]) -> Result<String, Fail> {
    match read_term(alloc, text) {
        Ok(term) => text_of(alloc, &copy_term(alloc, &term)?),
        Err(fault) => Ok(format!(in alloc; "{fault}")?),
    }
}

/// Texts, and what they are read as and written again, or why they are no term.
const TEXTS: &[(&[u8], &str)] = &[
    (b"0", "0"),
    (b" 9223372036854775807\n", "9223372036854775807"),
    (b"-9223372036854775808", "-9223372036854775808"),
    (b"[true, false ,null,[],{}]", "[true,false,null,[],{}]"),
    (
        b"{\"b\":1,\"\":\"\",\"a\":{\"B\":-1}}",
        "{\"\":\"\",\"a\":{\"B\":-1},\"b\":1}",
    ),
    (b"{\"a\":1,\"b\":2,\"a\":3}", "{\"a\":3,\"b\":2}"),
    (b"{\"a\":1.5,\"a\":1}", "{\"a\":1}"),
    (
        b"\"\\u0000\\u001f\\n\\t\\/\\\\\\\"\x7f\"",
        "\"\\u0000\\u001f\\n\\t/\\\\\\\"\u{7f}\"",
    ),
    (b"\"\\u00e9\\ud83d\\ude00\"", "\"\u{e9}\u{1f600}\""),
    (b"", "not JSON"),
    (b"1 2", "not JSON"),
    (b"[1,]", "not JSON"),
    (b"[1.5", "not JSON"),
    (b"01", "not JSON"),
    (b"1e400", "not JSON"),
    (b"\"\\ud800\"", "not JSON"),
    (b"\"\xff\"", "not JSON"),
    (b"\xef\xbb\xbf1", "not JSON"),
    (b"\"\x00\"", "not JSON"),
    (b"\"\n\"", "not JSON"),
    (b"-0", "number is not whole"),
    (b"1e2", "number is not whole"),
    (b"1.0", "number is not whole"),
    (b"{\"a\":[1.5]}", "number is not whole"),
    (b"9223372036854775808", "number is not whole"),
    (b"-9223372036854775809", "number is not whole"),
    (b"18446744073709551616", "number is not whole"),
];

#[test]
fn texts_are_read_and_written(rt: HostRuntime) -> Result<(), Fail> {
    text_is_line(&Term::Null);
    for (text, want) in TEXTS {
        same_text(read(rt.alloc(), text), want, want)?;
    }
    Ok(())
}

/// Why a text within brackets is no term.
fn fault_of(alloc: Global, depth: usize, texts: &[&str; 3]) -> Result<Option<TermFault>, NoMemory> {
    let text = nested(alloc, depth, texts[0], texts[1], texts[2])?;
    Ok(read_term(alloc, text.as_bytes()).err())
}

/// Brackets around a text, and why it is no term.
const NESTED: &[(usize, [&str; 3], Option<TermFault>)] = &[
    (99, ["[", "[]", "]"], None),
    (100, ["[", "7", "]"], None),
    (100, ["[", "[]", "]"], Some(TermFault::TooDeep)),
    (101, ["[", "7", "]"], Some(TermFault::TooDeep)),
    (101, ["[", "1.5", "]"], Some(TermFault::NotWhole)),
    (127, ["[", "", "]"], Some(TermFault::TooDeep)),
    (128, ["[", "", "]"], Some(TermFault::NotJson)),
    (10_000, ["[", "", "]"], Some(TermFault::NotJson)),
    (100, ["{\"a\":", "7", "}"], None),
    (101, ["{\"a\":", "7", "}"], Some(TermFault::TooDeep)),
];

#[test]
fn nesting_is_bounded(rt: HostRuntime) -> Result<(), Fail> {
    for (depth, texts, want) in NESTED {
        assert!(rt; fault_of(rt.alloc(), *depth, texts)? == *want, "{depth}");
    }
    Ok(())
}

/// The value of a member, or nothing.
fn member_of(alloc: Global, text: &str, name: &str) -> Result<String, Fail> {
    let term = read_term(alloc, text.as_bytes())?;
    match member(&term, name) {
        Some(value) => text_of(alloc, value),
        None => Ok(String::new(alloc)),
    }
}

/// Texts, names, and the members of these names.
const MEMBERS: &[(&str, &str, &str)] = &[
    ("{\"b\":[1,{\"c\":\"x\"}],\"\":null,\"a\":2}", "", "null"),
    ("{\"b\":[1,{\"c\":\"x\"}],\"\":null,\"a\":2}", "a", "2"),
    (
        "{\"b\":[1,{\"c\":\"x\"}],\"\":null,\"a\":2}",
        "b",
        "[1,{\"c\":\"x\"}]",
    ),
    ("{\"b\":[1,{\"c\":\"x\"}],\"\":null,\"a\":2}", "c", ""),
    ("{\"b\":[1,{\"c\":\"x\"}],\"\":null,\"a\":2}", "A", ""),
    ("[\"a\"]", "a", ""),
];

#[test]
fn members_are_found(rt: HostRuntime) -> Result<(), Fail> {
    for (text, name, want) in MEMBERS {
        same_text(member_of(rt.alloc(), text, name), want, name)?;
    }
    Ok(())
}

#[test]
fn depths_are_told(rt: HostRuntime) -> Result<(), Fail> {
    let term = read_term(rt.alloc(), b"{\"b\":[1,{\"c\":\"x\"}],\"a\":2}")?;
    for (limit, want) in [(0, false), (2, false), (3, true), (u32::MAX, true)] {
        assert!(rt; depth_within(&term, limit) == want);
    }
    Ok(())
}

/// An object whose names don't come in order, and one of them twice.
fn inserted(alloc: Global) -> Result<Members, NoMemory> {
    let mut members = Members::new(alloc);
    for (name, value) in [("b", 1), ("a", 2), ("c", 3), ("b", 4), ("", 5)] {
        members.insert(Chars::from_text(alloc, name)?, Term::Int(value))?;
    }
    Ok(members)
}

/// An object of one member, whose value is its name.
fn of_one(alloc: Global, name: &str) -> Result<Members, NoMemory> {
    let mut members = Members::with_capacity(alloc, 1)?;
    let name = Chars::new(String::from_str(alloc, name)?);
    members.push(name.copy(alloc)?, Term::Text(name))?;
    Ok(members)
}

fn two_objects(alloc: Global) -> Result<Terms, NoMemory> {
    let mut terms = Terms::with_capacity(alloc, 2)?;
    terms.push(Term::Object(inserted(alloc)?))?;
    terms.push(Term::Object(of_one(alloc, "only")?))?;
    Ok(terms)
}

/// Two texts around a term, each behind what was there.
fn appended(alloc: Global) -> Result<Vec<u8>, NoMemory> {
    let mut out = Vec::new(alloc);
    write_text(alloc, "a\"\n", &mut out)?;
    write_term(alloc, &Term::True, &mut out)?;
    write_text(alloc, "", &mut out)?;
    Ok(out)
}

/// The text of an array of objects.
fn built(alloc: Global) -> Result<String, Fail> {
    text_of(alloc, &Term::Array(two_objects(alloc)?))
}

#[test]
fn objects_and_arrays_are_built(rt: HostRuntime) -> Result<(), Fail> {
    assert!(rt; Members::new(rt.alloc()).is_empty() && Terms::new(rt.alloc()).is_empty());
    assert_eq!(rt;
        built(rt.alloc())?.as_str(),
        "[{\"\":5,\"a\":2,\"b\":4,\"c\":3},{\"only\":\"only\"}]"
    );
    Ok(())
}

#[test]
fn texts_go_behind_what_is_there(rt: HostRuntime) -> Result<(), Fail> {
    assert_eq!(rt;
        appended(rt.alloc())?.as_slice(),
        b"\"a\\\"\\n\"true\"\"".as_slice()
    );
    Ok(())
}

#[test]
fn want_of_memory_has_a_text(rt: HostRuntime) -> Result<(), Fail> {
    let text = format!(in rt.alloc(); "{}, {NoMemory}", TermFault::NoMemory)?;
    assert_eq!(rt; text.as_str(), "out of memory, out of memory");
    Ok(())
}
