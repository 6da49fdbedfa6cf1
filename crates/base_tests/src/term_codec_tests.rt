//! Spellings of terms: worked out by hand, read back, and those that are none.

use json_terms::{NoMemory, Term};
use std::alloc::Global;
use std::test::Fail;
use term_codec::{CodecFault, decode_term, encode_term, spellings_are_prefix_free};
use test_tools::{same_text, text_of};

/// A term of these kinds of values, and its spelling.
const SPELLINGS: &[(&str, &[u8])] = &[
    (
        "{\"a\":[1,true]}",
        b"\x05\x01\0\0\0\x01\0\0\0a\x06\x02\0\0\0\x01\x01\0\0\0\0\0\0\0\x04",
    ),
    ("0", b"\x01\0\0\0\0\0\0\0\0"),
    ("-1", b"\x01\xff\xff\xff\xff\xff\xff\xff\xff"),
    ("258", b"\x01\x02\x01\0\0\0\0\0\0"),
    (
        "9223372036854775807",
        b"\x01\xff\xff\xff\xff\xff\xff\xff\x7f",
    ),
    ("-9223372036854775808", b"\x01\0\0\0\0\0\0\0\x80"),
    ("false", b"\x02"),
    ("null", b"\x03"),
    ("true", b"\x04"),
    ("{}", b"\x05\0\0\0\0"),
    ("[]", b"\x06\0\0\0\0"),
    ("\"\"", b"\x07\0\0\0\0"),
    ("\"\u{e9}z\"", b"\x07\x03\0\0\0\xc3\xa9z"),
    (
        "{\"\":null,\"a\":false,\"b\":{}}",
        b"\x05\x03\0\0\0\0\0\0\0\x03\x01\0\0\0a\x02\x01\0\0\0b\x05\0\0\0\0",
    ),
];

/// No spelling of a term stands at the front of these.
const OTHERS: &[&[u8]] = &[
    b"",
    b"\0",
    b"\x08\0\0\0\0",
    b"\xff",
    b"\x01\0\0\0\0\0\0\0",
    b"\x05\0\0\0",
    b"\x06\x01\0\0\0",
    b"\x06\xff\xff\xff\xff\x03\x03\x03",
    b"\x06\x02\0\0\0\x03",
    b"\x07\x02\0\0\0a",
    b"\x07\xff\xff\xff\xffa",
    b"\x07\x01\0\0\0\xff",
    b"\x07\x02\0\0\0\xc3z",
    b"\x05\x01\0\0\0\x01\0\0\0a",
    b"\x05\x01\0\0\0\x01\0\0\0\xe9\x03",
    b"\x05\x02\0\0\0\x01\0\0\0b\x03\x01\0\0\0a\x03",
    b"\x05\x02\0\0\0\x01\0\0\0a\x03\x01\0\0\0a\x03",
    b"\x05\xff\xff\xff\xff\x01\0\0\0a\x03",
    b"\x05\x01\0\0\0\x01\0\0\0a\x06\x02\0\0\0\x01\x01\0\0\0\0\0\0\0",
];

/// The term at the front spelled again, behind `ab` and before the spelling of `null`.
fn spelled_again(alloc: Global, bytes: &[u8]) -> Result<Vec<u8>, Fail> {
    let (term, _) = decode_term(alloc, bytes, 0)?;
    let mut out = b"ab".to_vec(alloc)?;
    encode_term(alloc, &term, &mut out)?;
    encode_term(alloc, &Term::Null, &mut out)?;
    Ok(out)
}

/// The term that stands behind `ab`.
fn read_back(alloc: Global, spelling: &[u8]) -> Result<String, Fail> {
    let bytes = framed(alloc, spelling)?;
    if bytes.len() < 2 {
        return Err(Fail::from("too short"));
    }
    let (term, _) = decode_term(alloc, &bytes, 2)?;
    text_of(alloc, &term)
}

/// Where the term ends that stands at the front.
fn end_of(alloc: Global, bytes: &[u8]) -> Result<usize, CodecFault> {
    let (_, end) = decode_term(alloc, bytes, 0)?;
    Ok(end)
}

/// `ab`, the bytes, and the spelling of `null`.
fn framed(alloc: Global, bytes: &[u8]) -> Result<Vec<u8>, NoMemory> {
    let mut out = b"ab".to_vec(alloc)?;
    out.extend_from_slice(bytes)?;
    out.push(3)?;
    Ok(out)
}

fn is_spelled_again(alloc: Global, spelling: &[u8]) -> Result<bool, Fail> {
    let bytes = spelled_again(alloc, spelling)?;
    Ok(bytes == framed(alloc, spelling)?)
}

#[test]
fn terms_are_spelled_where_they_belong(rt: HostRuntime) -> Result<(), Fail> {
    for (text, spelling) in SPELLINGS {
        assert!(rt; is_spelled_again(rt.alloc(), spelling)?, "{text}");
    }
    Ok(())
}

#[test]
fn spellings_are_read_where_they_stand(rt: HostRuntime) -> Result<(), Fail> {
    spellings_are_prefix_free();
    for (text, spelling) in SPELLINGS {
        same_text(read_back(rt.alloc(), spelling), text, text)?;
    }
    Ok(())
}

/// Whether a term is found at the front of the whole spelling alone, and none behind it.
fn is_whole(alloc: Global, spelling: &[u8]) -> bool {
    for end in 0..spelling.len() {
        if end_of(alloc, &spelling[..end]) != Err(CodecFault::NotATerm(0)) {
            return false;
        }
    }
    let end = spelling.len();
    let behind = decode_term(alloc, spelling, end).err();
    end_of(alloc, spelling) == Ok(end) && behind == Some(CodecFault::NotATerm(end))
}

#[test]
fn no_part_of_a_spelling_is_one(rt: HostRuntime) {
    for (text, spelling) in SPELLINGS {
        assert!(rt; is_whole(rt.alloc(), spelling), "{text}");
    }
}

#[test]
fn other_bytes_are_no_term(rt: HostRuntime) {
    for bytes in OTHERS {
        assert_eq!(rt; end_of(rt.alloc(), bytes), Err(CodecFault::NotATerm(0)));
    }
}

/// The spelling of an empty object within so many arrays.
fn deep(alloc: Global, arrays: usize) -> Result<Vec<u8>, NoMemory> {
    let mut bytes = Vec::new(alloc);
    for _ in 0..arrays {
        bytes.extend_from_slice(b"\x06\x01\0\0\0")?;
    }
    bytes.extend_from_slice(b"\x05\0\0\0\0")?;
    Ok(bytes)
}

#[test]
fn terms_nest_a_hundred_deep(rt: HostRuntime) -> Result<(), Fail> {
    for (arrays, want) in [(99, Ok(500)), (100, Err(CodecFault::NotATerm(0)))] {
        let bytes = deep(rt.alloc(), arrays)?;
        assert_eq!(rt; end_of(rt.alloc(), &bytes), want);
    }
    Ok(())
}
