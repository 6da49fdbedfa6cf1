//! The changes since a write.

use crate::documents::{folder_of, since, told};
use std::test::Fail;

/// The spellings of `{"_id":"c"}` and `{"_id":"a"}`, 18 bytes each.
const BODIES: &[u8] =
    b"\x05\x01\0\0\0\x03\0\0\0_id\x07\x01\0\0\0c\x05\x01\0\0\0\x03\0\0\0_id\x07\x01\0\0\0a";

/// The root record of five writes: `b`, `c`, the deletion of `b`, and `a` twice.
const ROOT: &[u8; 130] = b"\x05\0\0\0\0\0\0\0\x03\0\0\0\0\0\0\0\
\x22\0\0\0\x01\0\0\0a\x05\0\0\0\0\0\0\0\x02\0\0\0\0\0\0\0\0\x12\x20\0\0\0\0\0\0\x12\0\0\0\
\x22\0\0\0\x01\0\0\0b\x03\0\0\0\0\0\0\0\x02\0\0\0\0\0\0\0\x01\0\0\0\0\0\0\0\0\0\0\0\0\
\x22\0\0\0\x01\0\0\0c\x02\0\0\0\0\0\0\0\x01\0\0\0\0\0\0\0\0\0\x20\0\0\0\0\0\0\x12\0\0\0";

/// Where the root record has the place of the last body of `a`, whose lowest byte is 18.
const PLACE: usize = 42;
/// The place of the body of `a` less 8,192, the write and how many changes after it are asked for, and what is told. A body at
/// another place is damage, and met only where it is asked for.
const CHANGES: &[(u8, u64, u32, &str)] = &[
    (18, 0, 0, ""),
    (18, 0, 1, "2c{\"_id\":\"c\"}"),
    (18, 0, 2, "2c{\"_id\":\"c\"}3b-"),
    (18, 0, 3, "2c{\"_id\":\"c\"}3b-5a{\"_id\":\"a\"}"),
    (18, 1, u32::MAX, "2c{\"_id\":\"c\"}3b-5a{\"_id\":\"a\"}"),
    (18, 2, 1, "3b-"),
    (18, 3, 2, "5a{\"_id\":\"a\"}"),
    (18, 4, 1, "5a{\"_id\":\"a\"}"),
    (18, 5, 3, ""),
    (18, u64::MAX, 3, ""),
    (19, 0, 2, "2c{\"_id\":\"c\"}3b-"),
    (19, 0, 3, "damaged at 8211"),
    (19, 4, 1, "damaged at 8211"),
    (19, 5, 1, ""),
];

#[test]
fn changes_come_in_the_order_of_their_numbers(rt: HostRuntime) -> Result<(), Fail> {
    let alloc = rt.alloc();
    for &(place, seq, n, want) in CHANGES {
        let mut root = *ROOT;
        root[PLACE] = place;
        let mut folder = folder_of(alloc, BODIES, &root)?;
        let text = told(alloc, since(alloc, &mut folder, seq, n))?;
        assert!(rt; text.as_slice() == want.as_bytes(), "{n} after {seq}");
    }
    Ok(())
}
