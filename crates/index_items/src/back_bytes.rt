//! The bytes of items of the back-index. What reads takes from the front of bytes, and answers what it took and the bytes
//! behind it, or none where they begin with nothing of the kind.

ghost use Rattle.std.specs.Prelude.{◌≡◌, ◌++◌, IfOk, OnOk};
ghost use Rattle.std.specs.List.{flat_map};
ghost use Rattle.term_codec.specs.Spelling.{text_bytes};
ghost use Rattle.tree_laws.specs.Reading.{AreCounted};
ghost use Rattle.index_items.specs.BackItem.{IsId, IsKeptEntry, entry_bytes};
ghost use Rattle.index_items.specs.BackRows.{AreKeptRows, IsKeptKey, IsKeptRow, key_bytes, row_bytes, rows_bytes};
ghost use Rattle.index_items.specs.Taken.{IsTaken};

use crate::back_item::ID_LIMIT;
use crate::back_row::{BackRow, BackRows};
use json_terms::{Chars, NoMemory, Term};
use query_protocol::is_within_bounds;
use std::alloc::Global;
use term_codec::{
    CodecFault, decode_term, encode_term, put_count, put_short, put_text, read_count, read_short,
    read_text,
};

/// Writes an item behind what `out` holds. Where memory runs out some of it may be written.
pub(crate) fn put_entry(
    alloc: Global,
    id: &str,
    rows: &[BackRow],
    out: &mut Vec<u8>,
) -> Result<(), NoMemory>
    requires { IsKeptEntry (record { id = id.now; rows = rows.now }) }
    ensures { OnOk result (out.new.items ≡ out.old.items
        ++ entry_bytes (record { id = id.now; rows = rows.now })) }
{
    put_text(id, out)?;
    put_count(rows.len(), out)?;
    put_rows(alloc, rows, out)
}

fn put_rows(alloc: Global, rows: &[BackRow], out: &mut Vec<u8>) -> Result<(), NoMemory>
    requires { AreKeptRows rows.now }
    ensures { OnOk result (out.new.items ≡ out.old.items ++ flat_map row_bytes rows.now) }
{
    for row in rows {
        put_row(alloc, row, out)?;
    }
    Ok(())
}

fn put_row(alloc: Global, row: &BackRow, out: &mut Vec<u8>) -> Result<(), NoMemory>
    requires { IsKeptRow row.now }
    ensures { OnOk result (out.new.items ≡ out.old.items ++ row_bytes row.now) }
{
    put_short(row.view, out)?;
    encode_term(alloc, &row.key, out)?;
    put_count(row.place as usize, out)
}

pub(crate) fn read_id(alloc: Global, bytes: &[u8]) -> Result<Option<(Chars, &[u8])>, NoMemory>
    ensures { IfOk result (IsTaken IsId text_bytes bytes.now) }
{
    let Some((id, rest)) = read_text(bytes) else {
        return Ok(None);
    };
    if id.len() > ID_LIMIT {
        return Ok(None);
    }
    Ok(Some((Chars::from_text(alloc, id)?, rest)))
}

pub(crate) fn read_rows(alloc: Global, bytes: &[u8]) -> Result<Option<(BackRows, &[u8])>, NoMemory>
    ensures { IfOk result (IsTaken AreKeptRows rows_bytes bytes.now) }
{
    let Some((count, rest)) = read_count(bytes) else {
        return Ok(None);
    };
    read_each_row(alloc, count, rest)
}

// So many rows.
fn read_each_row(
    alloc: Global,
    count: usize,
    bytes: &[u8],
) -> Result<Option<(BackRows, &[u8])>, NoMemory>
    ensures { IfOk result (IsTaken (AreCounted count IsKeptRow) (flat_map row_bytes) bytes.now) }
{
    let mut rows = Vec::new(alloc);
    let mut rest = bytes;
    for _row in 0..count {
        match read_row(alloc, rest)? {
            Some((row, behind)) => {
                rows.push(row)?;
                rest = behind;
            }
            None => return Ok(None),
        }
    }
    Ok(Some((BackRows::from_vec(rows), rest)))
}

fn read_row(alloc: Global, bytes: &[u8]) -> Result<Option<(BackRow, &[u8])>, NoMemory>
    ensures { IfOk result (IsTaken IsKeptRow row_bytes bytes.now) }
{
    let Some((view, rest)) = read_short(bytes) else {
        return Ok(None);
    };
    let Some((key, rest)) = read_key(alloc, rest)? else {
        return Ok(None);
    };
    let Some((place, rest)) = read_count(rest) else {
        return Ok(None);
    };
    let place = place as u32;
    Ok(Some((BackRow { view, key, place }, rest)))
}

// A key within the bounds.
fn read_key(alloc: Global, bytes: &[u8]) -> Result<Option<(Term, &[u8])>, NoMemory>
    ensures { IfOk result (IsTaken IsKeptKey key_bytes bytes.now) }
{
    match decode_term(alloc, bytes, 0) {
        Ok((key, end)) => {
            if !is_within_bounds(alloc, &key)? {
                return Ok(None);
            }
            let (_, rest) = bytes.split_at(end);
            Ok(Some((key, rest)))
        }
        Err(CodecFault::NotATerm(_)) => Ok(None),
        Err(CodecFault::NoMemory) => Err(NoMemory),
    }
}
