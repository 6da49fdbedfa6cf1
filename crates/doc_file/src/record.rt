//! The root record: the number of accepted writes, and the last write of each id.

ghost use Rattle.std.specs.Prelude.{◌≡◌, ◌+◌, ◌<◌, ◌≤◌, ◌^◌, ◌++◌, length, None, Ok, IfOk, OnOk, IfSome, IsTrue, option_map};
ghost use Rattle.std.specs.List.{list_all};
ghost use Rattle.doc_file.specs.Counts.{has_room, is_counted};
ghost use Rattle.doc_file.specs.Record.{whole_bytes, entry_bytes, entries_bytes, record_bytes, rise, IdsFit, IsNoRecord, IsOneRecord, IsRecordOf};
ghost use Rattle.doc_file.specs.Reading.{whole_in, last_in, entry_of_id, entry_of_size, entry_in, follows, entry_after, whole_entries, root_of, root_in};

use crate::entry::{Entry, LAST_LENGTH, LastWrite};
use gate_file::MAX_COMMITS;
use json_terms::{Chars, NoMemory};
use std::alloc::Global;
use term_codec::{put_count, put_text, read_count, read_text};

/// The most writes of a commit.
const WRITES: u64 = 1000;

/// What a root record holds.
#[derive(Drop)]
pub struct RootRecord {
    /// The number of accepted writes.
    pub seq: u64,
    /// The last write of each id, in byte order of id.
    pub entries: Vec<Entry>,
}

impl RootRecord {
    ghost use Rattle.std.specs.Prelude.{◌≡◌};
    ghost use Rattle.doc_file.specs.Counts.{are_counted};

    /// Whether the counts are those of a history of so many commits: each of at most 1,000 writes, of which the last write of
    /// each id is one, and not before the id's first.
    pub(crate) fn is_counted(&self, commits: u64) -> bool
        ensures { result ≡ are_counted commits self.now.seq self.now.entries.items }
    {
        if self.seq > WRITES * commits.min(MAX_COMMITS) {
            return false;
        }
        are_each_counted(self.entries.as_slice(), self.seq)
    }
}

fn are_each_counted(entries: &[Entry], seq: u64) -> bool
    ensures { result ≡ list_all (is_counted seq) entries.now }
{
    entries.iter().all(|entry| is_counted(entry, seq))
}

fn is_counted(entry: &Entry, seq: u64) -> bool
    ensures { result ≡ is_counted seq entry.now }
{
    0 < entry.last.generation && entry.last.generation <= entry.last.seq && entry.last.seq <= seq
}

/// The bytes of a root record. Each id is shorter than 2^32 - 33 bytes. The one error is want of memory.
pub fn write_root(alloc: Global, seq: u64, entries: &[Entry]) -> Result<Vec<u8>, NoMemory>
    requires { IdsFit entries.now }
    ensures { IfOk result (λ bytes. bytes.items ≡ record_bytes seq entries.now) }
{
    let mut out = Vec::new(alloc);
    put_whole(seq, &mut out)?;
    put_whole(entries.len() as u64, &mut out)?;
    put_entries(entries, &mut out)?;
    Ok(out)
}

fn put_whole(number: u64, out: &mut Vec<u8>) -> Result<(), NoMemory>
    ensures { OnOk result (out.new.items ≡ out.old.items ++ whole_bytes number) }
{
    out.extend_from_slice(&number.to_le_bytes())?;
    Ok(())
}

fn put_entries(entries: &[Entry], out: &mut Vec<u8>) -> Result<(), NoMemory>
    requires { IdsFit entries.now }
    ensures { OnOk result (out.new.items ≡ out.old.items ++ entries_bytes entries.now) }
{
    for entry in entries {
        put_entry(entry, out)?;
    }
    Ok(())
}

fn put_entry(entry: &Entry, out: &mut Vec<u8>) -> Result<(), NoMemory>
    requires { length entry.now.id + 33 < 2 ^ 32 }
    ensures { OnOk result (out.new.items ≡ out.old.items ++ entry_bytes entry.now) }
{
    let id = entry.id.as_str();
    put_count(id.len() + 33, out)?;
    put_text(id, out)?;
    out.extend_from_slice(&entry.last.to_bytes())?;
    Ok(())
}

/// What these bytes hold as a root record, or none where they are no root record, whole: where they end early or go on, an
/// id isn't UTF-8, the ids don't rise strictly by bytes, a length isn't that of its entry, or a tombstone has a body. The
/// one error is want of memory.
pub fn read_root(alloc: Global, bytes: &[u8]) -> Result<Option<RootRecord>, NoMemory>
    ensures some { IfOk result
        (λ found. IfSome found (λ root. IsRecordOf bytes.now root.seq root.entries.items)) }
    ensures only { IfOk result
        (λ found. IfSome found (λ root. IsOneRecord bytes.now root.seq root.entries.items)) }
    ensures room { IfOk result
        (λ found. IfSome found (λ root. IsTrue (list_all has_room root.entries.items))) }
    ensures order { IfOk result (λ found. IfSome found (λ root. IsTrue (rise root.entries.items))) }
    ensures none { result ≡ Ok None → IsNoRecord bytes.now }
{
    parse_root(alloc, bytes)
}

fn parse_root(alloc: Global, bytes: &[u8]) -> Result<Option<RootRecord>, NoMemory>
    ensures { IfOk result
        (λ found. option_map (λ r. (r.seq, r.entries.items)) found ≡ root_in bytes.now) }
{
    match read_whole(bytes) {
        Some((seq, rest)) => read_root_of(alloc, seq, rest),
        None => Ok(None),
    }
}

fn read_root_of(alloc: Global, seq: u64, bytes: &[u8]) -> Result<Option<RootRecord>, NoMemory>
    ensures { IfOk result
        (λ found. option_map (λ r. (r.seq, r.entries.items)) found ≡ root_of seq bytes.now) }
{
    match read_whole(bytes) {
        Some((count, rest)) => match read_entries(alloc, count, rest)? {
            Some(entries) => Ok(Some(RootRecord { seq, entries })),
            None => Ok(None),
        },
        None => Ok(None),
    }
}

fn read_entries(alloc: Global, count: u64, bytes: &[u8]) -> Result<Option<Vec<Entry>>, NoMemory>
    ensures { IfOk result
        (λ found. option_map (λ es. es.items) found ≡ whole_entries count bytes.now) }
{
    if count > bytes.len() as u64 {
        return Ok(None);
    }
    let mut entries = Vec::new(alloc);
    let mut rest = bytes;
    for _index in 0..count {
        match read_next(alloc, &entries, rest)? {
            Some((entry, behind)) => {
                entries.push(entry)?;
                rest = behind;
            }
            None => return Ok(None),
        }
    }
    if rest.is_empty() {
        Ok(Some(entries))
    } else {
        Ok(None)
    }
}

// An entry whose id is greater than those that were read.
fn read_next<'a>(
    alloc: Global,
    entries: &Vec<Entry>,
    bytes: &'a [u8],
) -> Result<Option<(Entry, &'a [u8])>, NoMemory>
    ensures { IfOk result
        (λ found. option_map (λ r. (r.0, r.1.now)) found ≡ entry_after entries.now.items bytes.now) }
{
    match read_entry(alloc, bytes)? {
        Some((entry, rest)) => {
            if follows(entry.id.as_str(), entries.as_slice()) {
                Ok(Some((entry, rest)))
            } else {
                Ok(None)
            }
        }
        None => Ok(None),
    }
}

fn follows(id: &str, entries: &[Entry]) -> bool
    ensures { result ≡ follows id.now entries.now }
{
    match entries.last() {
        Some(last) => last.id.as_str() < id,
        None => true,
    }
}

fn read_entry(alloc: Global, bytes: &[u8]) -> Result<Option<(Entry, &[u8])>, NoMemory>
    ensures { IfOk result (λ found. option_map (λ r. (r.0, r.1.now)) found ≡ entry_in bytes.now) }
{
    match read_count(bytes) {
        Some((size, rest)) => read_entry_of(alloc, size, rest),
        None => Ok(None),
    }
}

fn read_entry_of(
    alloc: Global,
    size: usize,
    bytes: &[u8],
) -> Result<Option<(Entry, &[u8])>, NoMemory>
    ensures { IfOk result
        (λ found. option_map (λ r. (r.0, r.1.now)) found ≡ entry_of_size size bytes.now) }
{
    match read_text(bytes) {
        Some((id, rest)) => read_entry_of_id(alloc, size, id, rest),
        None => Ok(None),
    }
}

fn read_entry_of_id<'a>(
    alloc: Global,
    size: usize,
    id: &str,
    bytes: &'a [u8],
) -> Result<Option<(Entry, &'a [u8])>, NoMemory>
    ensures { IfOk result
        (λ found. option_map (λ r. (r.0, r.1.now)) found ≡ entry_of_id size id.now bytes.now) }
{
    match read_last(bytes) {
        Some((last, rest)) => {
            if size < 33 || size - 33 != id.len() {
                return Ok(None);
            }
            let id = Chars::from_text(alloc, id)?;
            Ok(Some((Entry { id, last }, rest)))
        }
        None => Ok(None),
    }
}

fn read_last(bytes: &[u8]) -> Option<(LastWrite, &[u8])>
    ensures { option_map (λ r. (r.0, r.1.now)) result ≡ last_in bytes.now }
{
    match bytes.split_first_chunk::<LAST_LENGTH>() {
        Some((head, rest)) => {
            let last = LastWrite::from_bytes(head);
            if !last.is_told_by(head) {
                return None;
            }
            if !last.is_sound() {
                return None;
            }
            Some((last, rest))
        }
        None => None,
    }
}

// The number with these bytes.
fn whole_of(bytes: [u8; 8]) -> u64
    ensures { whole_bytes result ≡ bytes }
{
    u64::from_le_bytes(bytes)
}

fn read_whole(bytes: &[u8]) -> Option<(u64, &[u8])>
    ensures { option_map (λ r. (r.0, r.1.now)) result ≡ whole_in bytes.now }
{
    match bytes.split_first_chunk::<8>() {
        Some((head, rest)) => Some((whole_of(*head), rest)),
        None => None,
    }
}
