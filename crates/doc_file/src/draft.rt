//! Writes that are ready to be stored: all that takes memory is done before the disk is asked.

ghost use Rattle.std.specs.Prelude.{◌≡◌, ℕ, ◌+◌, ◌<◌, ◌≤◌, ◌^◌, List, length, IfOk, IfSome, IsTrue, IsUtf8, option_map, string_bytes, vec_len};
ghost use Rattle.std.specs.List.{list_all};
ghost use Rattle.json_terms.specs.Json.{Json};
ghost use Rattle.json_terms.specs.Seen.{json};
ghost use Rattle.term_codec.specs.Spelling.{spelling};
ghost use Rattle.doc_file.specs.Counts.{are_counted, has_room};
ghost use Rattle.doc_file.specs.Drafts.{IsDraft};
ghost use Rattle.doc_file.specs.Held.{IsDocument, find_last};
ghost use Rattle.design_docs.specs.Revision.{revision, stored_document};
ghost use Rattle.doc_file.specs.Stored.{body_of, generation_in, next_rev, place_in, revised, IsStorable};

use crate::entry::{Entry, LastWrite};
use crate::incoming::stored;
use crate::last_writes::{find_last, with_last};
use crate::record::write_root;
use crate::rev::Rev;
use json_terms::{Chars, NoMemory, Term};
use std::alloc::Global;
use term_codec::encode_term;

/// A write that is ready to be stored.
#[derive(Drop)]
pub(crate) struct Draft {
    pub rev: Rev,
    /// The last writes of all ids, with this one.
    pub entries: Vec<Entry>,
    /// What is appended to the file: the body, and behind it the root record.
    pub bytes: Vec<u8>,
    /// The length of the body in bytes.
    pub body: usize,
}

/// The revision of the next write of an id.
pub(crate) fn next_rev(seq: u64, entries: &[Entry], id: &str) -> Rev
    requires small { seq + 1 < 2 ^ 64 }
    requires counted { generation_in (find_last id.now entries.now) ≤ seq }
    ensures { result ≡ next_rev seq entries.now id.now }
{
    let generation = match find_last(id, entries) {
        Some(last) => last.generation,
        None => 0,
    };
    Rev {
        generation: generation + 1,
        seq: seq + 1,
    }
}

/// Makes the next write of an id ready: that of a document with this content, or a deletion. What is appended will stand at
/// `start`. The one error is want of memory.
pub(crate) fn make_draft(
    alloc: Global,
    start: u64,
    seq: u64,
    entries: &[Entry],
    id: Chars,
    content: Option<Term>,
) -> Result<Draft, NoMemory>
    requires small { seq + 1 < 2 ^ 64 }
    requires counted { generation_in (find_last id entries.now) ≤ seq }
    requires room { IsTrue (list_all has_room entries.now) × (length id + 33 < 2 ^ 32) }
    requires storable { IsStorable id (option_map json content) }
    ensures { IfOk result (λ d. IsDraft start seq entries.now id (option_map json content) d) }
{
    let rev = next_rev(seq, entries, id.as_str());
    let deleted = content.is_none();
    let mut bytes = body_bytes(alloc, id.as_str(), content, rev)?;
    let body = bytes.len();
    let last = LastWrite {
        seq: rev.seq,
        generation: rev.generation,
        deleted,
        offset: place_of_body(start, deleted),
        length: body as u32,
    };
    let entries = with_last(alloc, entries, id, last)?;
    let root = write_root(alloc, rev.seq, entries.as_slice())?;
    bytes.extend_from_slice(root.as_slice())?;
    Ok(Draft {
        rev,
        entries,
        bytes,
        body,
    })
}

/// The place of the body of a write. That of a deletion is 0.
fn place_of_body(start: u64, deleted: bool) -> u64
    ensures { result ≡ place_in start deleted }
{
    if deleted { 0 } else { start }
}

/// The body of the write of an id: the spelling of the content under this revision, or nothing for a deletion.
fn body_bytes(alloc: Global, id: &str, content: Option<Term>, rev: Rev) -> Result<Vec<u8>, NoMemory>
    requires { IsStorable id.now (option_map json content) }
    ensures bytes { IfOk result (λ bytes. bytes.items ≡ body_of (revised (option_map json content) rev)) }
    ensures short { IfOk result (λ bytes. vec_len bytes < 2 ^ 32) }
{
    let mut bytes = Vec::new(alloc);
    if let Some(content) = content {
        let document = stored(alloc, content, rev.text(alloc)?)?;
        encode_term(alloc, &document, &mut bytes)?;
    }
    Ok(bytes)
}
