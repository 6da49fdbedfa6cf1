//! Updates of more documents than are mapped at once.

ghost use Rattle.std.specs.Prelude.{◌≡◌, ◌<◌};

use crate::benches::{Bench, Doc, is_refused};
use crash_disk::MemoryFolder;
use doc_file::Rev;
use node_file::NodeCache;
use std::alloc::Global;
use std::marker::Brand;
use std::sync::ledger::{Blank, Ledger};
use std::test::Fail;
use tree_laws::Steps;

/// How many documents are put at first, two calls on the servers that fail, and the number of writes before each update that is
/// refused.
///
/// An update of all documents makes seven calls and two for each, and the one behind it, of a document that was put again, eight.
const FAILING: &[(u64, [u64; 2], &[u64])] = &[
    (128, [262, 263], &[128]),
    (128, [263, 264], &[129]),
    (300, [300, 301], &[300]),
    (300, [606, 607], &[300]),
    (300, [607, 608], &[301]),
    (300, [614, 615], &[301]),
    (300, [615, 616], &[]),
];

/// Puts a document `d` with this number, whose member `a` is a key.
pub fn put(
    alloc: Global,
    bench: &mut Bench,
    number: u64,
    key: u64,
    over: Option<Rev>,
) -> Result<(), Fail> {
    let id = format!(in alloc; "d{number}")?;
    let members = format!(in alloc; ",\"a\":{key}")?;
    let doc = Doc {
        id: id.as_str(),
        members: members.as_str(),
        over,
    };
    bench.put(alloc, &doc)?;
    Ok(())
}

/// What an index shows of so many documents, each of which has its number as its key, but the last has another.
pub fn shown_of(alloc: Global, seq: u64, count: u64, last: u64) -> Result<String, Fail> {
    let mut text = format!(in alloc; "{seq}[")?;
    let before = count.saturating_sub(1);
    for number in 0..before {
        let row = format!(in alloc; "{number} d{number} 0;")?;
        text.push_str(row.as_str())?;
    }
    let row = format!(in alloc; "{last} d{before} 0;][]")?;
    text.push_str(row.as_str())?;
    Ok(text)
}

/// The number of writes before each update that is refused.
fn refused_with<L: Ledger>(
    alloc: Global,
    count: u64,
    fail: &[u64; 2],
    steps: &mut Steps<L>,
) -> Result<Vec<u64>, Fail> {
    let folder = MemoryFolder::new(alloc, Vec::new(alloc), false)?;
    let mut bench = Bench::new(alloc, folder, fail)?;
    let mut cache = NodeCache::new(alloc, 16)?;
    let mut refused = Vec::new(alloc);
    for number in 0..count {
        put(alloc, &mut bench, number, number, None)?;
    }
    let last = count.saturating_sub(1);
    let first = shown_of(alloc, count, count, last)?;
    let texts = ["0[][]", first.as_str()];
    if is_refused(alloc, &mut bench, &mut cache, steps, texts)? {
        refused.push(count)?;
    }
    let over = Some(Rev {
        generation: 1,
        seq: count,
    });
    put(alloc, &mut bench, last, 1000, over)?;
    let next = count.saturating_add(1);
    let second = shown_of(alloc, next, count, 1000)?;
    let texts = [first.as_str(), second.as_str()];
    if is_refused(alloc, &mut bench, &mut cache, steps, texts)? {
        refused.push(next)?;
    }
    Ok(refused)
}

fn map_batches<L: Ledger>(alloc: Global, blank: Blank) -> Result<(), Fail>
    requires name { blank.name ≡ L.name }
    requires parts { blank.parts ≡ L.parts }
    requires some { 0 < L.parts }
{
    let mut steps = Steps::<L>::new(blank);
    for &(count, fail, want) in FAILING {
        let refused = refused_with(alloc, count, &fail, &mut steps)?;
        if refused.as_slice() != want {
            return Err(Fail::new(format_args!("{count}, {fail:?}: {refused:?} are refused")));
        }
    }
    Ok(())
}

#[test]
fn batches_are_mapped_once(rt: HostRuntime) -> Result<(), Fail> {
    map_batches::<Brand>(rt.alloc(), Blank::new(1))
}
