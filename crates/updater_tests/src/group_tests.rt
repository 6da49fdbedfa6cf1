//! The indexes of a database, brought up to date and removed.

ghost use Rattle.std.specs.Prelude.{◌≡◌, ◌<◌};

use crate::benches::Bench;
use crate::scripts::{TURNS, put_next, shown_behind};
use crash_disk::MemoryFolder;
use node_file::NodeCache;
use std::alloc::Global;
use std::marker::Brand;
use std::sync::ledger::{Blank, Ledger};
use std::test::Fail;
use test_tools::same_text;
use tree_laws::Steps;

/// Plays all writes, and brings the index up to date behind each turn.
fn bring_all<L: Ledger>(
    alloc: Global,
    bench: &mut Bench,
    cache: &mut NodeCache,
    steps: &mut Steps<L>,
) -> Result<&'static str, Fail> {
    let mut before = 0_usize;
    for count in TURNS {
        put_next(alloc, bench, before, count)?;
        before = before.saturating_add(count);
        let shown = bench.bring(alloc, cache, steps)?;
        same_text(
            Ok(String::from_utf8(shown)?),
            shown_behind(before),
            "updated",
        )?;
    }
    Ok(shown_behind(before))
}

/// An index is there behind a cleanup that keeps its signature, and gone behind one that doesn't; then it is made again.
fn keep_and_remove<L: Ledger>(alloc: Global, blank: Blank) -> Result<(), Fail>
    requires name { blank.name ≡ L.name }
    requires parts { blank.parts ≡ L.parts }
    requires some { 0 < L.parts }
{
    let mut steps = Steps::<L>::new(blank);
    let mut cache = NodeCache::new(alloc, 16)?;
    let folder = MemoryFolder::new(alloc, Vec::new(alloc), false)?;
    let mut bench = Bench::new(alloc, folder, &[])?;
    let last = bring_all(alloc, &mut bench, &mut cache, &mut steps)?;
    let signature = bench.signature(alloc)?;
    bench.clean_up(alloc, &[signature])?;
    let shown = bench.found(alloc, &mut cache, &mut steps)?;
    same_text(Ok(String::from_utf8(shown)?), last, "kept")?;
    bench.clean_up(alloc, &[[0; 32]])?;
    let shown = bench.found(alloc, &mut cache, &mut steps)?;
    same_text(Ok(String::from_utf8(shown)?), shown_behind(0), "removed")?;
    let shown = bench.bring(alloc, &mut cache, &mut steps)?;
    same_text(Ok(String::from_utf8(shown)?), last, "made again")
}

#[test]
fn an_index_stays_where_its_signature_is_kept(rt: HostRuntime) -> Result<(), Fail> {
    keep_and_remove::<Brand>(rt.alloc(), Blank::new(1))
}
