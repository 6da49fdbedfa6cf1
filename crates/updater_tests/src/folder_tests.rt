//! Updates that meet a failing call of the folder.

ghost use Rattle.std.specs.Prelude.{◌≡◌, ◌<◌};

use crate::benches::Bench;
use crate::scripts::{TURNS, put_next, shown_behind};
use crash_disk::MemoryFolder;
use gate_file::GateFault;
use node_file::NodeCache;
use std::alloc::Global;
use std::marker::Brand;
use std::sync::ledger::{Blank, Ledger};
use std::test::Fail;
use test_tools::same_text;
use tree_index::IndexFault;
use tree_laws::Steps;
use tree_updater::UpdateFault;

/// Where a failing call was met.
#[derive(Clone, Copy, PartialEq, Eq)]
enum Met {
    Nowhere,
    Writing,
    Updating,
}

fn is_disk_fault(fault: &UpdateFault) -> bool {
    match fault {
        UpdateFault::Docs(GateFault::DiskFault) => true,
        UpdateFault::Index(IndexFault::Store(GateFault::DiskFault)) => true,
        _ => false,
    }
}

/// Updates the index, and where a call on the folder fails, once more. What it shows then is what is behind so many writes.
fn update_to<L: Ledger>(
    alloc: Global,
    bench: &mut Bench,
    cache: &mut NodeCache,
    steps: &mut Steps<L>,
    count: usize,
) -> Result<Met, Fail> {
    let mut shown = Vec::new(alloc);
    let mut met = Met::Nowhere;
    if let Err(fault) = bench.update(alloc, cache, steps, &mut shown) {
        if !is_disk_fault(&fault) {
            return Err(Fail::from(fault));
        }
        met = Met::Updating;
        bench.update(alloc, cache, steps, &mut shown)?;
    }
    same_text(
        Ok(String::from_utf8(shown)?),
        shown_behind(count),
        "updated",
    )?;
    Ok(met)
}

/// Plays the turns up to the one that meets the failing call, which has this number.
fn play<L: Ledger>(alloc: Global, call: u64, steps: &mut Steps<L>) -> Result<Met, Fail> {
    let folder = MemoryFolder::new(alloc, Vec::from_slice(alloc, &[call])?, false)?;
    let mut bench = Bench::new(alloc, folder, &[])?;
    let mut cache = NodeCache::new(alloc, 16)?;
    let mut before = 0_usize;
    for count in TURNS {
        if put_next(alloc, &mut bench, before, count).is_err() {
            return Ok(Met::Writing);
        }
        before = before.saturating_add(count);
        let met = update_to(alloc, &mut bench, &mut cache, steps, before)?;
        if met == Met::Updating {
            return Ok(met);
        }
    }
    Ok(Met::Nowhere)
}

/// How many calls of updates there are. Each fails once.
fn fail_in_turn<L: Ledger>(alloc: Global, blank: Blank) -> Result<u64, Fail>
    requires name { blank.name ≡ L.name }
    requires parts { blank.parts ≡ L.parts }
    requires some { 0 < L.parts }
{
    let mut steps = Steps::<L>::new(blank);
    let mut updates = 0_u64;
    for call in 0..u64::MAX {
        match play(alloc, call, &mut steps)? {
            Met::Nowhere => break,
            Met::Writing => {}
            Met::Updating => updates = updates.saturating_add(1),
        }
    }
    Ok(updates)
}

#[test]
fn an_update_that_met_a_failing_call_is_made_good(rt: HostRuntime) -> Result<(), Fail> {
    let updates = fail_in_turn::<Brand>(rt.alloc(), Blank::new(1))?;
    assert!(rt; updates > 100, "{updates}");
    Ok(())
}
