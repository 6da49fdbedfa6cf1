//! What a failed call on the folder, and a stop within a call, leave of an index.

ghost use Rattle.std.specs.Prelude.{◌≡◌, ◌<◌};
ghost use Rattle.crash_disk.specs.State.{calls_told, told};

use crate::indexes::{Bench, Seen, play};
use crate::scripts::{NOTHING, REST, REST_SHOWN, SCRIPT};
use crash_disk::MemoryFolder;
use gate_file::GateFault;
use std::alloc::Global;
use std::marker::Brand;
use std::sync::ledger::{Blank, Ledger};
use std::test::Fail;
use tree_index::IndexFault;

/// What the script shows after so many turns.
fn shown_after(turns: usize) -> &'static str {
    if turns == 0 {
        return NOTHING;
    }
    match SCRIPT.get(turns - 1) {
        Some((_request, text, _length)) => text,
        None => NOTHING,
    }
}

/// What the index may show after this call: what it showed before the request that was under way, and what it shows after it.
fn may_show(seen: &[Seen], call: u64) -> [&'static str; 2] {
    let done = seen.iter().filter(|one| one.behind <= call).count();
    let begun = seen.iter().filter(|one| one.before <= call).count();
    [shown_after(done), shown_after(begun)]
}

/// Which of two texts an index showed that was opened over what is left, 0 or 1. Nothing where it was another text, or where others than
/// the rows of all documents are there once these are exchanged.
fn shown_of(seen: &[Seen], may: &[&str; 2]) -> Option<usize> {
    let [left, _exchanged, last] = seen else {
        return None;
    };
    if last.text.as_slice() != REST_SHOWN.as_bytes() {
        return None;
    }
    may.iter()
        .rposition(|text| left.text.as_slice() == text.as_bytes())
}

/// The index that was left is opened, and the rows of all documents are exchanged there.
fn goes_on<L: Ledger>(
    alloc: Global,
    bench: &mut Bench<L>,
    may: &[&str; 2],
) -> Result<Option<usize>, Fail> {
    let seen = play(alloc, bench, REST)?;
    Ok(shown_of(&seen, may))
}

/// The script in a folder that keeps its moments: what is seen of its turns, and the folder.
fn play_whole<L: Ledger>(
    alloc: Global,
    bench: &mut Bench<L>,
) -> Result<(Vec<Seen>, MemoryFolder), Fail> {
    bench.take(MemoryFolder::new(alloc, Vec::new(alloc), true)?);
    let seen = play(alloc, bench, SCRIPT)?;
    let whole = bench.take(MemoryFolder::new(alloc, Vec::new(alloc), false)?);
    Ok((seen, whole))
}

/// Whether the script is refused for the disk where this call on the folder fails.
fn is_refused<L: Ledger>(alloc: Global, bench: &mut Bench<L>, call: u64) -> Result<bool, Fail> {
    let fail = Vec::from_slice(alloc, &[call])?;
    bench.take(MemoryFolder::new(alloc, fail, false)?);
    match play(alloc, bench, SCRIPT) {
        Ok(_seen) => Ok(false),
        Err(IndexFault::Store(GateFault::DiskFault)) => Ok(true),
        Err(fault) => Err(Fail::from(fault)),
    }
}

/// Whether the failure of this call on the folder is told, and leaves the rows of the last commit or of the one that was under way.
fn fails_well<L: Ledger>(
    alloc: Global,
    bench: &mut Bench<L>,
    may: &[&str; 2],
    call: u64,
) -> Result<bool, Fail> {
    if !is_refused(alloc, bench, call)? {
        return Ok(false);
    }
    Ok(goes_on(alloc, bench, may)?.is_some())
}

/// How many calls the script makes on the folder, and how many of these fail well.
fn fail_in_turn<L: Ledger>(alloc: Global, blank: Blank) -> Result<[u64; 2], Fail>
    requires name { blank.name ≡ L.name }
    requires parts { blank.parts ≡ L.parts }
    requires some { 0 < L.parts }
{
    let mut bench = Bench::<L>::new(alloc, blank)?;
    let (seen, whole) = play_whole(alloc, &mut bench)?;
    let calls = whole.calls_noted();
    let mut well = 0_u64;
    for call in 0..calls {
        if fails_well(alloc, &mut bench, &may_show(&seen, call), call)? {
            well = well.saturating_add(1);
        }
    }
    Ok([calls, well])
}

fn all_fail_well<L: Ledger>(alloc: Global, blank: Blank) -> Result<(), Fail>
    requires name { blank.name ≡ L.name }
    requires parts { blank.parts ≡ L.parts }
    requires some { 0 < L.parts }
{
    let [calls, well] = fail_in_turn::<L>(alloc, blank)?;
    if calls > 200 && well == calls {
        Ok(())
    } else {
        Err(Fail::from(format!(in alloc; "{well} of {calls} calls fail well")?))
    }
}

/// Each call on the folder fails once: the fault is told, and the rows of the last commit are there.
#[test]
fn each_call_of_the_folder_fails_in_turn(rt: HostRuntime) -> Result<(), Fail> {
    all_fail_well::<Brand>(rt.alloc(), Blank::new(1))
}

/// How many choices of what a stop leaves are tried in each call: nothing that wasn't synced, all of it, and 255 in each place that was
/// written.
const CHOICES: u64 = 3;

/// How many choices of what a stop leaves were tried, how many went on, and in how many calls some left the rows before the request and
/// others those after it.
#[derive(Clone, Copy)]
struct Stops {
    tried: u64,
    well: u64,
    either: u64,
}

/// Stops within this call.
fn stop_within<L: Ledger>(
    alloc: Global,
    bench: &mut Bench<L>,
    whole: &MemoryFolder,
    may: &[&str; 2],
    call: u64,
) -> Result<Stops, Fail>
    requires { call < calls_told (told whole.now) }
{
    let mut well = 0_u64;
    let mut left = [false; 2];
    for choice in 0..CHOICES {
        bench.take(whole.image_at(alloc, call, choice)?);
        if let Some(shown) = goes_on(alloc, bench, may)? {
            well = well.saturating_add(1);
            if shown == 0 {
                left[0] = true;
            } else {
                left[1] = true;
            }
        }
    }
    let either = if left == [true; 2] { 1 } else { 0 };
    Ok(Stops {
        tried: CHOICES,
        well,
        either,
    })
}

/// Stops within each call of each request.
fn stop_everywhere<L: Ledger>(alloc: Global, blank: Blank) -> Result<Stops, Fail>
    requires name { blank.name ≡ L.name }
    requires parts { blank.parts ≡ L.parts }
    requires some { 0 < L.parts }
{
    let mut bench = Bench::<L>::new(alloc, blank)?;
    let (seen, whole) = play_whole(alloc, &mut bench)?;
    let mut all = Stops {
        tried: 0,
        well: 0,
        either: 0,
    };
    for call in 0..whole.calls_noted() {
        let one = stop_within(alloc, &mut bench, &whole, &may_show(&seen, call), call)?;
        all = Stops {
            tried: all.tried.saturating_add(one.tried),
            well: all.well.saturating_add(one.well),
            either: all.either.saturating_add(one.either),
        };
    }
    Ok(all)
}

fn all_stop_well<L: Ledger>(alloc: Global, blank: Blank) -> Result<(), Fail>
    requires name { blank.name ≡ L.name }
    requires parts { blank.parts ≡ L.parts }
    requires some { 0 < L.parts }
{
    let Stops {
        tried,
        well,
        either,
    } = stop_everywhere::<L>(alloc, blank)?;
    if tried > 600 && well == tried && either >= 5 {
        Ok(())
    } else {
        Err(Fail::from(format!(in alloc;
            "{well} of {tried} stops go on, {either} calls leave either"
        )?))
    }
}

/// A stop leaves the rows of the last commit, or those of the one that was under way. In some calls it may leave either.
#[test]
fn a_stop_leaves_the_last_commit_or_the_next(rt: HostRuntime) -> Result<(), Fail> {
    all_stop_well::<Brand>(rt.alloc(), Blank::new(1))
}
