//! What a stop within a call on the folder leaves of an index, and updates that come behind it.

ghost use Rattle.std.specs.Prelude.{◌≡◌, ◌<◌};
ghost use Rattle.crash_disk.specs.State.{calls_told, told};

use crate::batch_tests::{put, shown_of};
use crate::benches::Bench;
use crate::scripts::{TURNS, put_next, shown_after, shown_behind};
use crash_disk::MemoryFolder;
use node_file::NodeCache;
use std::alloc::Global;
use std::marker::Brand;
use std::sync::ledger::{Blank, Ledger};
use std::test::Fail;
use test_tools::same_text;
use tree_laws::Steps;
use view_ports::{FileName, Folder, Stem};

/// What a stop left: whether the index shows what it did before the update, and how long its file is.
#[derive(Clone, Copy)]
struct Left {
    is_old: bool,
    length: u64,
}

/// How long the file of the index is. The other side of the pair is never made.
fn length(alloc: Global, bench: &mut Bench) -> Result<u64, Fail> {
    let stem = Stem::View(bench.signature(alloc)?);
    Ok(bench.folder.len(FileName { stem, side: false })?)
}

/// What was left, where the index shows one of these two texts.
fn look<L: Ledger>(
    alloc: Global,
    bench: &mut Bench,
    cache: &mut NodeCache,
    steps: &mut Steps<L>,
    may: &[&str; 2],
) -> Result<Left, Fail> {
    let [before, after] = may;
    let length = length(alloc, bench)?;
    let shown = bench.found(alloc, cache, steps)?;
    if shown.as_slice() == before.as_bytes() {
        return Ok(Left {
            is_old: true,
            length,
        });
    }
    same_text(Ok(String::from_utf8(shown)?), after, "left")?;
    Ok(Left {
        is_old: false,
        length,
    })
}

/// Updates the index, which shows this text then.
fn update_to<L: Ledger>(
    alloc: Global,
    bench: &mut Bench,
    cache: &mut NodeCache,
    steps: &mut Steps<L>,
    want: &str,
) -> Result<(), Fail> {
    let mut shown = Vec::new(alloc);
    bench.update(alloc, cache, steps, &mut shown)?;
    same_text(Ok(String::from_utf8(shown)?), want, "updated")
}

/// How many choices of what a stop leaves are tried in each call of the script: nothing that wasn't synced, all of it, 255 in each
/// place that was written, and mixtures.
const CHOICES: u64 = 12;

/// A stop within a call of the script leaves what the index showed before the turn or behind it. An update behind it shows what the
/// documents have that are left.
fn stop_in_turn<L: Ledger>(
    alloc: Global,
    whole: &MemoryFolder,
    call: u64,
    choice: u64,
    may: &[&str; 2],
    steps: &mut Steps<L>,
) -> Result<(), Fail>
    requires { call < calls_told (told whole.now) }
{
    let image = whole.image_at(alloc, call, choice)?;
    let mut bench = Bench::new(alloc, image, &[])?;
    let mut cache = NodeCache::new(alloc, 16)?;
    look(alloc, &mut bench, &mut cache, steps, may)?;
    let count = bench.written(alloc)?;
    let want = shown_behind(count as usize);
    update_to(alloc, &mut bench, &mut cache, steps, want)
}

/// Plays the turns, and answers how many calls on the folder were made behind each.
fn play<L: Ledger>(
    alloc: Global,
    bench: &mut Bench,
    steps: &mut Steps<L>,
) -> Result<Vec<u64>, Fail> {
    let mut cache = NodeCache::new(alloc, 16)?;
    let mut ends = Vec::new(alloc);
    let mut before = 0_usize;
    for count in TURNS {
        put_next(alloc, bench, before, count)?;
        before = before.saturating_add(count);
        update_to(alloc, bench, &mut cache, steps, shown_behind(before))?;
        ends.push(bench.folder.calls_noted())?;
    }
    Ok(ends)
}

/// What the index may show after a stop within this call of turns that ended at these calls.
fn may_show(ends: &[u64], call: u64) -> [&'static str; 2] {
    let done = ends.iter().filter(|end| **end <= call).count();
    [shown_after(done), shown_after(done.saturating_add(1))]
}

/// Stops within this call, with each choice of what is left.
fn stop_in_call<L: Ledger>(
    alloc: Global,
    whole: &MemoryFolder,
    call: u64,
    may: &[&str; 2],
    steps: &mut Steps<L>,
) -> Result<(), Fail>
    requires { call < calls_told (told whole.now) }
{
    for choice in 0..CHOICES {
        stop_in_turn(alloc, whole, call, choice, may, steps)?;
    }
    Ok(())
}

/// Stops within each call of turns that ended at these calls.
fn stop_in_each<L: Ledger>(
    alloc: Global,
    bench: &Bench,
    ends: &[u64],
    steps: &mut Steps<L>,
) -> Result<(), Fail> {
    let whole = &bench.folder;
    for call in 0..whole.calls_noted() {
        stop_in_call(alloc, whole, call, &may_show(ends, call), steps)?;
    }
    Ok(())
}

/// Stops within each call of the script, and answers how many calls these are.
fn stop_in_script<L: Ledger>(alloc: Global, blank: Blank) -> Result<u64, Fail>
    requires name { blank.name ≡ L.name }
    requires parts { blank.parts ≡ L.parts }
    requires some { 0 < L.parts }
{
    let mut steps = Steps::<L>::new(blank);
    let folder = MemoryFolder::new(alloc, Vec::new(alloc), true)?;
    let mut bench = Bench::new(alloc, folder, &[])?;
    let ends = play(alloc, &mut bench, &mut steps)?;
    stop_in_each(alloc, &bench, &ends, &mut steps)?;
    Ok(bench.folder.calls_noted())
}

#[test]
fn a_stop_in_a_turn_leaves_what_can_be_updated(rt: HostRuntime) -> Result<(), Fail> {
    let calls = stop_in_script::<Brand>(rt.alloc(), Blank::new(1))?;
    assert!(rt; calls > 200, "{calls}");
    Ok(())
}

/// How many of an update's last calls are tried, among which are all that put nodes.
const LAST: u64 = 100;

/// The choices of what a stop leaves that are tried in each: all that was written, and 255 in each place of it.
const KEPT: [u64; 2] = [1, 2];

/// How many stops left what was there before the update, at how many of these the file was longer than at all before them, and how many
/// left what is there behind the update.
#[derive(Clone, Copy)]
struct Stops {
    before: u64,
    longer: u64,
    behind: u64,
    longest: u64,
}

impl Stops {
    /// Counts one more.
    fn count(&mut self, left: Left) {
        if !left.is_old {
            self.behind = self.behind.saturating_add(1);
            return;
        }
        self.before = self.before.saturating_add(1);
        if left.length > self.longest {
            self.longest = left.length;
            self.longer = self.longer.saturating_add(1);
        }
    }
}

/// A stop within a call of an update leaves one of these two texts, and an update behind it shows the second one.
fn stop_in_update<L: Ledger>(
    alloc: Global,
    whole: &MemoryFolder,
    call: u64,
    choice: u64,
    may: &[&str; 2],
    steps: &mut Steps<L>,
) -> Result<Left, Fail>
    requires { call < calls_told (told whole.now) }
{
    let image = whole.image_at(alloc, call, choice)?;
    let mut bench = Bench::new(alloc, image, &[])?;
    let mut cache = NodeCache::new(alloc, 16)?;
    let left = look(alloc, &mut bench, &mut cache, steps, may)?;
    update_to(alloc, &mut bench, &mut cache, steps, may[1])?;
    Ok(left)
}

/// Stops within each of an update's last calls, which are those that the folder noted. The file had this length before.
fn stop_in_calls<L: Ledger>(
    alloc: Global,
    whole: &MemoryFolder,
    may: &[&str; 2],
    length: u64,
    steps: &mut Steps<L>,
) -> Result<Stops, Fail> {
    let mut stops = Stops {
        before: 0,
        longer: 0,
        behind: 0,
        longest: length,
    };
    let calls = whole.calls_noted();
    for call in calls.saturating_sub(LAST)..calls {
        for choice in KEPT {
            let left = stop_in_update(alloc, whole, call, choice, may, steps)?;
            stops.count(left);
        }
    }
    Ok(stops)
}

/// What is there, as a folder that notes its calls from now on.
fn settled(alloc: Global, folder: &MemoryFolder) -> Result<MemoryFolder, Fail> {
    let calls = folder.calls_noted();
    if calls == 0 {
        return Err(Fail::from("no calls were noted"));
    }
    Ok(folder.image_at(alloc, calls - 1, 1)?)
}

/// Puts the documents with these numbers, updates the index, which shows one text before and another one behind that, and stops within
/// the update.
fn stop_behind_puts<L: Ledger>(
    alloc: Global,
    bench: &mut Bench,
    numbers: [u64; 2],
    may: &[&str; 2],
    steps: &mut Steps<L>,
) -> Result<Stops, Fail> {
    let [first, end] = numbers;
    for number in first..end {
        put(alloc, bench, number, number, None)?;
    }
    let length = length(alloc, bench)?;
    bench.folder = settled(alloc, &bench.folder)?;
    let mut cache = NodeCache::new(alloc, 16)?;
    update_to(alloc, bench, &mut cache, steps, may[1])?;
    stop_in_calls(alloc, &bench.folder, may, length, steps)
}

/// Stops within an update of 128 documents, and within one of 32 more.
fn stop_in_both<L: Ledger>(alloc: Global, blank: Blank) -> Result<[Stops; 2], Fail>
    requires name { blank.name ≡ L.name }
    requires parts { blank.parts ≡ L.parts }
    requires some { 0 < L.parts }
{
    let mut steps = Steps::<L>::new(blank);
    let folder = MemoryFolder::new(alloc, Vec::new(alloc), true)?;
    let mut bench = Bench::new(alloc, folder, &[])?;
    let first = shown_of(alloc, 128, 128, 127)?;
    let may = ["0[][]", first.as_str()];
    let stops = stop_behind_puts(alloc, &mut bench, [0, 128], &may, &mut steps)?;
    let second = shown_of(alloc, 160, 160, 159)?;
    let may = [first.as_str(), second.as_str()];
    let more = stop_behind_puts(alloc, &mut bench, [128, 160], &may, &mut steps)?;
    Ok([stops, more])
}

/// Several nodes of each tree are put before the root record: a stop among them leaves the rows of the last commit in a longer file.
#[test]
fn a_stop_among_the_nodes_of_an_update_leaves_the_last_commit(rt: HostRuntime) -> Result<(), Fail> {
    for stops in stop_in_both::<Brand>(rt.alloc(), Blank::new(1))? {
        let Stops {
            before,
            longer,
            behind,
            ..
        } = stops;
        assert!(rt; longer >= 6 && behind >= 1, "{before}, {longer}, {behind}");
    }
    Ok(())
}
