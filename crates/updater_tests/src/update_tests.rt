//! Indexes after updates, and what is asked for them.

ghost use Rattle.std.specs.Prelude.{◌≡◌, ◌<◌};

use crate::benches::{Bench, is_refused};
use crate::scripts::{TURNS, put_next, shown_behind};
use crash_disk::MemoryFolder;
use node_file::NodeCache;
use std::alloc::Global;
use std::marker::Brand;
use std::sync::ledger::{Blank, Ledger};
use std::test::Fail;
use tree_laws::Steps;

const NEVER: u64 = u64::MAX;

/// Two calls on the servers that fail, and the number of writes before each update that is refused.
///
/// The first update makes the calls of the start, 0; `reset`, 1 and 2; `add_fun`, 3 to 6; and `map_doc` of three documents, 7 to 12.
/// The child is kept. The second update makes none, nor do those behind a deletion alone and behind a design document alone. The
/// calls behind the fourth write are 13 to 20, those behind the sixth 21 to 28, and those behind the last 29 to 36. A call that
/// fails alone is made good.
const FAILING: &[([u64; 2], &[usize])] = &[
    ([NEVER, NEVER], &[]),
    ([0, 1], &[3]),
    ([6, 7], &[3]),
    ([12, 13], &[3]),
    ([12, NEVER], &[]),
    ([13, 14], &[4]),
    ([20, 21], &[4]),
    ([21, 22], &[6]),
    ([28, 29], &[6]),
    ([29, 30], &[11]),
    ([36, 37], &[11]),
    ([37, 38], &[]),
];

/// The number of writes before each update that is refused where these calls fail.
fn refused_with<L: Ledger>(
    alloc: Global,
    fail: &[u64; 2],
    steps: &mut Steps<L>,
) -> Result<Vec<usize>, Fail> {
    let folder = MemoryFolder::new(alloc, Vec::new(alloc), false)?;
    let mut bench = Bench::new(alloc, folder, fail)?;
    let mut cache = NodeCache::new(alloc, 16)?;
    let mut refused = Vec::new(alloc);
    let mut before = 0_usize;
    for count in TURNS {
        let next = before.saturating_add(count);
        put_next(alloc, &mut bench, before, count)?;
        let texts = [shown_behind(before), shown_behind(next)];
        if is_refused(alloc, &mut bench, &mut cache, steps, texts)? {
            refused.push(next)?;
        }
        before = next;
    }
    Ok(refused)
}

fn update_all<L: Ledger>(alloc: Global, blank: Blank) -> Result<(), Fail>
    requires name { blank.name ≡ L.name }
    requires parts { blank.parts ≡ L.parts }
    requires some { 0 < L.parts }
{
    let mut steps = Steps::<L>::new(blank);
    for (fail, want) in FAILING {
        let refused = refused_with(alloc, fail, &mut steps)?;
        if refused.as_slice() != *want {
            return Err(Fail::new(format_args!("{fail:?}: {refused:?} are refused")));
        }
    }
    Ok(())
}

#[test]
fn an_update_shows_what_was_written_and_asks_for_nothing_else(rt: HostRuntime) -> Result<(), Fail> {
    update_all::<Brand>(rt.alloc(), Blank::new(1))
}
