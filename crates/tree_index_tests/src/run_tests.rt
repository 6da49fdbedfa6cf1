//! Requests on an index whose folder never fails.

ghost use Rattle.std.specs.Prelude.{◌≡◌, ◌<◌};

use crate::indexes::{Bench, Seen, Turn, play};
use crate::scripts::{REFUSALS, SCRIPT};
use crash_disk::MemoryFolder;
use std::alloc::Global;
use std::marker::Brand;
use std::sync::ledger::{Blank, Ledger};
use std::test::Fail;
use test_tools::same_text;

/// Each turn is seen as it is written.
fn same_turns(alloc: Global, seen: Vec<Seen>, turns: &[Turn]) -> Result<(), Fail> {
    let mut number = 0_u32;
    for (one, (_request, text, length)) in seen.into_iter().zip(turns) {
        let place = format!(in alloc; "turn {number}")?;
        number = number.saturating_add(1);
        same_text(Ok(String::from_utf8(one.text)?), text, &place)?;
        let given = format!(in alloc; "{}", one.length)?;
        let length = format!(in alloc; "{length}")?;
        same_text(Ok(given), &length, &place)?;
    }
    Ok(())
}

fn run_all<L: Ledger>(alloc: Global, blank: Blank) -> Result<(), Fail>
    requires name { blank.name ≡ L.name }
    requires parts { blank.parts ≡ L.parts }
    requires some { 0 < L.parts }
{
    let mut bench = Bench::<L>::new(alloc, blank)?;
    for turns in [SCRIPT, REFUSALS] {
        bench.take(MemoryFolder::new(alloc, Vec::new(alloc), false)?);
        let seen = play(alloc, &mut bench, turns)?;
        same_turns(alloc, seen, turns)?;
    }
    Ok(())
}

/// An index shows the rows of its last commit, and its file grows by what was put.
#[test]
fn requests_show_what_is_written(rt: HostRuntime) -> Result<(), Fail> {
    run_all::<Brand>(rt.alloc(), Blank::new(1))
}
