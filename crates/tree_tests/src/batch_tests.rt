//! Batches of edits beside a map.

ghost use Rattle.std.specs.Prelude.{◌≡◌, ◌<◌};

use crate::case::{Case, changes_by_chance};
use builtin_reduces::RowItem;
use design_docs::Builtin;
use reduce_tree::edits_are_made;
use std::alloc::Global;
use std::marker::Brand;
use std::sync::ledger::{Blank, Ledger};
use std::test::Fail;
use tree_laws::Steps;
use tree_tools::Chance;

/// Batches by chance: a seed, how many batches, the size of one at most, how many keys there are, how many of ten changes insert,
/// and after how many batches the tree is walked.
const SMALL: &[(u64, u64, u64, u64, u64, u64)] = &[
    (1, 700, 40, 400, 5, 7),
    (2, 1_500, 1, 60, 5, 5),
    (7, 400, 200, 150, 5, 10),
];

const GROWING: &[(u64, u64, u64, u64, u64, u64)] = &[
    (3, 400, 60, 3_000, 7, 40),
    (4, 40, 1_000, 20_000, 9, 10),
];

const CHANGING: &[(u64, u64, u64, u64, u64, u64)] = &[
    (5, 80, 1_000, 20_000, 4, 20),
    (6, 300, 3, 2_000, 8, 20),
];

fn run_series<L: Ledger>(
    alloc: Global,
    series: &[(u64, u64, u64, u64, u64, u64)],
    blank: Blank,
) -> Result<u64, Fail>
    requires name { blank.name ≡ L.name }
    requires parts { blank.parts ≡ L.parts }
    requires some { 0 < L.parts }
{
    edits_are_made::<RowItem>();
    let mut steps = Steps::<L>::new(blank);
    let mut edits: u64 = 0;
    for (seed, batches, most, span, inserting, walks) in series {
        let mut chance = Chance::new(*seed);
        let mut case = Case::new(alloc, Builtin::Sum, Vec::new(alloc));
        for batch in 0..*batches {
            let count = chance.below(most.saturating_add(1));
            let changes = changes_by_chance(alloc, &mut chance, count, 0, *span, *inserting)?;
            edits = edits.saturating_add(changes.len() as u64);
            case.change(alloc, &changes, &mut steps)?;
            if batch.checked_rem(*walks) == Some(0) {
                case.is_right(alloc, &mut steps)?;
            }
        }
        case.is_right(alloc, &mut steps)?;
    }
    Ok(edits)
}

#[test]
fn batches_in_small_trees(rt: HostRuntime) -> Result<(), Fail> {
    let edits = run_series::<Brand>(rt.alloc(), SMALL, Blank::new(1))?;
    assert!(rt; edits > 35_000, "{edits}");
    Ok(())
}

#[test]
fn batches_in_growing_trees(rt: HostRuntime) -> Result<(), Fail> {
    let edits = run_series::<Brand>(rt.alloc(), GROWING, Blank::new(1))?;
    assert!(rt; edits > 25_000, "{edits}");
    Ok(())
}

#[test]
fn batches_in_changing_trees(rt: HostRuntime) -> Result<(), Fail> {
    let edits = run_series::<Brand>(rt.alloc(), CHANGING, Blank::new(1))?;
    assert!(rt; edits > 35_000, "{edits}");
    Ok(())
}
