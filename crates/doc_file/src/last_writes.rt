//! The last writes of all ids, in byte order of id.

ghost use Rattle.std.specs.Prelude.{◌≡◌, ◌++◌, IfOk, OnOk};
ghost use Rattle.doc_file.specs.Held.{find_last};
ghost use Rattle.doc_file.specs.Places.{IsPlace};
ghost use Rattle.doc_file.specs.Stored.{with_last};

use crate::entry::{Entry, LastWrite};
use json_terms::{Chars, NoMemory};
use std::alloc::Global;
use std::cmp::Ordering;

/// The last write of an id among these.
pub(crate) fn find_last(id: &str, entries: &[Entry]) -> Option<LastWrite>
    ensures { result ≡ find_last id.now entries.now }
{
    for entry in entries {
        if id == entry.id.as_str() {
            return Some(entry.last);
        }
    }
    None
}

/// The entries with the last write of this id set. The one error is want of memory.
pub(crate) fn with_last(
    alloc: Global,
    entries: &[Entry],
    id: Chars,
    last: LastWrite,
) -> Result<Vec<Entry>, NoMemory>
    ensures { IfOk result (λ next. next.items ≡ with_last id last entries.now) }
{
    let place = place_of(id.as_str(), entries);
    let mut next = Vec::with_capacity(alloc, entries.len())?;
    copy_entries(alloc, &entries[..place.before], &mut next)?;
    next.push(Entry { id, last })?;
    copy_entries(alloc, &entries[place.behind..], &mut next)?;
    Ok(next)
}

/// How many entries stand before the one of an id, and how many before the first one behind it.
#[derive(Drop)]
pub(crate) struct Place {
    before: usize,
    behind: usize,
}

fn place_of(id: &str, entries: &[Entry]) -> Place
    ensures { IsPlace id.now entries.now result }
{
    for (index, entry) in entries.iter().enumerate() {
        match id.cmp(entry.id.as_str()) {
            Ordering::Less => {
                return Place {
                    before: index,
                    behind: index,
                };
            }
            Ordering::Equal => {
                return Place {
                    before: index,
                    behind: index + 1,
                };
            }
            Ordering::Greater => {}
        }
    }
    Place {
        before: entries.len(),
        behind: entries.len(),
    }
}

fn copy_entries(alloc: Global, entries: &[Entry], to: &mut Vec<Entry>) -> Result<(), NoMemory>
    ensures { OnOk result (to.new.items ≡ to.old.items ++ entries.now) }
{
    for entry in entries {
        to.push(entry.copy(alloc)?)?;
    }
    Ok(())
}
