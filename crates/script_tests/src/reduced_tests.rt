//! Reduced views of some hundred documents, whose trees have many leaves.

use crate::sales::Sales;
use crash_disk::MemoryFolder;
use std::test::Fail;

/// How many documents there are, deleted ones too.
const COUNT: usize = 400;

#[test]
fn reduced_views_are_as_mapped_afresh(rt: HostRuntime) -> Result<(), Fail> {
    let alloc = rt.alloc();
    let mut folder = MemoryFolder::new(alloc, Vec::new(alloc), false)?;
    let mut sales = Sales::new(alloc, 3, COUNT)?;
    sales.ask(alloc)?;
    for times in [1, 5, 40, 300] {
        sales.change_some(times)?;
        sales.ask(alloc)?;
    }
    sales.settle(alloc, &mut folder)?;
    Ok(())
}

/// Each engine finds the index of the one before, at first as of the last write, and then behind it.
#[test]
fn reduced_views_are_the_same_when_opened_anew(rt: HostRuntime) -> Result<(), Fail> {
    let alloc = rt.alloc();
    let mut folder = MemoryFolder::new(alloc, Vec::new(alloc), false)?;
    let mut sales = Sales::new(alloc, 4, COUNT)?;
    sales.ask(alloc)?;
    sales.settle(alloc, &mut folder)?;
    for times in [0, 1, 40, 300] {
        sales.change_some(times)?;
        sales.settle(alloc, &mut folder)?;
        sales.ask(alloc)?;
        sales.settle(alloc, &mut folder)?;
        sales.ask(alloc)?;
        sales.settle(alloc, &mut folder)?;
    }
    Ok(())
}
