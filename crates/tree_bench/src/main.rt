//! tree_bench: builds a tree of rows in batches, replaces rows of it one by one, and prints what that took of its store.
//!
//! `tree_bench ORDER ITEMS BATCH EDITS memory|file QUESTION TIMES` with ORDER `rising` or `random`; with `sort` in its place the
//! same rows are only sorted and spelled. The nodes stand in memory, or in the file `docs.0` of the folder that it runs in.
//! QUESTION is `count`, `reduce`, `walk` or `decode`. Without words a small tree is built in memory and asked for a few counts.
#![tactic(auto)]

mod ask;
mod build;
mod count;
mod file;
mod memory;
mod rows;
mod words;

use crate::file::run_in_a_file;
use crate::memory::run_in_memory;
use crate::rows::sort_and_spell;
use crate::words::{Order, Task, read_words};
use real_ports::{Diagnostics, Program, RealFolder};
use std::env;
use std::marker::Brand;
use std::sync::ledger::Blank;

fn told(rt: HostRuntime, task: &Task) -> anyhow::Result<String> {
    let alloc = rt.alloc();
    if task.in_a_file {
        let mut folder = RealFolder::new(rt, Diagnostics::new(rt, Program::Couchview));
        return match run_in_a_file::<_, Brand>(alloc, task, &mut folder, Blank::new(1)) {
            Ok((length, answers)) => Ok(format!(in alloc;
                "built in a file of {length} bytes; asked: {answers} in all"
            )?),
            Err(_) => anyhow::bail!("no tree is built"),
        };
    }
    if task.order == Order::Sort {
        let Ok(bytes) = sort_and_spell(alloc, task) else {
            anyhow::bail!("no memory");
        };
        return Ok(format!(in alloc; "sorted and spelled {} rows: {bytes} bytes", task.items)?);
    }
    match run_in_memory::<Brand>(alloc, task, Blank::new(1)) {
        Ok(told) => told.text(alloc, task),
        Err(_) => anyhow::bail!("no tree is built"),
    }
}

fn main(rt: HostRuntime) -> anyhow::Result<()> {
    let alloc = rt.alloc();
    let mut words = Vec::new(alloc);
    for word in env::args(&rt)?.skip(1) {
        words.push(word)?;
    }
    let told = told(rt, &read_words(&words))?;
    println!(rt; "{told}")?;
    Ok(())
}
