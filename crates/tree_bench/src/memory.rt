//! A tree in memory.

ghost use Rattle.std.specs.Prelude.{◌≡◌, ◌<◌};

use crate::ask::ask;
use crate::build::{build, replace};
use crate::count::{Nodes, count_nodes};
use crate::words::Task;
use builtin_reduces::BuiltinSummer;
use design_docs::Builtin;
use json_terms::NoMemory;
use std::alloc::Global;
use std::fmt::Write;
use std::sync::ledger::{Blank, Ledger};
use tree_laws::{MemoryFault, MemoryNodes, Steps, TreeFault};

/// What a task took of the store.
#[derive(Clone, Copy)]
pub struct Told {
    height: u32,
    rows: u64,
    nodes: Nodes,
    puts: usize,
    gets: u64,
    later_puts: usize,
    later_gets: u64,
    answers: u64,
}

impl Told {
    /// One line for each part of the task.
    pub fn text(&self, alloc: Global, task: &Task) -> anyhow::Result<String> {
        let mut text = format!(in alloc; "built {} rows in batches of {}", self.rows, task.batch)?;
        write!(text, ": {} puts, {} gets\n", self.puts, self.gets)?;
        write!(
            text,
            "height {}, {} leaves, ",
            self.height, self.nodes.leaves
        )?;
        write!(
            text,
            "{} inner nodes of {} children\n",
            self.nodes.inner, self.nodes.children
        )?;
        write!(text, "replaced {} one by one", task.edits)?;
        write!(
            text,
            ": {} puts, {} gets\n",
            self.later_puts, self.later_gets
        )?;
        write!(text, "asked {} times: {} in all", task.times, self.answers)?;
        Ok(text)
    }
}

/// Does the task in memory.
pub fn run_in_memory<L: Ledger>(
    alloc: Global,
    task: &Task,
    blank: Blank,
) -> Result<Told, TreeFault<MemoryFault, NoMemory>>
    requires name { blank.name ≡ L.name }
    requires parts { blank.parts ≡ L.parts }
    requires some { 0 < L.parts }
{
    let mut steps = Steps::<L>::new(blank);
    let mut store = MemoryNodes::new(alloc, Vec::new(alloc));
    let mut summer = BuiltinSummer::new(Builtin::Count);
    let tree = build(alloc, task, &mut store, &mut summer, &mut steps)?;
    let (puts, gets) = (store.len(), store.reads());
    let nodes = count_nodes(alloc, &mut store, tree.tree(), &mut steps)?;
    let counted = store.reads();
    let height = tree.tree().height;
    let rows = tree.tree().count;
    let tree = replace(alloc, task, &mut store, &mut summer, tree, &mut steps)?;
    let later_puts = store.len().saturating_sub(puts);
    let later_gets = store.reads().saturating_sub(counted);
    let answers = ask(alloc, task, &mut store, &mut summer, &tree, &mut steps)?;
    Ok(Told {
        height,
        rows,
        nodes,
        puts,
        gets,
        later_puts,
        later_gets,
        answers,
    })
}
