//! A tree in a file.

ghost use Rattle.std.specs.Prelude.{◌≡◌, ◌<◌, OnOk};
ghost use Rattle.gate_file.specs.Calls.{KeepsIn, Told};

use crate::ask::ask;
use crate::build::{build, replace};
use crate::words::Task;
use builtin_reduces::BuiltinSummer;
use design_docs::Builtin;
use gate_file::{GateFault, GateFile};
use json_terms::NoMemory;
use node_file::{FileNodes, NodeCache};
use std::alloc::Global;
use std::sync::ledger::{Blank, Ledger};
use tree_laws::{Steps, Tree, TreeFault};
use tree_tools::SizedTree;
use view_ports::{Folder, Stem};

/// Does the task in the documents' file of a folder, commits the tree, and answers the file's length in bytes and what the questions'
/// answers add up to.
pub fn run_in_a_file<F: Folder, L: Ledger>(
    alloc: Global,
    task: &Task,
    folder: &mut F,
    blank: Blank,
) -> Result<(u64, u64), TreeFault<GateFault, NoMemory>>
    requires name { blank.name ≡ L.name }
    requires parts { blank.parts ≡ L.parts }
    requires some { 0 < L.parts }
{
    let mut steps = Steps::<L>::new(blank);
    let mut file = match GateFile::open(folder, Stem::Docs) {
        Ok(file) => file,
        Err(fault) => return Err(TreeFault::Store(fault)),
    };
    let mut cache = NodeCache::new(alloc, 256)?;
    let tree = built(alloc, task, &mut cache, folder, &mut file, &mut steps)?;
    match commit(folder, &mut file, tree.tree()) {
        Ok(()) => {}
        Err(fault) => return Err(TreeFault::Store(fault)),
    }
    let length = file.length();
    let mut summer = BuiltinSummer::new(Builtin::Count);
    let mut nodes = FileNodes::over(&mut cache, folder, &mut file);
    let answers = ask(alloc, task, &mut nodes, &mut summer, &tree, &mut steps)?;
    Ok((length, answers))
}

/// Builds the tree and replaces rows of it.
fn built<F: Folder, L: Ledger>(
    alloc: Global,
    task: &Task,
    cache: &mut NodeCache,
    folder: &mut F,
    file: &mut GateFile,
    steps: &mut Steps<L>,
) -> Result<SizedTree, TreeFault<GateFault, NoMemory>>
    requires { Told F.Folder folder.old (KeepsIn file.old) }
    ensures { OnOk result (Told F.Folder folder.new (KeepsIn file.new)) }
{
    let mut summer = BuiltinSummer::new(Builtin::Count);
    let mut nodes = FileNodes::over(cache, folder, file);
    let tree = build(alloc, task, &mut nodes, &mut summer, steps)?;
    let tree = replace(alloc, task, &mut nodes, &mut summer, tree, steps)?;
    Ok(tree)
}

/// Commits the place of the tree's root.
fn commit<F: Folder>(folder: &mut F, file: &mut GateFile, tree: Tree) -> Result<(), GateFault>
    requires { Told F.Folder folder.old (KeepsIn file.old) }
    ensures { OnOk result (Told F.Folder folder.new (KeepsIn file.new)) }
{
    let at = file.append(folder, &tree.root.to_le_bytes())?;
    file.commit(folder, at, 8)
}
