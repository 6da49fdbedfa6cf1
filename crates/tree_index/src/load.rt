//! Reading what the file of an index says.

ghost use Rattle.std.specs.Prelude.{◌≡◌, IfErr, IfOk, IsTrue, length};
ghost use Rattle.view_ports.specs.Disk.{MovesNone};
ghost use Rattle.gate_file.specs.Calls.{Moved, ReadsUpTo, Told};
ghost use Rattle.gate_file.specs.GateFile.{root_of};
ghost use Rattle.gate_file.specs.Pair.{own_bytes};
ghost use Rattle.gate_file.specs.RootPlace.{IsRootDamage};
ghost use Rattle.tree_index.specs.Calls.{IsCounted};
ghost use Rattle.tree_index.specs.Held.{SpellsRoot};
ghost use Rattle.tree_index.specs.Held.{Says, nothing_said};
ghost use Rattle.tree_index.specs.Opens.{FindsDamage, IsOpenFault, said_in};
ghost use Rattle.tree_index.specs.Sizes.{are_sizes};

use crate::fault::IndexFault;
use crate::trees::{no_tree, no_trees};
use gate_file::{GateFault, GateFile};
use index_items::{IndexRoot, read_root};
use json_terms::NoMemory;
use std::alloc::Global;
use view_ports::Folder;

/// What the root record of an open file says; without one there are no rows. The file is `Damaged` at the place of the record
/// exactly where it is none of so many views.
pub(crate) fn load_root<F: Folder>(
    alloc: Global,
    folder: &mut F,
    file: &GateFile,
    views: u32,
) -> Result<IndexRoot, IndexFault>
    ensures says { Told F.Folder folder.old (λ d. IfOk result
        (λ root. Says views (root_of file.now) (own_bytes file.now d.now) (said_in root))) }
    ensures number { IfOk result (λ root. length root.views.items ≡ views) }
    ensures sizes { IfOk result (λ root. IsTrue (are_sizes root.views.items root.back)) }
    ensures damaged { Told F.Folder folder.old (λ d. FindsDamage (IsRootDamage (SpellsRoot views) file.now (own_bytes file.now d.now)) result) }
    ensures faults { IfErr result IsOpenFault }
    ensures disk { Moved F.Folder folder.old folder.new MovesNone }
    ensures cause { IsCounted F.Folder folder.old folder.new result }
    ensures reads { ReadsUpTo F.Folder 1 folder.old folder.new }
{
    match file.root() {
        Some((offset, length)) => {
            let name = file.name();
            let bytes = GateFile::read(alloc, folder, name, offset, length)?;
            match read_root(alloc, bytes.as_slice(), views, offset)? {
                Some(root) => Ok(root),
                None => Err(IndexFault::Store(GateFault::Damaged { name, offset })),
            }
        }
        None => Ok(no_root(alloc, views)?),
    }
}

/// What is said without a root record.
fn no_root(alloc: Global, views: u32) -> Result<IndexRoot, NoMemory>
    ensures { IfOk result (λ root. said_in root ≡ nothing_said views) }
{
    Ok(IndexRoot {
        seq: 0,
        views: no_trees(alloc, views as usize)?,
        back: no_tree(),
    })
}
