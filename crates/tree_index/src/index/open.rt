//! Opening an index.

ghost use Rattle.std.specs.Prelude.{◌<◌, ◌^◌};
ghost use Rattle.view_ports.specs.declared.file_name.Stem.{Stem as StemSeen};
ghost use Rattle.tree_index.specs.Opens.{Loads, Opens};

use super::Index;
use crate::fault::IndexFault;
use crate::load::load_root;
use crate::shown::Shown;
use crate::trees::copied;
use gate_file::GateFile;
use index_trees::IndexTrees;
use std::alloc::Global;
use view_ports::{Folder, Stem};

impl Index {
    /// Opens the index of the views with this signature. Without a commit its sequence is 0, and it has no rows.
    ///
    /// An index whose sequence passes `newest` is emptied: the documents that it shows were not kept.
    ///
    /// A file is `Damaged` where a slot of the pair is, the first one being named, and else at the place of the root record where
    /// this is no record of so many views. No node is read. Opening empties the side of the pair that isn't taken, so nothing else
    /// may use the files. Ten reads are made at most.
    pub fn open<F: Folder>(
        alloc: Global,
        folder: &mut F,
        sig: [u8; 32],
        views: u32,
        newest: u64,
    ) -> Result<Index, IndexFault>
        requires few { views < 2 ^ 16 }
        ensures { Opens F.Folder (StemSeen.View sig) views newest folder.old folder.new result }
    {
        let stem = Stem::View(sig);
        let index = Index::load(alloc, folder, stem, views)?;
        if index.seq <= newest {
            return Ok(index);
        }
        GateFile::clear(folder, index.file.name())?;
        Index::load(alloc, folder, stem, views)
    }

    /// Opens the pair of files, and reads the root record.
    fn load<F: Folder>(
        alloc: Global,
        folder: &mut F,
        stem: Stem,
        views: u32,
    ) -> Result<Index, IndexFault>
        requires few { views < 2 ^ 16 }
        ensures { Loads F.Folder stem views folder.old folder.new result }
    {
        let file = GateFile::open(folder, stem)?;
        let root = load_root(alloc, folder, &file, views)?;
        let last = IndexTrees {
            views: root.views,
            back: root.back,
        };
        let next = copied(alloc, &last)?;
        let shown = Shown::told(folder, &file, &last);
        Ok(Index {
            file,
            seq: root.seq,
            last,
            next,
            shown,
        })
    }
}
