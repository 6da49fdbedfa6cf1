//! Making the exchanges.

ghost use Rattle.std.specs.Prelude.{◌≡◌, length};
ghost use Rattle.gate_file.specs.Calls.{Told};
ghost use Rattle.tree_index.specs.Calls.{Commits, IsOpen};
ghost use Rattle.tree_index.specs.Index.{file_of, last_of, next_in, next_of, picture_of};
ghost use Rattle.tree_index.specs.Trees.{seen};

use super::Index;
use crate::fault::IndexFault;
use crate::trees::set_trees;
use index_items::write_root;
use std::alloc::Global;
use view_ports::Folder;

impl Index {
    /// Makes the exchanges since the last commit, by one commit, at this update sequence. The file gets 38 bytes longer, and 20
    /// for each view; a new one is made with 8,192 bytes, which come on top.
    ///
    /// At each moment a crash leaves the index of the last commit or the new one. `Full` comes where the file would be too long
    /// or has all of its commits, `DiskFault` where the folder failed, and after these the object is not to be used again. Want
    /// of memory leaves the folder and the object as they were.
    pub fn commit<F: Folder>(
        &mut self,
        alloc: Global,
        folder: &mut F,
        seq: u64,
    ) -> Result<(), IndexFault>
        requires open { Told F.Folder folder.old (λ d. IsOpen self.old d.now) }
        ensures { Commits F.Folder self.old self.new folder.old folder.new seq result }
    {
        let mut bytes = Vec::new(alloc);
        let next = &self.next;
        write_root(alloc, seq, next.views.as_slice(), next.back, &mut bytes)?;
        self.file.publish(folder, bytes.as_slice(), 0)?;
        self.settle(seq);
        Ok(())
    }

    /// Makes the next trees those of the last commit, without taking memory.
    fn settle(&mut self, seq: u64)
        ensures file { file_of self.new ≡ file_of self.old }
        ensures picture { picture_of self.new ≡ record { seq = seq; rows = next_in self.old } }
        ensures last { seen (last_of self.new) ≡ seen (next_of self.old) }
        ensures next { next_of self.new ≡ next_of self.old }
        ensures rows { next_in self.new ≡ next_in self.old }
    {
        set_trees(&mut self.last, &self.next);
        self.shown = self.shown.committed();
        self.seq = seq;
    }
}
