//! Removing the files of indexes that no design has.

ghost use Rattle.std.specs.Prelude.{◌≡◌};
ghost use Rattle.tree_groups.specs.Cleans.{Cleans};
ghost use Rattle.tree_groups.specs.Removing.{IsNamed, RemovesEach};

use super::Groups;
use std::alloc::Global;
use tree_index::{Index, IndexFault};
use view_ports::{FileName, Folder, Stem};

impl Groups {
    /// Takes the bytes of all files away that are of an index, but for those of these signatures.
    ///
    /// At each moment a crash leaves the picture of each signature wholly or not at all. For want of memory nothing is done. After
    /// a fault of the disk and damage nothing of this is to be used again.
    pub fn clean_up<F: Folder>(
        &mut self,
        alloc: Global,
        folder: &mut F,
        kept: &[[u8; 32]],
    ) -> Result<(), IndexFault>
        ensures { Cleans kept.now F.Folder self.old self.new folder.old folder.new result }
    {
        let names = folder.names(alloc)?;
        self.remove_each(folder, names.as_slice(), kept)
    }

    /// Removes the indexes of these files, one after another, but for those of these signatures.
    fn remove_each<F: Folder>(
        &mut self,
        folder: &mut F,
        names: &[FileName],
        kept: &[[u8; 32]],
    ) -> Result<(), IndexFault>
        ensures { RemovesEach kept.now (IsNamed names.now) F.Folder
            self.old self.new folder.old folder.new result }
    {
        for name in names {
            self.remove_unless_kept(folder, name.stem, kept)?;
        }
        Ok(())
    }

    /// Removes the index of these files, unless its signature is one of these. Files of no index are left alone.
    fn remove_unless_kept<F: Folder>(
        &mut self,
        folder: &mut F,
        stem: Stem,
        kept: &[[u8; 32]],
    ) -> Result<(), IndexFault>
        ensures { RemovesEach kept.now (λ s. s ≡ stem) F.Folder
            self.old self.new folder.old folder.new result }
    {
        let Stem::View(sig) = stem else {
            return Ok(());
        };
        if kept.contains(&sig) {
            return Ok(());
        }
        self.close(stem);
        Index::remove(folder, sig)
    }
}
