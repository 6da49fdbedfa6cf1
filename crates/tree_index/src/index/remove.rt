//! Removing an index.

ghost use Rattle.view_ports.specs.declared.file_name.Stem.{Stem as StemSeen};
ghost use Rattle.tree_index.specs.Removes.{Removes};

use super::Index;
use crate::fault::IndexFault;
use gate_file::GateFile;
use view_ports::{Folder, Stem};

impl Index {
    /// Takes all bytes of the files of an index away, which is of the views with this signature. No object of it may be open.
    ///
    /// At each moment a crash leaves the index as it was, or none. A file is `Damaged` where a slot of the pair is, the first one
    /// being named, and `DiskFault` comes where the folder failed. It takes no memory.
    pub fn remove<F: Folder>(folder: &mut F, sig: [u8; 32]) -> Result<(), IndexFault>
        ensures { Removes F.Folder (StemSeen.View sig) folder.old folder.new result }
    {
        let file = GateFile::open(folder, Stem::View(sig))?;
        GateFile::clear(folder, file.name())?;
        Ok(())
    }
}
