//! Bringing the index of a design up to date.

ghost use Rattle.std.specs.Prelude.{◌≢◌, ◌<◌, ◌^◌, All};
ghost use Rattle.gate_file.specs.Calls.{Told};
ghost use Rattle.view_ports.specs.declared.file_name.Stem.{Stem as StemSeen};
ghost use Rattle.tree_index.specs.Index.{stem_of};
ghost use Rattle.tree_groups.specs.Brings.{Brings};
ghost use Rattle.tree_groups.specs.Sides.{side};
ghost use Rattle.tree_index.specs.declared.index.Index.{Index as IndexValue};
ghost use Rattle.tree_groups.specs.Groups.{open_of, AreOpen, IsGroup};
ghost use Rattle.tree_groups.specs.Openings.{OpensDesign, OpensGroup};
ghost use Rattle.tree_groups.specs.Reached.{sig_of, views_in};
ghost use Rattle.tree_groups.specs.Updating.{UpdatesAt};

use super::Groups;
use child_pool::Pool;
use design_docs::Design;
use doc_file::Docs;
use json_terms::NoMemory;
use node_file::NodeCache;
use std::alloc::Global;
use std::sync::ledger::Ledger;
use tree_index::{Index, IndexFault};
use tree_laws::Steps;
use tree_updater::{UpdateFault, update};
use view_ports::{Folder, Servers, Stem};
use view_signature::signature;

impl Groups {
    /// Brings the index of a design up to date, and answers its place. It is opened first where it isn't open yet. The documents
    /// whose last write came after its sequence are mapped, and no others.
    ///
    /// At each moment a crash leaves the index as it was or up to date, and all other files as they were. After a fault of the disk
    /// in a file of the index, and where one is damaged, nothing of this is to be used again; after each other refusal all is as it
    /// was.
    pub fn update<F: Folder, C: Servers, L: Ledger>(
        &mut self,
        alloc: Global,
        folder: &mut F,
        cache: &mut NodeCache,
        servers: &mut C,
        pool: &mut Pool,
        docs: &Docs,
        design: &Design,
        steps: &mut Steps<L>,
    ) -> Result<usize, UpdateFault>
        requires few { views_in design.now < 2 ^ 16 }
        requires open { Told F.Folder folder.old (λ d. AreOpen self.old d.now) }
        ensures { Brings F.Folder C.Servers docs.now design.now
            (side folder.old servers.old pool.old self.old cache.old steps.old)
            (side folder.new servers.new pool.new self.new cache.new steps.new) result }
    {
        let sig = match signature(alloc, design) {
            Ok(sig) => sig,
            Err(NoMemory) => return Err(UpdateFault::NoMemory),
        };
        let newest = docs.info().update_seq;
        let place = self.opened(alloc, folder, sig, design.views.len(), newest)?;
        self.bring(
            alloc, folder, cache, servers, pool, docs, design, place, steps,
        )?;
        Ok(place)
    }

    /// The place of the index of a design, which is opened where it isn't open yet, and left as it is.
    ///
    /// At each moment a crash leaves the index as it was, and all other files. `Damaged` comes where the index is, as it is opened, and
    /// `DiskFault` only where the folder counted a fault. After either nothing of this is to be used again.
    pub fn open<F: Folder>(
        &mut self,
        alloc: Global,
        folder: &mut F,
        docs: &Docs,
        design: &Design,
    ) -> Result<usize, IndexFault>
        requires few { views_in design.now < 2 ^ 16 }
        ensures { OpensDesign F.Folder docs.now design.now
            self.old self.new folder.old folder.new result }
    {
        match signature(alloc, design) {
            Ok(sig) => {
                let newest = docs.info().update_seq;
                self.opened(alloc, folder, sig, design.views.len(), newest)
            }
            Err(NoMemory) => Err(IndexFault::NoMemory),
        }
    }

    /// Brings the index in this place up to date, which is that of the design.
    fn bring<F: Folder, C: Servers, L: Ledger>(
        &mut self,
        alloc: Global,
        folder: &mut F,
        cache: &mut NodeCache,
        servers: &mut C,
        pool: &mut Pool,
        docs: &Docs,
        design: &Design,
        place: usize,
        steps: &mut Steps<L>,
    ) -> Result<(), UpdateFault>
        requires open { Told F.Folder folder.old (λ d. AreOpen self.old d.now) }
        requires place { (index : IndexValue)
            × IsGroup self.old place (sig_of design.now) (views_in design.now) index }
        ensures { UpdatesAt F.Folder C.Servers docs.now design.now
            (side folder.old servers.old pool.old self.old cache.old steps.old)
            (side folder.new servers.new pool.new self.new cache.new steps.new) place result }
    {
        let index = &mut self.open.as_mut_slice()[place];
        update(
            alloc, folder, cache, servers, pool, docs, design, index, steps,
        )
    }

    /// The place of the index of a signature, which is opened where it isn't open. One of another number of views is closed before.
    /// An index past the newest write is emptied.
    fn opened<F: Folder>(
        &mut self,
        alloc: Global,
        folder: &mut F,
        sig: [u8; 32],
        views: usize,
        newest: u64,
    ) -> Result<usize, IndexFault>
        requires few { views < 2 ^ 16 }
        ensures { OpensGroup sig views newest F.Folder self.old self.new folder.old folder.new result }
    {
        let stem = Stem::View(sig);
        if let Some(place) = self.place_of(stem) {
            if self.open.as_slice()[place].views() == views {
                return Ok(place);
            }
        }
        self.close(stem);
        self.open_new(alloc, folder, sig, views, newest)
    }

    /// Opens the index of a signature, of which none is open, and answers its place.
    fn open_new<F: Folder>(
        &mut self,
        alloc: Global,
        folder: &mut F,
        sig: [u8; 32],
        views: usize,
        newest: u64,
    ) -> Result<usize, IndexFault>
        requires few { views < 2 ^ 16 }
        requires none { All (λ index. stem_of index ≢ StemSeen.View sig) (open_of self.old) }
        ensures { OpensGroup sig views newest F.Folder self.old self.new folder.old folder.new result }
    {
        let index = Index::open(alloc, folder, sig, views as u32, newest)?;
        let place = self.open.len();
        self.open.push(index)?;
        Ok(place)
    }
}
