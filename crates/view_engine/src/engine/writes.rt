//! What was written to an engine's documents, for who maps them without an index.

ghost use Rattle.std.specs.Prelude.{◌≡◌, IfErr, IfOk, length, map};
ghost use Rattle.view_ports.specs.Disk.{IfTold, MovesNone, Tells};
ghost use Rattle.view_ports.specs.Faults.{CountsFor};
ghost use Rattle.view_ports.specs.File.{File};
ghost use Rattle.view_ports.specs.declared.file_name.FileName.{FileName};
ghost use Rattle.doc_file.specs.Changes.{numbered};
ghost use Rattle.doc_file.specs.Docs.{seq_of};
ghost use Rattle.design_docs.specs.History.{changes_after};
ghost use Rattle.view_engine.specs.Disks.{IsReadReasonOf, LiesOpen};
ghost use Rattle.view_engine.specs.World.{World};
ghost use Rattle.view_engine.specs.Worlds.{IsAtWorld};

use super::open_fault;
use crate::engine::Engine;
use crate::halt::StepFault;
use doc_file::Changes;
use std::alloc::Global;
use view_ports::Folder;

impl Engine {
    /// The update sequence: how many writes were accepted.
    pub fn update_seq(&self) -> u64
        ensures kept { result ≡ seq_of self.now.docs }
        ensures counts { (files : FileName → File) (world : World) → IsAtWorld self.now files world
            → result ≡ length world.history }
    {
        self.docs.info().update_seq
    }

    /// The last write of each id, in the order of the writes, with its document unless it is a deletion. No file changes.
    ///
    /// It is a `DiskFault` where the folder fails, `Damaged` at the place of a document that can't be read, which there is in no
    /// world, and `NoMemory` where memory runs out, or there are 2^32 - 1 ids or more.
    pub fn last_writes<F: Folder>(
        &self,
        alloc: Global,
        folder: &mut F,
    ) -> Result<Changes, StepFault>
        requires open { LiesOpen F.Folder self.now folder.old }
        ensures listed { (world : World) → IfTold (F.disk folder.old) (λ d. IsAtWorld self.now d.now world
            → IfOk result (λ changes. map numbered changes ≡ changes_after 0 world.history)) }
        ensures disk { Tells (F.disk folder.old) (F.disk folder.new) MovesNone }
        ensures why { IfErr result (IsReadReasonOf F.Folder self.now folder.old folder.new) }
        ensures counted { CountsFor StepFault.DiskFault (F.faults folder.old) (F.faults folder.new) result }
    {
        match self.docs.changed_since(alloc, folder, 0, u32::MAX) {
            Ok(changes) => {
                if changes.len() < u32::MAX as usize {
                    Ok(changes)
                } else {
                    Err(StepFault::NoMemory)
                }
            }
            Err(fault) => Err(open_fault(fault)),
        }
    }
}
