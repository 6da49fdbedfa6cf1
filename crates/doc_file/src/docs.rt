//! The documents of a database, by their last writes.

pub(crate) mod changes;
mod designs;
mod write;

ghost use Rattle.std.specs.Prelude.{◌≡◌, IsTrue};
ghost use Rattle.std.specs.List.{list_all};
ghost use Rattle.gate_file.specs.GateFile.{commits_of};
ghost use Rattle.doc_file.specs.Counts.{are_counted, has_room};
ghost use Rattle.doc_file.specs.Record.{rise};

use crate::entry::Entry;
use crate::fault::DocFault;
use crate::last_writes::find_last;
use crate::load::{load_body, load_root};
use gate_file::{GateFault, GateFile};
use json_terms::Term;
use std::alloc::Global;
use view_ports::{Folder, Stem};

/// The documents of a database: their file, the number of accepted writes and the last write of each id.
#[derive(Drop)]
pub struct Docs {
    file: GateFile,
    seq: u64,
    // In byte order of id.
    entries: Vec<Entry>,
    ghost counted: { IsTrue (are_counted (commits_of file) seq entries.items) },
    ghost room: { IsTrue (list_all has_room entries.items) },
    ghost order: { IsTrue (rise entries.items) },
}

/// Counts of documents.
#[derive(Clone, Copy, Debug, PartialEq, Eq)]
pub struct Info {
    /// How many documents are live.
    pub doc_count: u64,
    /// How many ids have a deletion as their last write.
    pub doc_del_count: u64,
    /// How many writes were accepted.
    pub update_seq: u64,
}

impl Docs {
    ghost use Rattle.std.specs.Prelude.{◌≡◌, ◌↔◌, List, Some, None, true, Err, IfOk, IfErr, OnOk};
    ghost use Rattle.json_terms.specs.Seen.{json};
    ghost use Rattle.view_ports.specs.Disk.{MovesNone};
    ghost use Rattle.view_ports.specs.File.{File};
    ghost use Rattle.view_ports.specs.declared.file_name.FileName.{FileName as Name};
    ghost use Rattle.gate_file.specs.Calls.{Moved, ReadsUpTo, Told};
    ghost use Rattle.gate_file.specs.Open.{opened, AreFitSlots};
    ghost use Rattle.doc_file.specs.Accepted.{is_deletion};
    ghost use Rattle.doc_file.specs.Docs.{bytes_in, file_of, info_in, info_of, last_of, is_deleted, HoldsHistory, IsAt, IsDamagedAt, IsLive, IsOpen, IsSpoiledIn};
    ghost use Rattle.doc_file.specs.Held.{IsBodyOf};
    ghost use Rattle.design_docs.specs.History.{Write, last_write, live_document};
    ghost use Rattle.doc_file.specs.Reads.{AtHistory, FindsDamage, FindsNoDamage, IsCounted, IsGetFault, IsReadFault, Opens, StaysAt};

    /// Opens the documents' file. Without a commit there was no write.
    ///
    /// The file is `Damaged` where a slot of the pair is, the first one being named, and else at the place of the root record
    /// where this spells none, or one whose counts are those of no history. Where nothing is pending and the files stand for
    /// a history, so does each image from then on, and so does the object; no file is `Damaged`. At each moment a crash
    /// leaves what it might have left before, or, once both sides are synced, the side that is taken as it is.
    pub fn open<F: Folder>(alloc: Global, folder: &mut F) -> Result<Docs, DocFault>
        ensures opened { Told F.Folder folder.old
            (λ d. IfOk result (λ docs. file_of docs ≡ opened Stem.Docs d.now)) }
        ensures open { Told F.Folder folder.new (λ d. IfOk result (λ docs. IsOpen docs d.now)) }
        ensures stands { (history : List Write) → Told F.Folder folder.old (λ d. HoldsHistory d.now history) →
            Moved F.Folder folder.old folder.new (StaysAt history result) }
        ensures sound { (history : List Write) → Told F.Folder folder.old
            (λ d. HoldsHistory d.now history → FindsNoDamage result) }
        ensures fit { Told F.Folder folder.old (λ d. OnOk result (AreFitSlots Stem.Docs d.now)) }
        ensures damaged { Told F.Folder folder.old (λ d. FindsDamage (IsDamagedAt d.now) result) }
        ensures faults { IfErr result IsReadFault }
        ensures disk { Moved F.Folder folder.old folder.new (Opens result) }
        ensures cause { IsCounted F.Folder folder.old folder.new result }
        ensures reads { ReadsUpTo F.Folder 5 folder.old folder.new }
    {
        let file = GateFile::open(folder, Stem::Docs)?;
        let root = load_root(alloc, folder, &file)?;
        Ok(Docs {
            file,
            seq: root.seq,
            entries: root.entries,
        })
    }

    /// The stored document of an id, with its present revision.
    ///
    /// `Missing` comes exactly where the id was never written, `Deleted` exactly where its last write was a deletion. The
    /// file is `Damaged` at the place of the body exactly where what is spelled there is no object of depth 64 at most, or
    /// where the id is that of a design and the object has none.
    pub fn get<F: Folder>(&self, alloc: Global, folder: &mut F, id: &str) -> Result<Term, DocFault>
        // Over a history: the live document, or why there is none, and never damage.
        ensures document { AtHistory F.Folder self.now folder.old
            (λ history. IfOk result (λ t. live_document history id.now ≡ Some (json t))) }
        ensures never_written { AtHistory F.Folder self.now folder.old
            (λ history. (result ≡ Err DocFault.Missing) ↔ (last_write history id.now ≡ None)) }
        ensures deletion { AtHistory F.Folder self.now folder.old
            (λ history. (result ≡ Err DocFault.Deleted) ↔ (is_deletion (last_write history id.now) ≡ true)) }
        ensures sound { AtHistory F.Folder self.now folder.old (λ history. FindsNoDamage result) }

        // Also where the file stands for no history.
        ensures body { IfOk result (λ t. IsBodyOf id.now (json t)) }
        ensures live { Told F.Folder folder.old
            (λ d. IfOk result (λ t. IsLive id.now (bytes_in self.now d.now) (last_of self.now id.now) (json t))) }
        ensures missing { (result ≡ Err DocFault.Missing) ↔ (last_of self.now id.now ≡ None) }
        ensures deleted { (result ≡ Err DocFault.Deleted) ↔ (is_deleted (last_of self.now id.now) ≡ true) }
        ensures damaged { Told F.Folder folder.old
            (λ d. FindsDamage (IsSpoiledIn self.now d.now id.now) result) }
        ensures faults { IfErr result IsGetFault }
        ensures disk { Moved F.Folder folder.old folder.new MovesNone }
        ensures cause { IsCounted F.Folder folder.old folder.new result }
        ensures reads { ReadsUpTo F.Folder 1 folder.old folder.new }
    {
        match find_last(id, self.entries.as_slice()) {
            Some(last) => {
                if last.deleted {
                    return Err(DocFault::Deleted);
                }
                load_body(alloc, folder, self.file.name(), id, last)
            }
            None => Err(DocFault::Missing),
        }
    }

    /// How many documents are live and deleted, and how many writes were accepted. It takes no memory.
    pub fn info(&self) -> Info
        ensures kept { result ≡ info_of self.now }
        ensures history { (files : Name → File) (history : List Write) → IsAt self.now files history →
            result ≡ info_in history }
    {
        Info {
            doc_count: self
                .entries
                .iter()
                .filter(|entry| !entry.last.deleted)
                .count() as u64,
            doc_del_count: self
                .entries
                .iter()
                .filter(|entry| entry.last.deleted)
                .count() as u64,
            update_seq: self.seq,
        }
    }
}
