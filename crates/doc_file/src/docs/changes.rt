//! What has changed since a write: the next last writes, in the order of their numbers.

ghost use Rattle.std.specs.Prelude.{◌≡◌, ◌↔◌, ◌<◌, ◌≤◌, List, [], Some, All, IfErr, IfOk, IfSome, IsTrue, false, length, map, option_map, take};
ghost use Rattle.json_terms.specs.Seen.{json};
ghost use Rattle.view_ports.specs.Disk.{MovesNone};
ghost use Rattle.gate_file.specs.Calls.{Moved, ReadsUpTo, Told};
ghost use Rattle.gate_file.specs.GateFile.{name_of};
ghost use Rattle.doc_file.specs.Changes.{last_number, numbered, AreInOrder, AreWhole, HasDocument, HasShortId, IsChange, IsNext, IsSpoiledAfter, IsStored};
ghost use Rattle.doc_file.specs.Docs.{bytes_in, file_of, IsLoaded, IsSpoiled};
ghost use Rattle.design_docs.specs.History.{changes_after};
ghost use Rattle.doc_file.specs.Reads.{AtHistory, FindsDamage, FindsNoDamage, IsCounted, IsReadFault};

use super::Docs;
use crate::entry::Entry;
use crate::fault::DocFault;
use crate::load::load_body;
use gate_file::GateFault;
use json_terms::{Chars, Term};
use std::alloc::Global;
use std::marker::Model;
use view_ports::Folder;

/// The last write of an id.
#[derive(Drop)]
pub struct Change {
    /// Its number among all writes, from 1.
    pub seq: u64,
    pub id: Chars,
    /// The stored document, unless it was a deletion.
    pub doc: Option<Term>,
}

/// Some changes, seen by contracts as the list of them.
#[derive(Drop)]
pub struct Changes {
    items: Vec<Change>,
}

impl Model for Changes {
    ghost use Rattle.std.specs.Prelude.{List};
    ghost use Rattle.std.specs.Coded.{codes};
    ghost use Rattle.json_terms.specs.Code.{coded_json};
    ghost use Rattle.doc_file.specs.declared.docs.changes.Change.{Change};

    ghost Value = { List Change };

    ghost coded = { Prim.hlevel (codes, coded_json) };

    ghost view = { λ c. c.items.items };
}

impl Changes {
    /// The changes of a list, without taking memory.
    pub fn new(items: Vec<Change>) -> Changes
        ensures { result ≡ items.items }
    {
        Changes { items }
    }

    pub fn len(&self) -> usize
        ensures { result ≡ length self.now }
    {
        self.items.as_slice().len()
    }

    pub fn is_empty(&self) -> bool
        ensures { IsTrue result ↔ (self.now ≡ []) }
    {
        self.items.is_empty()
    }

    pub fn as_slice(&self) -> &[Change]
        ensures { result.now ≡ self.now }
    {
        self.items.as_slice()
    }

    /// The number of the last of them, or `seq` where there are none.
    pub fn last_seq(&self, seq: u64) -> u64
        ensures { result ≡ last_number seq (map numbered self.now) }
    {
        match self.items.as_slice().last() {
            Some(change) => change.seq,
            None => seq,
        }
    }

    /// The list of the changes, without taking memory.
    pub fn into_vec(self) -> Vec<Change>
        ensures { result.items ≡ self }
    {
        self.items
    }
}

impl Docs {
    /// The next `n` last writes after the first `seq` writes, in the order of their numbers.
    ///
    /// The file is `Damaged` only at the place of the body of a last write with a number after `seq`, where no document of
    /// its id is spelled.
    pub fn changed_since<F: Folder>(
        &self,
        alloc: Global,
        folder: &mut F,
        seq: u64,
        n: u32,
    ) -> Result<Changes, DocFault>
        ensures written { AtHistory F.Folder self.now folder.old
            (λ history. IfOk result (λ changes. map numbered changes ≡ take n (changes_after seq history))) }
        ensures sound { AtHistory F.Folder self.now folder.old (λ history. FindsNoDamage result) }

        // Also where the file stands for no history.
        ensures order { IfOk result (λ changes. AreInOrder seq changes) }
        ensures few { IfOk result (λ changes. length changes ≤ n) }
        ensures bodies { IfOk result (λ changes. All HasDocument changes) }
        ensures short { IfOk result (λ changes. All HasShortId changes) }
        ensures whole { IfOk result (λ changes. AreWhole self.now seq n changes) }
        ensures each { Told F.Folder folder.old (λ d. IsLoaded self.now d.now →
            IfOk result (λ changes. All (IsChange self.now (bytes_in self.now d.now)) changes)) }
        ensures damaged { Told F.Folder folder.old (λ d. IsLoaded self.now d.now → FindsDamage
            (λ name at. (name ≡ name_of (file_of self.now)) × IsSpoiledAfter self.now (bytes_in self.now d.now) seq at)
            result) }
        ensures faults { IfErr result IsReadFault }
        ensures disk { Moved F.Folder folder.old folder.new MovesNone }
        ensures cause { IsCounted F.Folder folder.old folder.new result }
        ensures reads { ReadsUpTo F.Folder n folder.old folder.new }
        ensures few_reads { IfOk result (λ changes. ReadsUpTo F.Folder (length changes) folder.old folder.new) }
    {
        let mut items = Vec::new(alloc);
        let mut after = seq;
        for _index in 0..n {
            match next_after(after, self.entries.as_slice()) {
                Some(entry) => {
                    items.push(self.load_change(alloc, folder, entry)?)?;
                    after = entry.last.seq;
                }
                None => return Ok(Changes { items }),
            }
        }
        Ok(Changes { items })
    }

    /// The change that is the last write of an entry.
    fn load_change<F: Folder>(
        &self,
        alloc: Global,
        folder: &mut F,
        entry: &Entry,
    ) -> Result<Change, DocFault>
        ensures seq { IfOk result (λ change. change.seq ≡ (entry.now.last).seq) }
        ensures id { IfOk result (λ change. change.id ≡ entry.now.id) }
        ensures body { IfOk result HasDocument }
        ensures held { Told F.Folder folder.old (λ d. IfOk result
            (λ change. IsStored entry.now.id (bytes_in self.now d.now) entry.now.last (option_map json change.doc))) }
        ensures damaged { Told F.Folder folder.old (λ d. FindsDamage
            (λ name at. (name ≡ name_of (file_of self.now)) × ((entry.now.last).deleted ≡ false)
            × IsSpoiled entry.now.id (bytes_in self.now d.now) (Some entry.now.last) at)
            result) }
        ensures faults { IfErr result IsReadFault }
        ensures disk { Moved F.Folder folder.old folder.new MovesNone }
        ensures cause { IsCounted F.Folder folder.old folder.new result }
        ensures reads { ReadsUpTo F.Folder 1 folder.old folder.new }
    {
        let seq = entry.last.seq;
        let id = entry.id.copy(alloc)?;
        if entry.last.deleted {
            return Ok(Change { seq, id, doc: None });
        }
        let document = load_body(
            alloc,
            folder,
            self.file.name(),
            entry.id.as_str(),
            entry.last,
        )?;
        Ok(Change {
            seq,
            id,
            doc: Some(document),
        })
    }
}

/// The entry with the least number after `seq`.
fn next_after(seq: u64, entries: &[Entry]) -> Option<&Entry>
    ensures { IsNext seq entries.now (option_map (λ entry. entry.now) result) }
{
    let mut next: Option<&Entry> = None;
    for entry in entries {
        if seq < entry.last.seq && comes_before(entry, next) {
            next = Some(entry);
        }
    }
    next
}

/// Whether the entry's number is less than that of another, if there is one.
fn comes_before(entry: &Entry, other: Option<&Entry>) -> bool
    ensures { IsTrue result ↔ IfSome other.entry (λ o. (entry.now.last).seq < (o.now.last).seq) }
{
    match other {
        Some(other) => entry.last.seq < other.last.seq,
        None => true,
    }
}
