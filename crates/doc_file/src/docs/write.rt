//! Writing documents: each write is one commit of the documents' file.

ghost use Rattle.std.specs.Prelude.{◌≡◌, ◌⊎◌, ◌+◌, ◌<◌, ◌^◌, List, Some, None, length, IfErr, OnOk, option_map};
ghost use Rattle.json_terms.specs.Seen.{json};
ghost use Rattle.view_ports.specs.File.{File};
ghost use Rattle.view_ports.specs.declared.file_name.FileName.{FileName as Name};
ghost use Rattle.gate_file.specs.Calls.{Told};
ghost use Rattle.doc_file.specs.Calls.{refusal_of, Deletes, IsUntouched, Puts, Stores};
ghost use Rattle.doc_file.specs.Docs.{entries_of, file_of, seq_of, IsAt, IsOpen};
ghost use Rattle.design_docs.specs.History.{Write};
ghost use Rattle.design_docs.specs.Revision.{revision};
ghost use Rattle.doc_file.specs.Stored.{next_rev as next_rev_of, next_revision, IsStorable};
ghost use Rattle.doc_file.specs.Writes.{IsFileFault};

use super::Docs;
use crate::accept::{may_delete, may_put};
use crate::draft::{Draft, make_draft, next_rev};
use crate::fault::DocFault;
use crate::incoming::{Incoming, read_incoming};
use crate::last_writes::find_last;
use crate::rev::{Rev, is_given};
use gate_file::GateFault;
use json_terms::{Chars, Term};
use std::alloc::Global;
use view_ports::Folder;

impl Docs {
    /// The revision that the next write of an id will have. It takes no memory.
    pub fn next_rev(&self, id: &str) -> Rev
        ensures kept { result ≡ next_rev_of (seq_of self.now) (entries_of self.now) id.now }
        ensures history { (files : Name → File) (history : List Write) → IsAt self.now files history →
            revision result.generation result.seq ≡ next_revision history id.now }
    {
        next_rev(self.seq, self.entries.as_slice(), id)
    }

    /// Puts a document: stores it under the next revision of its id, or deletes the id where its `_deleted` is true.
    ///
    /// It is refused, in this order, as `BadId` (no text, empty, or with an underscore and not that of a named design
    /// document), `BadMember` (another member that begins with an underscore, or a `_deleted` that is neither true nor false),
    /// `BadRev`, `TooLarge` (its text passes 524,288 bytes), `TooDeep` (past 64), `BadDesign` (a design document that isn't
    /// deleted and has no design); and then by the last write of its id: a deletion as `Missing` or `Deleted`, and both as a
    /// `Conflict`.
    ///
    /// Each refusal but a fault of the disk leaves all as it was. At each moment a crash leaves the documents before the write or after
    /// it, and once the revision is answered those after it. After `Gate` the object is not to be used again.
    pub fn put<F: Folder>(
        &mut self,
        alloc: Global,
        folder: &mut F,
        document: Term,
    ) -> Result<Rev, DocFault>
        requires open { Told F.Folder folder.old (λ d. IsOpen self.old d.now) }
        ensures { Puts F.Folder self.old self.new folder.old folder.new (json document) result }
    {
        document.validity();
        let incoming = read_incoming(alloc, document)?;
        self.accept(alloc, &incoming)?;
        let (id, content) = incoming.into_stored();
        self.store(alloc, folder, id, content)
    }

    /// Whether the last write of its id allows a write.
    fn accept(&self, alloc: Global, incoming: &Incoming) -> Result<(), DocFault>
        ensures ok { OnOk result (refusal_of self.now incoming.now ≡ None) }
        ensures err { IfErr result (λ e. (refusal_of self.now incoming.now ≡ Some e) ⊎ (e ≡ DocFault.NoMemory)) }
    {
        let last = find_last(incoming.id.as_str(), self.entries.as_slice());
        let given = incoming.given_text();
        if incoming.deletes {
            may_delete(alloc, last, given)
        } else {
            may_put(alloc, last, given)
        }
    }

    /// Deletes a document: its next write is a tombstone.
    ///
    /// It is refused as `BadRev` where the revision isn't well formed, as `Missing` where the id was never written, as
    /// `Deleted` where its last write was a deletion, and as a `Conflict` where the revision isn't the present one; these,
    /// want of memory and `Gate` are as those of `put`.
    pub fn delete<F: Folder>(
        &mut self,
        alloc: Global,
        folder: &mut F,
        id: &str,
        rev: Option<&str>,
    ) -> Result<Rev, DocFault>
        requires open { Told F.Folder folder.old (λ d. IsOpen self.old d.now) }
        ensures { Deletes F.Folder self.old self.new folder.old folder.new
            id.now (option_map (λ text. text.now) rev.entry) result }
    {
        if !is_given(rev) {
            return Err(DocFault::BadRev);
        }
        let last = find_last(id, self.entries.as_slice());
        may_delete(alloc, last, rev)?;
        let id = Chars::from_text(alloc, id)?;
        self.store(alloc, folder, id, None)
    }

    /// Stores the next write of an id: that of a document with this content, or a deletion.
    fn store<F: Folder>(
        &mut self,
        alloc: Global,
        folder: &mut F,
        id: Chars,
        content: Option<Term>,
    ) -> Result<Rev, DocFault>
        requires open { Told F.Folder folder.old (λ d. IsOpen self.old d.now) }
        requires room { length id + 33 < 2 ^ 32 }
        requires storable { IsStorable id (option_map json content) }
        ensures stored { Stores F.Folder self.old self.new folder.old folder.new
            id (option_map json content) result }

        // Want of memory and a full file leave all as it was. Else the disk failed.
        ensures kept { IfErr result
            (λ e. (e ≡ DocFault.Gate GateFault.DiskFault) ⊎ IsUntouched self.old self.new folder.old folder.new) }
        ensures faults { IfErr result (λ e. IsFileFault (file_of self.old) e ⊎ (e ≡ DocFault.NoMemory)) }
    {
        let start = self.file.start();
        let Draft {
            rev,
            entries,
            bytes,
            body,
        } = make_draft(alloc, start, self.seq, self.entries.as_slice(), id, content)?;
        self.file.publish(folder, bytes.as_slice(), body)?;
        self.seq = rev.seq;
        self.entries = entries;
        Ok(rev)
    }
}
