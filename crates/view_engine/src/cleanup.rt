//! The request `cleanup`: the indexes go that no live design has.

ghost use Rattle.std.specs.Prelude.{◌≡◌, ◌++◌, IfErr, IfOk, OnErr, OnOk, true};
ghost use Rattle.design_docs.specs.Documents.{is_design_id};
ghost use Rattle.doc_file.specs.Designs.{IsLiveEntry};
ghost use Rattle.doc_file.specs.Docs.{bytes_in, last_of};
ghost use Rattle.doc_file.specs.Reads.{AtHistory};
ghost use Rattle.view_ports.specs.Disk.{IfTold};
ghost use Rattle.view_ports.specs.Lines.{ended};
ghost use Rattle.view_engine.specs.Calls.{IsReplyLine};
ghost use Rattle.view_engine.specs.Cleaning.{met_by_index, AreLiveSignatures, CleansUp, IsCleanFault, IsSignatureOf, IsStopped, LiveStayOpen};
ghost use Rattle.view_engine.specs.Cleanup.{done_text};
ghost use Rattle.view_engine.specs.Disks.{Reads, Spares};
ghost use Rattle.view_engine.specs.HeldDesigns.{AreHeldSignatures, IsSignatureIn};

use crate::design::design_of;
use crate::halt::{Halt, StepFault};
use doc_file::{DocFault, Docs};
use json_terms::NoMemory;
use std::alloc::Global;
use tree_groups::Groups;
use tree_index::IndexFault;
use view_model::Reply;
use view_ports::Folder;
use view_signature::signature;

/// Removes the indexes of all signatures that no live design document has, and appends the reply line. What may want memory comes
/// first, so that want of memory removes nothing.
pub(crate) fn cleanup<F: Folder>(
    alloc: Global,
    docs: &Docs,
    groups: &mut Groups,
    folder: &mut F,
    out: &mut Vec<u8>,
) -> Result<(), Halt>
    ensures does { CleansUp F.Folder docs.now groups.old groups.new folder.old folder.new
        out.old.items out.new.items result }
    ensures spares { Spares F.Folder folder.old folder.new result }
    ensures stay { LiveStayOpen F.Folder docs.now groups.old groups.new folder.old }
{
    let kept = live_signatures(alloc, docs, folder)?;
    let start = out.len();
    append_done(alloc, out)?;
    match groups.clean_up(alloc, folder, kept.as_slice()) {
        Ok(()) => Ok(()),
        Err(fault) => {
            out.truncate(start);
            Err(halt_of(fault))
        }
    }
}

/// The signatures of the designs of all live documents.
fn live_signatures<F: Folder>(
    alloc: Global,
    docs: &Docs,
    folder: &mut F,
) -> Result<Vec<[u8; 32]>, Halt>
    ensures history { AtHistory F.Folder docs.now folder.old
        (λ history. IfOk result (λ sigs. AreLiveSignatures history sigs.items)) }
    ensures held { IfTold (F.disk folder.old) (λ d. IfOk result
        (λ sigs. AreHeldSignatures docs.now (bytes_in docs.now d.now) sigs.items)) }
    ensures stopped { IfErr result IsStopped }
    ensures reads { Reads F.Folder docs.now folder.old folder.new result }
    ensures spares { Spares F.Folder folder.old folder.new result }
{
    let ids = docs.design_ids(alloc)?;
    let mut signatures = Vec::with_capacity(alloc, ids.len())?;
    for id in &ids {
        signatures.push(signature_in(alloc, docs, folder, id.as_str())?)?;
    }
    Ok(signatures)
}

/// The signature of the design of a live design document.
fn signature_in<F: Folder>(
    alloc: Global,
    docs: &Docs,
    folder: &mut F,
    id: &str,
) -> Result<[u8; 32], Halt>
    requires design { is_design_id id.now ≡ true }
    requires live { IsLiveEntry (last_of docs.now id.now) }
    ensures history { AtHistory F.Folder docs.now folder.old
        (λ history. IfOk result (IsSignatureOf history id.now)) }
    ensures held { IfTold (F.disk folder.old) (λ d. IfOk result
        (IsSignatureIn docs.now (bytes_in docs.now d.now) id.now)) }
    ensures stopped { IfErr result IsStopped }
    ensures reads { Reads F.Folder docs.now folder.old folder.new result }
    ensures spares { Spares F.Folder folder.old folder.new result }
{
    let document = match docs.get(alloc, folder, id) {
        Ok(document) => document,
        Err(fault) => return Err(Halt::from(fault)),
    };
    let design = design_of(alloc, &document)?;
    Ok(signature(alloc, &design)?)
}

/// Why a cleanup is stopped that can't remove an index.
fn halt_of(fault: IndexFault) -> Halt
    requires { IsCleanFault fault }
    ensures { result ≡ met_by_index fault }
{
    match fault {
        IndexFault::Store(fault) => Halt::from(DocFault::Gate(fault)),
        IndexFault::Summer(_) => unreachable!(),
        IndexFault::NoMemory => Halt::Stopped(StepFault::NoMemory),
    }
}

/// Appends the reply line that says it is done.
fn append_done(alloc: Global, out: &mut Vec<u8>) -> Result<(), NoMemory>
    ensures ok { OnOk result (out.new.items ≡ out.old.items ++ ended done_text) }
    ensures silent { OnErr result (out.new.items ≡ out.old.items) }
    ensures line { IsReplyLine done_text }
{
    let mut reply = Reply::behind(alloc, out);
    let written = reply.put(b"{\"ok\":true}");
    reply.end(written, out)
}
