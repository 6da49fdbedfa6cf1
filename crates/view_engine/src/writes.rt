//! The requests that write a document: `put` and `delete`. The reply is written first, so that want of memory stores nothing.

ghost use Rattle.std.specs.Prelude.{◌≡◌, ◌++◌, OnErr, OnOk, option_map};
ghost use Rattle.view_ports.specs.Lines.{ended};
ghost use Rattle.view_engine.specs.Calls.{ActsHere, IsReplyLine};
ghost use Rattle.view_engine.specs.Disks.{AreOpen, Spares};
ghost use Rattle.view_engine.specs.Replies.{accepted_reply, SaysRevision};

use crate::answer::write_accepted;
use crate::halt::Halt;
use crate::request::Request;
use design_docs::id_of;
use doc_file::Docs;
use json_terms::{Chars, Members, NoMemory, Term};
use std::alloc::Global;
use view_model::Reply;
use view_ports::Folder;

/// Puts a document and appends the reply line.
pub(crate) fn put<F: Folder>(
    alloc: Global,
    docs: &mut Docs,
    folder: &mut F,
    document: Members,
    out: &mut Vec<u8>,
) -> Result<(), Halt>
    requires open { AreOpen F.Folder docs.old folder.old }
    ensures does { ActsHere F.Folder docs.old docs.new folder.old folder.new
        (Request.Put document) out.old.items out.new.items result }
    ensures spares { Spares F.Folder folder.old folder.new result }
{
    let document = Term::Object(document);
    let start = out.len();
    append_accepted(alloc, docs, id_of(&document), out)?;
    match docs.put(alloc, folder, document) {
        Ok(_rev) => Ok(()),
        Err(fault) => {
            out.truncate(start);
            Err(Halt::from(fault))
        }
    }
}

/// Deletes a document and appends the reply line.
pub(crate) fn delete<F: Folder>(
    alloc: Global,
    docs: &mut Docs,
    folder: &mut F,
    id: Chars,
    rev: Option<Chars>,
    out: &mut Vec<u8>,
) -> Result<(), Halt>
    requires open { AreOpen F.Folder docs.old folder.old }
    ensures does { ActsHere F.Folder docs.old docs.new folder.old folder.new
        (Request.Delete id rev) out.old.items out.new.items result }
    ensures spares { Spares F.Folder folder.old folder.new result }
{
    let start = out.len();
    append_accepted(alloc, docs, id.as_str(), out)?;
    match docs.delete(alloc, folder, id.as_str(), text_of(&rev)) {
        Ok(_rev) => Ok(()),
        Err(fault) => {
            out.truncate(start);
            Err(Halt::from(fault))
        }
    }
}

/// The text of a revision that may be given.
fn text_of(rev: &Option<Chars>) -> Option<&str>
    ensures { option_map (λ text. text.now) result ≡ rev.now }
{
    match rev {
        Some(text) => Some(text.as_str()),
        None => None,
    }
}

/// Appends the reply line to the next write of an id, as it will be where it is accepted, or nothing.
fn append_accepted(alloc: Global, docs: &Docs, id: &str, out: &mut Vec<u8>) -> Result<(), NoMemory>
    ensures ok { OnOk result (out.new.items ≡ out.old.items ++ ended
        (accepted_reply docs.now id.now)) }
    ensures silent { OnErr result (out.new.items ≡ out.old.items) }
    ensures history { OnOk result (SaysRevision docs.now id.now) }
    ensures line { OnOk result (IsReplyLine (accepted_reply docs.now id.now)) }
{
    let rev = docs.next_rev(id).text(alloc)?;
    let mut reply = Reply::behind(alloc, out);
    let written = write_accepted(alloc, id, rev.as_str(), &mut reply);
    reply.end(written, out)
}
