//! The requests that read documents alone: `get` and `info`.

ghost use Rattle.std.specs.Prelude.{◌≡◌, ◌++◌, List, OnErr, OnOk};
ghost use Rattle.view_ports.specs.Lines.{ended};
ghost use Rattle.view_ports.specs.File.{File};
ghost use Rattle.view_ports.specs.declared.file_name.FileName.{FileName};
ghost use Rattle.doc_file.specs.Docs.{info_of, IsAt};
ghost use Rattle.design_docs.specs.History.{Write};
ghost use Rattle.view_engine.specs.Answer.{info_text};
ghost use Rattle.view_engine.specs.Calls.{ActsHere, IsReplyLine};
ghost use Rattle.view_engine.specs.Disks.{AreOpen, Spares};
ghost use Rattle.view_engine.specs.Get.{DoesInfo};
ghost use Rattle.view_engine.specs.World.{of_history};

use crate::answer::write_info;
use crate::halt::Halt;
use crate::request::Request;
use doc_file::Docs;
use json_terms::NoMemory;
use std::alloc::Global;
use view_model::Reply;
use view_ports::Folder;

/// Appends the reply line with a live document.
pub(crate) fn get<F: Folder>(
    alloc: Global,
    docs: &Docs,
    folder: &mut F,
    id: &str,
    out: &mut Vec<u8>,
) -> Result<(), Halt>
    requires open { AreOpen F.Folder docs.now folder.old }
    ensures does { ActsHere F.Folder docs.now docs.now folder.old folder.new
        (Request.Get id.now) out.old.items out.new.items result }
    ensures spares { Spares F.Folder folder.old folder.new result }
{
    match docs.get(alloc, folder, id) {
        Ok(document) => {
            let mut reply = Reply::behind(alloc, out);
            let written = reply.put_term(alloc, &document);
            reply.end(written, out)?;
            Ok(())
        }
        Err(fault) => Err(Halt::from(fault)),
    }
}

/// Appends the reply line with the counts of the documents and the update sequence.
pub(crate) fn info(alloc: Global, docs: &Docs, out: &mut Vec<u8>) -> Result<(), NoMemory>
    ensures ok { OnOk result (out.new.items ≡ out.old.items ++ ended
        (info_text (info_of docs.now))) }
    ensures done { (files : FileName → File) (history : List Write) → IsAt docs.now files history
        → DoesInfo (of_history history) (info_text (info_of docs.now)) }
    ensures silent { OnErr result (out.new.items ≡ out.old.items) }
    ensures line { OnOk result (IsReplyLine (info_text (info_of docs.now))) }
{
    let mut reply = Reply::behind(alloc, out);
    let written = write_info(docs.info(), &mut reply);
    reply.end(written, out)
}
