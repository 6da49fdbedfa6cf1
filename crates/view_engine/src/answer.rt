//! The replies that print what was asked for, but for those to views. Where memory runs out, part of one may be written.

ghost use Rattle.std.specs.Prelude.{OnOk};
ghost use Rattle.view_engine.specs.Answer as print;
ghost use Rattle.view_engine.specs.Calls.{IsReplyLine};
ghost use Rattle.view_model.specs.Written.{Adds, KeepsBefore};

use doc_file::Info;
use json_terms::NoMemory;
use std::alloc::Global;
use view_model::Reply;

/// Writes the reply to an accepted write.
pub fn write_accepted(alloc: Global, id: &str, rev: &str, reply: &mut Reply) -> Result<(), NoMemory>
    ensures ok { OnOk result (Adds reply.old reply.new (print.write_text id.now rev.now)) }
    ensures before { KeepsBefore reply.old reply.new }
{
    reply.put(b"{\"ok\":true,\"id\":")?;
    reply.put_string(alloc, id)?;
    reply.put(b",\"rev\":\"")?;
    reply.put(rev.as_bytes())?;
    reply.put(b"\"}")?;
    Ok(())
}

/// Writes the reply with the counts of documents.
pub fn write_info(info: Info, reply: &mut Reply) -> Result<(), NoMemory>
    ensures ok { OnOk result (Adds reply.old reply.new (print.info_text info)) }
    ensures before { KeepsBefore reply.old reply.new }
    ensures line { OnOk result (IsReplyLine (print.info_text info)) }
{
    reply.put(b"{\"doc_count\":")?;
    reply.put_number(info.doc_count)?;
    reply.put(b",\"doc_del_count\":")?;
    reply.put_number(info.doc_del_count)?;
    reply.put(b",\"update_seq\":")?;
    reply.put_number(info.update_seq)?;
    reply.put(b"}")?;
    Ok(())
}
