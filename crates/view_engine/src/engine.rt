//! The engine: the documents, the query servers, and one request line at a time.

ghost use Rattle.std.specs.Prelude.{◌≡◌, ◌≢◌, ◌++◌, List, [], IfOk, IfErr, OnOk, OnErr, map, string_bytes, Ok};
ghost use Rattle.view_ports.specs.Calls.{Call};
ghost use Rattle.view_ports.specs.Lines.{ended};
ghost use Rattle.child_pool.specs.Languages.{languages_in};
ghost use Rattle.view_engine.specs.Calls.{scene, IsStep, IsToldAs, Performed};
ghost use Rattle.view_engine.specs.Cleaning.{StaysOpenFor};
ghost use Rattle.view_engine.specs.Disks.{LiesOpen, Spares, SparesStep};
ghost use Rattle.view_engine.specs.Engine.{HasStopped};
ghost use Rattle.view_engine.specs.Halts.{fault_of, halted_as};
ghost use Rattle.view_engine.specs.Refusals.{refusal_text, request_of};
ghost use Rattle.view_engine.specs.Openings.{FailsByDisk, FillsNone, LeavesWorlds, MeetsDamage, MeetsNoDamage, MovesByOpening, OpensWhole, OpensWorlds};
ghost use Rattle.view_engine.specs.Viewed.{ViewsFor, ViewsLine};
ghost use Rattle.view_engine.specs.Worlds.{IsChildless, Knows, width as width_of};

mod view;
mod writes;

use crate::cleanup::cleanup;
use crate::halt::{Halt, StepFault};
use crate::line::read_request;
use crate::reads::{get, info};
use crate::refusal::Refusal;
use crate::request::Request;
use crate::writes::{delete, put};
use child_pool::Pool;
use doc_file::{DocFault, Docs};
use json_terms::NoMemory;
use node_file::NodeCache;
use std::alloc::Global;
use tree_groups::Groups;
use view_model::Reply;
use view_ports::{Folder, Servers};

/// A database of documents in a folder, with the indexes and the query servers of its views, and what its requests do.
#[derive(Drop)]
pub struct Engine {
    docs: Docs,
    pool: Pool,
    groups: Groups,
    cache: NodeCache,
}

/// How many nodes of indexes the cache has room for.
const NODES_KEPT: u32 = 256;

impl Engine {
    /// Opens the documents of a folder, with query servers of which `width` map documents. There are no children yet. The words
    /// of the form LANG=PATH name the paths of languages.
    ///
    /// The documents' file is `Damaged` where a slot of its pair is, and else at the place of its root record, where none
    /// stands there. Where nothing is pending in the files and they hold a world, each image from then on stands for it, and
    /// no file is `Damaged`.
    pub fn open<F: Folder>(
        alloc: Global,
        folder: &mut F,
        width: u32,
        words: &[String],
    ) -> Result<Engine, StepFault>
        requires width { width ≡ 1 }
        ensures documents { OpensWorlds F.Folder folder.old folder.new result }
        ensures moments { LeavesWorlds F.Folder folder.old folder.new }
        ensures moved { MovesByOpening F.Folder folder.old folder.new }
        ensures open { OpensWhole F.Folder folder.new result }
        ensures childless { IfOk result IsChildless }
        ensures width { IfOk result (λ engine. width_of engine ≡ width) }
        ensures languages { IfOk result (Knows (languages_in (map string_bytes words.now))) }
        ensures damaged { MeetsDamage F.Folder folder.old result }
        ensures sound { MeetsNoDamage F.Folder folder.old result }
        ensures room { FillsNone result }
        ensures cause { FailsByDisk F.Folder folder.old folder.new result }
    {
        match Docs::open(alloc, folder) {
            Ok(docs) => Ok(Engine {
                docs,
                pool: Pool::new(alloc, width, words)?,
                groups: Groups::new(alloc),
                cache: NodeCache::new(alloc, NODES_KEPT)?,
            }),
            Err(fault) => Err(open_fault(fault)),
        }
    }

    /// Does the request of one line and appends the reply line with its newline, or nothing for an empty line.
    ///
    /// The line comes without its newline. Of a line of more than 2,097,152 bytes the first 2,097,153 are enough.
    /// On `NoMemory` nothing is appended and no document has changed. At each moment a crash leaves the documents and indexes before
    /// the request or after it, or in a cleanup some of the indexes that are to go; once a write is answered those after it. Only a
    /// write that is accepted changes files of the documents, and only a view or a cleanup those of indexes. After every other fault
    /// the engine is not to be used again. The folder counts a fault only where the step ends by `DiskFault`.
    ///
    /// Whatever the folder tells, a request is done only where the documents in memory accept it, and refused as they say; and a view
    /// has its index opened or brought up to date as `Groups` does it, and then shown. What is said of a view over documents at a
    /// history, and of a crash in it, is said where designs that differ have different signatures.
    pub fn step<F: Folder, C: Servers>(
        &mut self,
        alloc: Global,
        folder: &mut F,
        servers: &mut C,
        line: &[u8],
        out: &mut Vec<u8>,
    ) -> Result<(), StepFault>
        requires open { LiesOpen F.Folder self.old folder.old }
        ensures does { IsStep F.Folder C.Servers (scene self.old folder.old servers.old)
            (scene self.new folder.new servers.new) line.now out.old.items out.new.items result }
        ensures spares { SparesStep F.Folder folder.old folder.new result }
        ensures views { line.now ≢ [] → ViewsLine F.Folder C.Servers
            (scene self.old folder.old servers.old) (scene self.new folder.new servers.new)
            out.old.items out.new.items (request_of line.now) result }
        ensures stay { StaysOpenFor F.Folder self.old.docs self.old.groups self.new.groups
            folder.old (request_of line.now) }
    {
        if line.is_empty() {
            return Ok(());
        }
        match read_request(alloc, line) {
            Ok(request) => match self.perform(alloc, folder, servers, request, out) {
                Ok(()) => Ok(()),
                Err(halt) => tell(alloc, halt, out),
            },
            Err(refusal) => tell(alloc, Halt::from(refusal), out),
        }
    }

    /// Stops all children. The width stays.
    pub fn finish<C: Servers>(&mut self, servers: &mut C)
        ensures stopped { (calls : List Call) → C.may_follow servers.old calls
            → HasStopped (C.may_follow servers.new) self.new calls }
        ensures width { width_of self.new ≡ width_of self.old }
        ensures faults { C.faults servers.new ≡ C.faults servers.old }
    {
        self.pool.stop_all(servers);
    }

    /// Does a request and appends the reply line, unless it is refused.
    fn perform<F: Folder, C: Servers>(
        &mut self,
        alloc: Global,
        folder: &mut F,
        servers: &mut C,
        request: Request,
        out: &mut Vec<u8>,
    ) -> Result<(), Halt>
        requires open { LiesOpen F.Folder self.old folder.old }
        ensures does { Performed F.Folder C.Servers (scene self.old folder.old servers.old)
            (scene self.new folder.new servers.new)
            (Ok request) out.old.items out.new.items result }
        ensures spares { Spares F.Folder folder.old folder.new result }
        ensures views { ViewsFor F.Folder C.Servers (scene self.old folder.old servers.old)
            (scene self.new folder.new servers.new) out.old.items out.new.items (Ok request) result }
        ensures stay { StaysOpenFor F.Folder self.old.docs self.old.groups self.new.groups
            folder.old (Ok request) }
    {
        match request {
            Request::Put { document } => put(alloc, &mut self.docs, folder, document, out),
            Request::Delete { id, rev } => delete(alloc, &mut self.docs, folder, id, rev, out),
            Request::Get { id } => get(alloc, &self.docs, folder, id.as_str(), out),
            Request::Info => match info(alloc, &self.docs, out) {
                Ok(()) => Ok(()),
                Err(NoMemory) => Err(Halt::Stopped(StepFault::NoMemory)),
            },
            Request::View { view, query } => self.view(alloc, folder, servers, view, query, out),
            Request::Cleanup => cleanup(alloc, &self.docs, &mut self.groups, folder, out),
            _ => Err(Halt::Refused(Refusal::NotBuiltYet)),
        }
    }
}

/// Why an engine isn't opened whose documents are not. Opening them is never refused.
fn open_fault(fault: DocFault) -> StepFault
    ensures { result ≡ fault_of (halted_as fault) }
{
    match Halt::from(fault) {
        Halt::Stopped(fault) => fault,
        Halt::Refused(_) => StepFault::NoMemory,
    }
}

/// Tells why a request isn't done: appends the reply line of a refusal, or answers the fault.
fn tell(alloc: Global, halt: Halt, out: &mut Vec<u8>) -> Result<(), StepFault>
    ensures { IsToldAs halt out.old.items out.new.items result }
{
    match halt {
        Halt::Refused(refusal) => append_refusal(alloc, &refusal, out),
        Halt::Stopped(fault) => Err(fault),
    }
}

/// Appends the reply line of a refusal, or nothing.
fn append_refusal(alloc: Global, refusal: &Refusal, out: &mut Vec<u8>) -> Result<(), StepFault>
    ensures ok { OnOk result (out.new.items ≡ out.old.items ++ ended (refusal_text refusal.now)) }
    ensures silent { OnErr result (out.new.items ≡ out.old.items) }
    ensures memory { IfErr result (λ fault. fault ≡ StepFault.NoMemory) }
{
    let mut reply = Reply::behind(alloc, out);
    let written = refusal.write(alloc, &mut reply);
    match reply.end(written, out) {
        Ok(()) => Ok(()),
        Err(NoMemory) => Err(StepFault::NoMemory),
    }
}
