//! The request `view`.

ghost use Rattle.std.specs.Prelude.{◌≡◌, ◌≢◌, ◌<◌, true, ◌≤◌, bytes_eq, Err, IfErr, IfOk, IsSorted, Ok, IfSome, None, option_map, map, length};
ghost use Rattle.std.specs.Map.{lookup};
ghost use Rattle.design_docs.specs.Laws.{entry_of as named};
ghost use Rattle.json_terms.specs.Seen.{json};
ghost use Rattle.child_pool.specs.Languages.{path_in};
ghost use Rattle.child_pool.specs.Pools.{languages_of};
ghost use Rattle.child_pool.specs.ReduceTalk.{reduce_in};
ghost use Rattle.raw_collation.specs.Collation.{rows_cmp};
ghost use Rattle.tree_groups.specs.Groups.{AreOpen as AreIndexesOpen};
ghost use Rattle.tree_groups.specs.Reached.{views_in};
ghost use Rattle.tree_index.specs.Index.{views_of};
ghost use Rattle.view_engine.specs.Answering.{lent, Shows, ShowsView, fault_of_answer};
ghost use Rattle.view_engine.specs.Calls.{scene, Performed};
ghost use Rattle.view_engine.specs.Disks.{LiesOpen, Reads, Spares};
ghost use Rattle.view_engine.specs.View as spec;
ghost use Rattle.view_engine.specs.Viewed.{BringsSomehow, IsTurnedAway, Views};
ghost use Rattle.view_ports.specs.Disk.{IfTold};
ghost use Rattle.view_engine.specs.Planning.{IsPlanned, PlansView, RefusesAsKept, RefusesByDesign, RefusesView, StopsLive};
ghost use Rattle.view_engine.specs.ViewQuery as query;
ghost use Rattle.view_engine.specs.ViewQuery.{parameters_in, view_query};
ghost use Rattle.view_engine.specs.ViewPlan.{met_by, met_by_pool, met_by_query, source_at, HasReduce, IsUpdateFault, ShowsRows};

use crate::design::design_of;
use crate::engine::Engine;
use crate::halt::{Halt, StepFault};
use crate::refusal::Refusal;
use crate::request::{Request, ViewName};
use child_pool::{Pool, PoolFault, ReduceSlot, Summers};
use design_docs::{DESIGN_PREFIX, Design, Reduce, View};
use doc_file::DocFault;
use json_terms::{Chars, Members, NoMemory, Row, Term};
use node_file::NodeCache;
use query_args::{Query, QueryFault, Target, read_query};
use range_query::{AnswerFault, answer};
use std::alloc::Global;
use std::marker::Brand;
use std::sync::ledger::{Blank, Ledger};
use tree_index::{Index, IndexFault};
use tree_laws::Steps;
use tree_updater::UpdateFault;
use view_model::Reply;
use view_ports::{Folder, Servers};

/// What a view request is about: the id of the design document, its design, the place of the view, and the query.
#[derive(Drop)]
struct Plan {
    id: Chars,
    design: Design,
    place: usize,
    query: Query,
}

impl Engine {
    /// Prints the rows of a view that a query picks. The index of its design is brought up to date first, unless the query says
    /// otherwise: the documents that were written since are mapped through the query server of its language, and no others.
    pub(super) fn view<F: Folder, C: Servers>(
        &mut self,
        alloc: Global,
        folder: &mut F,
        servers: &mut C,
        name: ViewName,
        query: Option<Members>,
        out: &mut Vec<u8>,
    ) -> Result<(), Halt>
        requires open { LiesOpen F.Folder self.old folder.old }
        ensures does { Performed F.Folder C.Servers (scene self.old folder.old servers.old)
            (scene self.new folder.new servers.new)
            (Ok (Request.View name query)) out.old.items out.new.items result }
        ensures spares { Spares F.Folder folder.old folder.new result }
        ensures views { Views F.Folder C.Servers (scene self.old folder.old servers.old)
            (scene self.new folder.new servers.new)
            (view_query name query) out.old.items out.new.items result }
    {
        let plan = match self.plan(alloc, folder, &name, query) {
            Ok(plan) => plan,
            Err(halt) => return Err(halt),
        };
        if !plan.query.update {
            let slot = match self.groups.open(alloc, folder, &self.docs, &plan.design) {
                Ok(slot) => slot,
                Err(fault) => return Err(halt_of(UpdateFault::from(fault), plan.id)),
            };
            let kept = self.groups.index(slot);
            return show::<F, C, Brand>(
                alloc,
                folder,
                servers,
                &mut self.pool,
                &mut self.cache,
                plan,
                kept,
                out,
                Blank::new(1),
            );
        }
        match self.bring::<F, C, Brand>(alloc, folder, servers, &plan.design, Blank::new(1)) {
            Ok(slot) => {
                let index = self.groups.index(slot);
                show::<F, C, Brand>(
                    alloc,
                    folder,
                    servers,
                    &mut self.pool,
                    &mut self.cache,
                    plan,
                    index,
                    out,
                    Blank::new(1),
                )
            }
            Err(fault) => Err(halt_of(fault, plan.id)),
        }
    }

    /// Brings the index of a design up to date, and answers its place. The steps that it takes are counted for contracts alone.
    fn bring<F: Folder, C: Servers, L: Ledger>(
        &mut self,
        alloc: Global,
        folder: &mut F,
        servers: &mut C,
        design: &Design,
        blank: Blank,
    ) -> Result<usize, UpdateFault>
        requires few { views_in design.now ≤ 32 }
        requires open { IfTold (F.disk folder.old) (λ d. AreIndexesOpen self.old.groups d.now) }
        requires name { blank.name ≡ L.name }
        requires parts { blank.parts ≡ L.parts }
        requires some { 0 < L.parts }
        ensures brings { BringsSomehow F.Folder C.Servers self.old self.new design.now
            folder.old folder.new servers.old servers.new result }
        ensures documents { self.new.docs ≡ self.old.docs }
    {
        let mut steps = Steps::<L>::new(blank);
        self.groups.update(
            alloc,
            folder,
            &mut self.cache,
            servers,
            &mut self.pool,
            &self.docs,
            design,
            &mut steps,
        )
    }

    /// What a view request is about, or why it is refused before any server is asked.
    fn plan<F: Folder>(
        &self,
        alloc: Global,
        folder: &mut F,
        name: &ViewName,
        query: Option<Members>,
    ) -> Result<Plan, Halt>
        ensures plan { PlansView F.Folder self.now folder.old (view_query name.now query) result }
        ensures planned { IfOk result (IsPlanned F.Folder self.now folder.old (view_query name.now query)) }
        ensures refused { RefusesView F.Folder self.now folder.old (view_query name.now query) result }
        ensures kept { IfErr result (RefusesAsKept self.now (view_query name.now query)) }
        ensures stopped { IfErr result (StopsLive self.now (view_query name.now query)) }
        ensures own { IfErr result (RefusesByDesign F.Folder self.now folder.old (view_query name.now query)) }
        ensures turned { IfErr result (λ halt. IsTurnedAway (Err halt)) }
        ensures reads { Reads F.Folder self.now.docs folder.old folder.new result }
        ensures spares { Spares F.Folder folder.old folder.new result }
    {
        let parameters = parameters_of(alloc, query);
        let id = design_id(alloc, name.design.as_str())?;
        let document = match self.docs.get(alloc, folder, id.as_str()) {
            Ok(document) => document,
            Err(fault) => return Err(Halt::from(fault)),
        };
        let design = design_of(alloc, &document)?;
        let Some(place) = place_of(design.views.as_slice(), name.view.as_str()) else {
            return Err(Halt::Refused(Refusal::MissingNamedView));
        };
        let target = Target::View(has_reduce(&design.views.as_slice()[place].reduce));
        let query = match read_query(alloc, &parameters, target) {
            Ok(query) => query,
            Err(fault) => return Err(halt_of_query(fault)),
        };
        match self.pool.path_of(design.language.as_str()) {
            Some(_path) => Ok(Plan {
                id,
                design,
                place,
                query,
            }),
            None => Err(Halt::Refused(Refusal::UnknownLanguage(design.language))),
        }
    }
}

/// The place of the first of the views with this name.
fn place_of(views: &[View], name: &str) -> Option<usize>
    ensures within { IfSome result (λ place. place < length views.now) }
    ensures named { option_map (source_at views.now) result ≡ lookup (λ key. bytes_eq key name.now)
        (map named views.now) }
    ensures shown { IfSome result (ShowsRows views.now name.now) }
    ensures reduced { IfSome result (HasReduce views.now name.now) }
{
    for (place, view) in views.iter().enumerate() {
        if view.name.as_str() == name {
            return Some(place);
        }
    }
    None
}

fn has_reduce(reduce: &Reduce) -> bool
    ensures { result ≡ query.has_reduce reduce.now }
{
    !matches!(reduce, Reduce::Absent)
}

/// Why a view is halted whose index could not be brought up to date.
fn halt_of(fault: UpdateFault, id: Chars) -> Halt
    requires { IsUpdateFault fault }
    ensures { result ≡ met_by id fault }
{
    match fault {
        UpdateFault::Pool(fault) => halt_of_pool(fault, id),
        UpdateFault::Docs(fault) | UpdateFault::Index(IndexFault::Store(fault)) => {
            Halt::from(DocFault::Gate(fault))
        }
        UpdateFault::Index(_) => unreachable!(),
        UpdateFault::NoMemory => Halt::Stopped(StepFault::NoMemory),
    }
}

/// The same where the query servers gave up.
fn halt_of_pool(fault: PoolFault, id: Chars) -> Halt
    requires { fault ≢ PoolFault.UnknownLanguage }
    ensures { result ≡ met_by_pool id fault }
{
    match fault {
        PoolFault::ServerFault => Halt::Refused(Refusal::ServerFault),
        PoolFault::BadReply(line) => Halt::Refused(Refusal::ServerReply(line)),
        PoolFault::Compile => Halt::Refused(Refusal::CompilationError(id)),
        PoolFault::NoMemory => Halt::Stopped(StepFault::NoMemory),
        PoolFault::UnknownLanguage => unreachable!(),
    }
}

/// Why a view is refused that is asked for with such parameters.
fn halt_of_query(fault: QueryFault) -> Halt
    ensures { result ≡ met_by_query fault }
{
    match fault {
        QueryFault::NoMemory => Halt::Stopped(StepFault::NoMemory),
        fault => Halt::Refused(Refusal::BadQuery(fault)),
    }
}

/// The parameters of a query as an object. No query counts as one without parameters.
fn parameters_of(alloc: Global, query: Option<Members>) -> Term
    ensures { json result ≡ parameters_in query }
{
    match query {
        Some(parameters) => Term::Object(parameters),
        None => Term::Object(Members::new(alloc)),
    }
}

/// Answers a planned view from an index, whose rows are read, or tells why they or their values can't be had.
fn show<F: Folder, C: Servers, L: Ledger>(
    alloc: Global,
    folder: &mut F,
    servers: &mut C,
    pool: &mut Pool,
    cache: &mut NodeCache,
    plan: Plan,
    index: &Index,
    out: &mut Vec<u8>,
    blank: Blank,
) -> Result<(), Halt>
    requires within { plan.place < views_of index.now }
    requires views { views_of index.now ≤ 32 }
    requires reduced { plan.query.reduced ≡ true → query.has_reduce (reduce_in plan.design.views plan.place) ≡ true }
    requires known { path_in (languages_of pool.old) plan.design.language ≢ None }
    requires name { blank.name ≡ L.name }
    requires parts { blank.parts ≡ L.parts }
    requires some { 0 < L.parts }
    ensures { ShowsView F.Folder C.Servers (lent folder.old servers.old pool.old cache.old)
        (lent folder.new servers.new pool.new cache.new) plan.design plan.place plan.query index.now
        plan.id out.old.items out.new.items result }
{
    let mut steps = Steps::<L>::new(blank);
    match index.rows(alloc, folder, cache, plan.place as u32, &mut steps) {
        Ok(rows) => {
            match append_answer(
                alloc,
                servers,
                pool,
                &plan,
                index.seq(),
                rows.as_slice(),
                out,
            ) {
                Ok(()) => Ok(()),
                Err(fault) => Err(halt_of_pool(fault, plan.id)),
            }
        }
        Err(fault) => Err(halt_of(UpdateFault::from(fault), plan.id)),
    }
}

/// Appends the reply line that answers a planned view from its rows at a sequence. The values of its groups are had by the view's
/// reduce, through the children of the pool where a query server runs it.
fn append_answer<C: Servers>(
    alloc: Global,
    servers: &mut C,
    pool: &mut Pool,
    plan: &Plan,
    seq: u64,
    rows: &[Row],
    out: &mut Vec<u8>,
) -> Result<(), PoolFault>
    requires within { plan.now.place < 32 }
    requires sorted { IsSorted rows_cmp rows.now }
    requires reduced { plan.now.query.reduced ≡ true → query.has_reduce (reduce_in plan.now.design.views plan.now.place) ≡ true }
    ensures { Shows C.Servers servers.old servers.new pool.old pool.new
        plan.now.design plan.now.place plan.now.query seq rows.now
        out.old.items out.new.items result }
{
    let view = plan.place as u32;
    let mut summers = Summers {
        slot: ReduceSlot::over(pool, servers),
        design: &plan.design,
        view,
    };
    let mut reply = Reply::behind(alloc, out);
    match answer(alloc, rows, &mut summers, seq, &plan.query, &mut reply) {
        Ok(()) => match reply.end(Ok(()), out) {
            Ok(()) => Ok(()),
            Err(NoMemory) => Err(PoolFault::NoMemory),
        },
        Err(fault) => {
            let _taken = reply.close(Err(NoMemory), out);
            Err(fault_in(fault))
        }
    }
}

/// Why the values weren't had, or want of memory.
fn fault_in(fault: AnswerFault<PoolFault>) -> PoolFault
    ensures { result ≡ fault_of_answer fault }
{
    match fault {
        AnswerFault::Values(fault) => fault,
        AnswerFault::NoMemory => PoolFault::NoMemory,
    }
}

/// The id of the design document with this name.
fn design_id(alloc: Global, name: &str) -> Result<Chars, NoMemory>
    ensures { IfOk result (λ id. id ≡ spec.design_id name.now) }
{
    let mut id = String::from_str(alloc, DESIGN_PREFIX)?;
    id.push_str(name)?;
    Ok(Chars::new(id))
}
