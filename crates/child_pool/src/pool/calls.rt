// The calls of the pool: children are made ready, map documents, and are stopped.
ghost use Rattle.std.specs.Prelude.{◌≡◌, ◌≢◌, ◌≤◌, ◌<◌, ◌^◌, ◌⊎◌, [], IfErr, IfOk, OnOk, None, Some, is_some, length, min};
ghost use Rattle.design_docs.specs.Design.{map_sources};
ghost use Rattle.child_pool.specs.Firsts.{MapsNext};
ghost use Rattle.child_pool.specs.Mapping.{AreBounded};
ghost use Rattle.child_pool.specs.PoolCalls.{Ends, MapsNothing, StaysAsMade, Maps, MapsAll, MapsBatch, Prepares, Readies, RefusesIdly, RefusesStopping, RefusesUnknown, ResetsReducer, StopsAll, path_for};
ghost use Rattle.child_pool.specs.Pools.{IsKeptOf, started_of};
ghost use Rattle.child_pool.specs.Ends.{EndsTwice};

use crate::doc_rows::DocRowLists;
use crate::document::Document;
use crate::pool::each::map_each;
use crate::pool::{Pool, Started};
use crate::pool_fault::PoolFault;
use crate::preparing::{prepare_slot, prepare_slots};
use design_docs::{Design, View};
use json_terms::{Chars, NoMemory};
use std::alloc::Global;
use view_ports::Servers;

/// What a design asks of the pool: the path of its language, and its sources in order of the views.
#[derive(Drop)]
struct SetUp {
    path: Chars,
    sources: Vec<Chars>,
}

impl Pool {
    /// Makes the children of the first `slots` slots ready for a design: each is started where none is there that was started
    /// by the path of the design's language, it is reset, and it is told each source in order of the views. There are
    /// no more slots than the width; where there are none, nothing is done. After a refusal no child is left.
    ///
    /// `UnknownLanguage` comes exactly where the language has no path. `ServerFault` comes only where two attempts on one prompt failed, `BadReply` and `Compile` only of a line that was received in this call, and
    /// `NoMemory` where memory runs out. No prompt has a third attempt.
    pub fn prepare<C: Servers>(
        &mut self,
        alloc: Global,
        servers: &mut C,
        design: &Design,
        slots: u32,
    ) -> Result<(), PoolFault>
        requires slots { slots ≤ self.old.width }
        ensures went { Prepares C.Servers servers.old servers.new
            self.old design.now slots self.new result }
        ensures ends { Ends C.Servers servers.old servers.new self.old self.new design.now result }
        ensures unknown { RefusesStopping C.Servers servers.old servers.new
            self.old self.new design.now result }
        ensures idle { slots ≡ 0 → OnOk result (self.new ≡ self.old) }
    {
        match self.try_prepare(alloc, servers, design, slots) {
            Ok(()) => Ok(()),
            Err(fault) => {
                self.stop_all(servers);
                Err(fault)
            }
        }
    }

    /// Maps documents, one after another, through the children that were made ready for this design: as many as there are
    /// documents, up to the width. Without documents no server is called, unless the language has no path. After a refusal no child
    /// is left. The refusals are those of `prepare`.
    pub fn map_batch<C: Servers>(
        &mut self,
        alloc: Global,
        servers: &mut C,
        design: &Design,
        documents: &[Document],
    ) -> Result<DocRowLists, PoolFault>
        requires few { length design.now.views < 2 ^ 32 }
        ensures went { MapsBatch C.Servers servers.old servers.new
            self.old design.now documents.now self.new result }
        ensures ends { Ends C.Servers servers.old servers.new self.old self.new design.now result }
        ensures unknown { RefusesStopping C.Servers servers.old servers.new
            self.old self.new design.now result }
        ensures idle { documents.now ≡ [] → path_for self.old design.now ≢ None →
            MapsNothing servers.old servers.new self.old self.new result }
        ensures remembers { OnOk result (self.new ≡ self.old) }
        ensures bounded { IfOk result (AreBounded (length design.now.views) (length documents.now)) }
    {
        if documents.is_empty() && self.knows(design) {
            return Ok(DocRowLists::new(alloc));
        }
        match self.try_map(alloc, servers, design, documents) {
            Ok(lists) => Ok(lists),
            Err(fault) => {
                self.stop_all(servers);
                Err(fault)
            }
        }
    }

    /// Maps all documents of a design: as many children are made ready as there are slots and documents for them, and they map
    /// the documents. Without documents no server is called. After a refusal no child is left. The refusals are those of
    /// `prepare`.
    pub fn map_all<C: Servers>(
        &mut self,
        alloc: Global,
        servers: &mut C,
        design: &Design,
        documents: &[Document],
    ) -> Result<DocRowLists, PoolFault>
        requires few { length design.now.views < 2 ^ 32 }
        ensures went { MapsAll C.Servers servers.old servers.new
            self.old design.now documents.now self.new result }
        ensures ends { Ends C.Servers servers.old servers.new self.old self.new design.now result }
        ensures unknown { documents.now ≢ [] → RefusesStopping C.Servers servers.old servers.new
            self.old self.new design.now result }
        ensures idle { documents.now ≡ [] →
            MapsNothing servers.old servers.new self.old self.new result }
        ensures bounded { IfOk result (AreBounded (length design.now.views) (length documents.now)) }
    {
        self.map_next(alloc, servers, design, documents, false)
    }

    /// Maps the next documents of an update that comes page by page. The first of them make the children ready, as many as the
    /// update needs; `begun` says that earlier pages had documents, since when the children were used for nothing else. Without
    /// documents no server is called. After a refusal no child is left. The refusals are those of `prepare`.
    pub fn map_next<C: Servers>(
        &mut self,
        alloc: Global,
        servers: &mut C,
        design: &Design,
        documents: &[Document],
        begun: bool,
    ) -> Result<DocRowLists, PoolFault>
        requires few { length design.now.views < 2 ^ 32 }
        ensures went { MapsNext C.Servers servers.old servers.new
            self.old self.new design.now begun documents.now result }
        ensures ends { Ends C.Servers servers.old servers.new self.old self.new design.now result }
        ensures unknown { documents.now ≢ [] → RefusesStopping C.Servers servers.old servers.new
            self.old self.new design.now result }
        ensures idle { documents.now ≡ [] →
            MapsNothing servers.old servers.new self.old self.new result }
        ensures bounded { IfOk result (AreBounded (length design.now.views) (length documents.now)) }
    {
        if documents.is_empty() {
            return Ok(DocRowLists::new(alloc));
        }
        if begun {
            return self.map_batch(alloc, servers, design, documents);
        }
        let slots = self.slots_for(documents.len());
        match self.prepare(alloc, servers, design, slots) {
            Ok(()) => self.map_batch(alloc, servers, design, documents),
            Err(fault) => Err(fault),
        }
    }

    /// Whether the language of a design has a path.
    fn knows(&self, design: &Design) -> bool
        ensures { result ≡ is_some (path_for self.now design.now) }
    {
        self.path_of(design.language.as_str()).is_some()
    }

    /// How many slots so many documents need.
    fn slots_for(&self, count: usize) -> u32
        ensures { result ≡ min self.now.width count }
    {
        if count < self.width as usize {
            count as u32
        } else {
            self.width
        }
    }

    /// Makes the children ready. After a refusal they may be as they were left.
    fn try_prepare<C: Servers>(
        &mut self,
        alloc: Global,
        servers: &mut C,
        design: &Design,
        slots: u32,
    ) -> Result<(), PoolFault>
        requires slots { slots ≤ self.old.width }
        ensures went { Readies C.Servers servers.old servers.new
            self.old design.now slots self.new result }
        ensures ends { Ends C.Servers servers.old servers.new self.old self.new design.now result }
        ensures unknown { RefusesIdly servers.old servers.new self.old self.new design.now result }
        ensures idle { slots ≡ 0 → OnOk result (self.new ≡ self.old) }
    {
        let plan = match self.plan_of(alloc, design) {
            Ok(plan) => plan,
            Err(fault) => return Err(fault),
        };
        let kept = self.count_of(plan.path.as_str());
        if slots == 0 {
            return Ok(());
        }
        match prepare_slots(
            alloc,
            servers,
            slots,
            kept,
            plan.path.as_str(),
            plan.sources.as_slice(),
        ) {
            Ok(()) => {
                self.started = Some(Started {
                    path: plan.path,
                    count: slots.max(kept),
                });
                Ok(())
            }
            Err(fault) => Err(fault),
        }
    }

    /// Maps documents. After a refusal the children may be as they were left.
    fn try_map<C: Servers>(
        &self,
        alloc: Global,
        servers: &mut C,
        design: &Design,
        documents: &[Document],
    ) -> Result<DocRowLists, PoolFault>
        requires few { length design.now.views < 2 ^ 32 }
        ensures went { Maps C.Servers servers.old servers.new
            self.now design.now documents.now result }
        ensures ends { Ends C.Servers servers.old servers.new self.now self.now design.now result }
        ensures unknown { RefusesIdly servers.old servers.new self.now self.now design.now result }
        ensures bounded { IfOk result (AreBounded (length design.now.views) (length documents.now)) }
    {
        match self.plan_of(alloc, design) {
            Ok(plan) => map_each(
                alloc,
                servers,
                plan.path.as_str(),
                plan.sources.as_slice(),
                documents,
            ),
            Err(fault) => Err(fault),
        }
    }

    /// The path and the sources of a design.
    fn plan_of(&self, alloc: Global, design: &Design) -> Result<SetUp, PoolFault>
        ensures path { IfOk result (λ plan. path_for self.now design.now ≡ Some plan.path) }
        ensures sources { IfOk result (λ plan. plan.sources.items ≡ map_sources design.now.views) }
        ensures unknown { RefusesUnknown self.now design.now result }
        ensures refused { IfErr result (λ fault. (fault ≡ PoolFault.NoMemory)
            ⊎ ((fault ≡ PoolFault.UnknownLanguage) × (path_for self.now design.now ≡ None))) }
    {
        let Some(path) = self.path_of(design.language.as_str()) else {
            return Err(PoolFault::UnknownLanguage);
        };
        let path = Chars::from_text(alloc, path)?;
        let sources = sources_of(alloc, design.views.as_slice())?;
        Ok(SetUp { path, sources })
    }

    /// How many children that were started by this path are kept.
    fn count_of(&self, path: &str) -> u32
        ensures { IsKeptOf self.now path.now result }
    {
        if let Some(started) = &self.started {
            if started.path.as_str() == path {
                return started.count;
            }
        }
        0
    }

    /// Makes the child that reduces ready: it is reset, after it is started where none is kept that was started by this path.
    /// After a refusal the children may be as they were left.
    pub(crate) fn reset_reducer<C: Servers>(
        &mut self,
        alloc: Global,
        servers: &mut C,
        path: &str,
    ) -> Result<(), PoolFault>
        ensures went { ResetsReducer C.Servers servers.old servers.new
            self.old path.now self.new result }
        ensures ends { EndsTwice C.Servers servers.old servers.new result }
        ensures keeps { StaysAsMade self.old self.new }
        ensures mapping { started_of self.new ≡ started_of self.old }
    {
        let kept = match &self.reducer {
            Some(started) => started.as_str() == path,
            None => false,
        };
        let own = match Chars::from_text(alloc, path) {
            Ok(own) => own,
            Err(NoMemory) => return Err(PoolFault::NoMemory),
        };
        match prepare_slot(alloc, servers, self.width, path, &[], !kept) {
            Ok(()) => {
                self.reducer = Some(own);
                Ok(())
            }
            Err(fault) => Err(fault),
        }
    }

    /// Stops all children: those that map and the one that reduces.
    pub fn stop_all<C: Servers>(&mut self, servers: &mut C)
        ensures went { StopsAll C.Servers servers.old servers.new self.old self.new }
        ensures keeps { StaysAsMade self.old self.new }
        ensures faults { C.faults servers.new ≡ C.faults servers.old }
    {
        for slot in 0..self.width + 1 {
            servers.stop(slot);
        }
        self.started = None;
        self.reducer = None;
    }
}

/// The sources of a design's map functions, in order of the views.
fn sources_of(alloc: Global, views: &[View]) -> Result<Vec<Chars>, NoMemory>
    ensures { IfOk result (λ sources. sources.items ≡ map_sources views.now) }
{
    let mut sources = Vec::with_capacity(alloc, views.len())?;
    for view in views {
        sources.push(view.map.copy(alloc)?)?;
    }
    Ok(sources)
}
