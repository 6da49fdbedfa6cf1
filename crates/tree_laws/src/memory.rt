//! A store in memory.

ghost use Rattle.std.specs.Prelude.{◌≡◌, ◌+◌, ◌≤◌, ◌↔◌, ◌⊎◌, [], ◌++◌, ◌∷◌, IfErr, IfOk, IsTrue, OnErr, OnOk, Some, is_err, length};
ghost use Rattle.tree_laws.specs.Memory.{Fails, Goes, IsMissing, MemoryState, is_listed, next_count, nodes_size, places};
ghost use Rattle.tree_laws.specs.declared.memory.MemoryFault.TheVariants.{NoMemory as OutOfMemory};
ghost use Rattle.tree_laws.specs.Stores.{Extends, RisesBy};

use crate::log::NodeLog;
use crate::store::{NodeSource, NodeStore};
use json_terms::NoMemory;
use std::alloc::{AllocError, AllocFailed, Global};
use std::marker::Model;

/// Why a call on a store in memory gave up.
#[derive(Clone, Copy, Debug, PartialEq, Eq)]
pub enum MemoryFault {
    /// The call was one of those that fail.
    Failed,
    /// Nothing stands at this place.
    NoNode(u64),
    /// Memory ran out.
    NoMemory,
}

impl From<AllocError> for MemoryFault {
    ghost from_gives = { λ _ e. e ≡ OutOfMemory };

    fn from(_error: AllocError) -> MemoryFault {
        MemoryFault::NoMemory
    }
}

impl<T: Drop> From<AllocFailed<T>> for MemoryFault {
    ghost from_gives = { λ _ e. e ≡ OutOfMemory };

    fn from(_failed: AllocFailed<T>) -> MemoryFault {
        MemoryFault::NoMemory
    }
}

/// Nodes in memory, each at the number of those that were put before it. It fails at chosen calls.
#[derive(Debug, Drop)]
pub struct MemoryNodes {
    nodes: Vec<Vec<u8>>,
    fail: Vec<u64>,
    calls: u64,
    reads: u64,
    log: NodeLog,
}

impl Model for MemoryNodes {
    ghost use Rattle.std.specs.Prelude.{map};
    ghost use Rattle.tree_laws.specs.Memory.{MemoryState};

    ghost Value = { MemoryState };

    ghost view = { λ s. record { nodes = map (λ node. node.items) s.nodes.items; fail = s.fail.items; calls = s.calls; reads = s.reads; gets = s.log.gets; puts = s.log.puts } };
}

impl MemoryNodes {
    /// An empty store. The calls of `get` and `put` whose numbers are in `fail`, counted from 0 together, fail and do nothing.
    pub fn new(alloc: Global, fail: Vec<u64>) -> MemoryNodes
        ensures { result ≡ record { nodes = []; fail = fail.items; calls = 0; reads = 0; gets = []; puts = [] } }
    {
        MemoryNodes {
            nodes: Vec::new(alloc),
            fail,
            calls: 0,
            reads: 0,
            log: NodeLog::new(),
        }
    }

    /// How many nodes were put.
    pub fn len(&self) -> usize
        ensures { result ≡ length self.now.nodes }
    {
        self.nodes.len()
    }

    /// Whether no node was put.
    pub fn is_empty(&self) -> bool
        ensures { IsTrue result ↔ (self.now.nodes ≡ []) }
    {
        self.nodes.is_empty()
    }

    /// How many calls of `get` were made.
    pub fn reads(&self) -> u64
        ensures { result ≡ self.now.reads }
    {
        self.reads
    }

    // Counts a call, which fails where its number is listed.
    fn count_call(&mut self) -> Result<(), MemoryFault>
        ensures counted { self.new ≡ record self.old { calls = next_count self.old.calls } }
        ensures later { self.old.calls ≤ self.new.calls }
        ensures listed { is_err result ≡ is_listed self.old.fail self.old.calls }
        ensures failed { IfErr result (λ fault. fault ≡ MemoryFault.Failed) }
    {
        let fails = self.fail.contains(&self.calls);
        self.calls = self.calls.saturating_add(1);
        if fails {
            return Err(MemoryFault::Failed);
        }
        Ok(())
    }

    fn count_read(&mut self, at: u64)
        ensures counted { self.new ≡ record self.old { reads = next_count self.old.reads; gets = at ∷ self.old.gets } }
        ensures later { self.old.reads ≤ self.new.reads }
    {
        self.reads = self.reads.saturating_add(1);
        self.log = self.log.got(&at);
    }

    fn bytes_at(&self, alloc: Global, at: u64) -> Result<Vec<u8>, MemoryFault>
        ensures ok { IfOk result (λ bytes. places self.now at ≡ Some bytes.items) }
        ensures err { IfErr result (IsMissing (places self.now) at) }
    {
        match self.nodes.get(at as usize) {
            Some(bytes) => copy_bytes(alloc, bytes.as_slice()),
            None => Err(MemoryFault::NoNode(at)),
        }
    }

    fn add(&mut self, alloc: Global, bytes: &[u8]) -> Result<u64, MemoryFault>
        ensures place { IfOk result (λ at. at ≡ length self.old.nodes) }
        ensures ok { OnOk result (self.new ≡ record self.old { nodes = self.old.nodes ++ bytes.now ∷ [] }) }
        ensures err { OnErr result (self.new ≡ self.old) }
        ensures fault { IfErr result (λ fault. fault ≡ MemoryFault.NoMemory) }
    {
        let at = self.nodes.len() as u64;
        self.nodes.push(copy_bytes(alloc, bytes)?)?;
        Ok(at)
    }
}

fn copy_bytes(alloc: Global, bytes: &[u8]) -> Result<Vec<u8>, MemoryFault>
    ensures ok { IfOk result (λ copy. copy.items ≡ bytes.now) }
    ensures err { IfErr result (λ fault. fault ≡ MemoryFault.NoMemory) }
{
    Ok(bytes.to_vec(alloc)?)
}

impl NodeSource for MemoryNodes {
    ghost use Rattle.std.specs.Prelude.{Some};
    ghost use Rattle.tree_laws.specs.Memory.{Fails, Goes, nodes_size, places};
    ghost use Rattle.tree_laws.specs.MemoryLaws.{memory_steps, memory_causes, memory_grew, memory_grows, memory_keeps};

    type Fault = MemoryFault;

    ghost nodes = { λ s. Some (places s) };

    ghost is_ready = { λ s. Unit {0} };

    ghost size = { λ s. nodes_size s.nodes };

    ghost puts = { λ s. s.puts };

    ghost gets = { λ s. s.gets };

    ghost reads = { λ s. s.reads };

    ghost goes = { Goes };

    ghost fails = { Fails };

    fn get(&mut self, alloc: Global, at: u64) -> Result<Vec<u8>, MemoryFault>
        ensures ready { OnOk result (Unit {0}) }
        ensures bytes { IfOk result (λ bytes. places self.old at ≡ Some bytes.items) }
        ensures nodes { Some (places self.new) ≡ Some (places self.old) }
        ensures size { nodes_size self.new.nodes ≡ nodes_size self.old.nodes }
        ensures puts { self.new.puts ≡ self.old.puts }
        ensures gets { self.new.gets ≡ at ∷ self.old.gets }
        ensures reads { RisesBy 2 self.old.reads self.new.reads }
        ensures goes { OnOk result (Goes self.old self.new) }
        ensures cause { IfErr result (Fails self.old self.new) }

        // It fails exactly where its number is listed. Else a fault is of this place.
        ensures place { IfErr result (λ fault. (fault ≡ MemoryFault.Failed) ⊎ IsMissing (places self.old) at fault) }
        ensures counted { self.new ≡ record self.old { calls = next_count self.old.calls; reads = next_count self.old.reads; gets = at ∷ self.old.gets } }
        ensures listed { IsTrue (is_listed self.old.fail self.old.calls) ↔ (result ≡ Err MemoryFault.Failed) }
    {
        self.count_read(at);
        self.count_call()?;
        self.bytes_at(alloc, at)
    }

    ghost are_steps = { memory_steps };

    ghost stays_caused = { memory_causes };

    ghost keeps = { memory_keeps };

    ghost stays_ready = { λ a b goes ready. ready };

    ghost grows = { memory_grows };

    ghost grew = { memory_grew };
}

impl NodeStore for MemoryNodes {
    fn put(&mut self, alloc: Global, bytes: &[u8]) -> Result<u64, MemoryFault>
        ensures ready { OnOk result (Unit {0}) }
        ensures place { IfOk result (λ at. places self.new at ≡ Some bytes.now) }
        ensures kept { Extends (places self.old) (places self.new) }
        ensures size { OnOk result (nodes_size self.new.nodes ≡ nodes_size self.old.nodes + (length bytes.now + 8)) }
        ensures no_more { RisesBy (length bytes.now + 8) (nodes_size self.old.nodes) (nodes_size self.new.nodes) }
        ensures puts { self.new.puts ≡ bytes.now ∷ self.old.puts }
        ensures gets { self.new.gets ≡ self.old.gets }
        ensures reads { RisesBy 2 self.old.reads self.new.reads }
        ensures goes { OnOk result (Goes self.old self.new) }
        ensures cause { IfErr result (Fails self.old self.new) }

        // It fails exactly where its number is listed.
        ensures fault { IfErr result (λ fault. (fault ≡ MemoryFault.Failed) ⊎ (fault ≡ MemoryFault.NoMemory)) }
        ensures listed { IsTrue (is_listed self.old.fail self.old.calls) ↔ (result ≡ Err MemoryFault.Failed) }
        ensures added { OnOk result (self.new ≡ record self.old { nodes = self.old.nodes ++ bytes.now ∷ []; calls = next_count self.old.calls; puts = bytes.now ∷ self.old.puts }) }
        ensures err { OnErr result (self.new ≡ record self.old { calls = next_count self.old.calls; puts = bytes.now ∷ self.old.puts }) }
    {
        self.log = self.log.put(bytes);
        self.count_call()?;
        let at = self.add(alloc, bytes)?;
        Ok(at)
    }
}
