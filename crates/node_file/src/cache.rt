//! Nodes that were read before.

ghost use Rattle.std.specs.Prelude.{◌≡◌, ◌≤◌, IfOk};
ghost use Rattle.node_file.specs.Cache.{capacity_of, NotesGet, NotesNone, NotesPut};

use json_terms::NoMemory;
use std::alloc::Global;
use tree_laws::NodeLog;

/// Nodes that were read before, so many at most. It keeps none yet: each node is read from its file. What was got and put through
/// it is noted for contracts alone.
#[derive(Debug, Drop)]
pub struct NodeCache {
    capacity: u32,
    log: NodeLog,
}

impl NodeCache {
    /// A cache of 1 to 256 nodes, which is empty. The one error is want of memory.
    pub fn new(alloc: Global, capacity: u32) -> Result<NodeCache, NoMemory>
        requires { (1 ≤ capacity) × (capacity ≤ 256) }
        ensures { IfOk result (λ cache. capacity_of cache ≡ capacity) }
    {
        Ok(NodeCache {
            capacity,
            log: NodeLog::new(),
        })
    }

    /// Empties the cache.
    pub fn forget(&mut self)
        ensures { NotesNone self.old self.new }
    {}

    /// A node is asked for.
    pub(crate) fn note_get(&mut self, at: u64)
        ensures { NotesGet at self.old self.new }
    {
        self.log = self.log.got(&at);
    }

    /// A piece is put.
    pub(crate) fn note_put(&mut self, bytes: &[u8])
        ensures { NotesPut bytes.now self.old self.new }
    {
        self.log = self.log.put(bytes);
    }
}
