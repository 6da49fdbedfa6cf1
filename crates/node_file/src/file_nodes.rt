//! A file as a store of nodes.

use crate::cache::NodeCache;
use crate::nodes::{get_node, put_node};
use gate_file::{GateFault, GateFile};
use std::alloc::Global;
use tree_laws::{NodeSource, NodeStore};
use view_ports::Folder;

/// A file as a store of nodes, each at the place of its record. Its size is the file's length, where a new file counts 8,192
/// bytes. The folder tells what stands in it, and the cache what was got and put.
#[derive(Drop)]
pub struct FileNodes<'a, F> {
    pub cache: &'a mut NodeCache,
    pub folder: &'a mut F,
    pub file: &'a mut GateFile,
}

impl<'a, F: Folder> FileNodes<'a, F> {
    ghost use Rattle.node_file.specs.FileNodes.{IsOver};

    /// The nodes of a file.
    pub fn over(
        cache: &'a mut NodeCache,
        folder: &'a mut F,
        file: &'a mut GateFile,
    ) -> FileNodes<'a, F>
        ensures { IsOver cache.entry folder.entry file.entry result }
    {
        FileNodes {
            cache,
            folder,
            file,
        }
    }
}

impl<'a, F: Folder> NodeSource for FileNodes<'a, F> {
    ghost use Rattle.gate_file.specs.GateFile.{start_of};
    ghost use Rattle.node_file.specs.Cache.{gets_of, puts_of};
    ghost use Rattle.node_file.specs.FileNodes.{FileFails, FileGoes, IsReady, nodes_of};
    ghost use Rattle.node_file.specs.FileNodeLaws.{file_causes, file_grew, file_grows, file_keeps, file_ready, file_steps};

    type Fault = GateFault;

    ghost nodes = { nodes_of F.Folder };

    ghost is_ready = { IsReady F.Folder };

    ghost size = { λ nodes. start_of nodes.file.now };

    ghost puts = { λ nodes. puts_of nodes.cache.now };

    ghost gets = { λ nodes. gets_of nodes.cache.now };

    ghost reads = { λ nodes. F.reads nodes.folder.now };

    ghost goes = { λ a b. FileGoes F.Folder a b };

    ghost fails = { λ a b fault. FileFails F.Folder a b fault };

    fn get(&mut self, alloc: Global, at: u64) -> Result<Vec<u8>, GateFault> {
        get_node(
            alloc,
            &mut *self.cache,
            &mut *self.folder,
            self.file.name(),
            at,
        )
    }

    ghost are_steps = { file_steps _ };

    ghost stays_caused = { file_causes _ };

    ghost keeps = { file_keeps _ };

    ghost stays_ready = { file_ready _ };

    ghost grows = { file_grows _ };

    ghost grew = { file_grew _ };
}

impl<'a, F: Folder> NodeStore for FileNodes<'a, F> {
    fn put(&mut self, alloc: Global, bytes: &[u8]) -> Result<u64, GateFault> {
        put_node(
            alloc,
            &mut *self.cache,
            &mut *self.folder,
            &mut *self.file,
            bytes,
        )
    }
}
