//! The nodes of a file by its name, to be read alone.

use crate::cache::NodeCache;
use crate::nodes::get_node;
use gate_file::GateFault;
use std::alloc::Global;
use tree_laws::NodeSource;
use view_ports::{FileName, Folder};

/// The nodes of a file by its name, without an object over the file: each at the place of its record, as `FileNodes` has them. It may
/// be read whatever an object keeps of the file, and nothing is put through it. The folder tells what stands in the file, and the
/// cache what was got.
#[derive(Drop)]
pub struct PastNodes<'a, F> {
    pub cache: &'a mut NodeCache,
    pub folder: &'a mut F,
    pub name: FileName,
}

impl<'a, F: Folder> PastNodes<'a, F> {
    ghost use Rattle.node_file.specs.PastNodes.{IsPastOver};

    /// The nodes of the file of this name.
    pub fn over(cache: &'a mut NodeCache, folder: &'a mut F, name: FileName) -> PastNodes<'a, F>
        ensures { IsPastOver cache.entry folder.entry name result }
    {
        PastNodes {
            cache,
            folder,
            name,
        }
    }
}

impl<'a, F: Folder> NodeSource for PastNodes<'a, F> {
    ghost use Rattle.node_file.specs.Cache.{gets_of, puts_of};
    ghost use Rattle.node_file.specs.PastNodes.{PastFails, PastGoes, past_nodes};
    ghost use Rattle.node_file.specs.PastNodeLaws.{past_causes, past_grew, past_grows, past_keeps, past_ready, past_steps};

    type Fault = GateFault;

    ghost nodes = { past_nodes F.Folder };

    ghost is_ready = { λ nodes. Unit {0} };

    ghost size = { λ nodes. 0 };

    ghost puts = { λ nodes. puts_of nodes.cache.now };

    ghost gets = { λ nodes. gets_of nodes.cache.now };

    ghost reads = { λ nodes. F.reads nodes.folder.now };

    ghost goes = { λ a b. PastGoes F.Folder a b };

    ghost fails = { λ a b fault. PastFails F.Folder a b fault };

    fn get(&mut self, alloc: Global, at: u64) -> Result<Vec<u8>, GateFault> {
        get_node(alloc, &mut *self.cache, &mut *self.folder, self.name, at)
    }

    ghost are_steps = { past_steps _ };

    ghost stays_caused = { past_causes _ };

    ghost keeps = { past_keeps _ };

    ghost stays_ready = { past_ready _ };

    ghost grows = { past_grows _ };

    ghost grew = { past_grew _ };
}
