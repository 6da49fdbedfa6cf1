//! The ids of the live design documents.

ghost use Rattle.std.specs.Prelude.{List, IfOk};
ghost use Rattle.view_ports.specs.File.{File};
ghost use Rattle.view_ports.specs.declared.file_name.FileName.{FileName};
ghost use Rattle.doc_file.specs.Designs.{AreDesignIds, AreDesignsOf};
ghost use Rattle.doc_file.specs.Docs.{IsAt};
ghost use Rattle.design_docs.specs.History.{Write};

use super::Docs;
use design_docs::is_design_id;
use json_terms::{Chars, NoMemory};
use std::alloc::Global;

impl Docs {
    /// The ids of the live design documents, in byte order. The one error is want of memory.
    pub fn design_ids(&self, alloc: Global) -> Result<Vec<Chars>, NoMemory>
        ensures kept { IfOk result (λ ids. AreDesignIds self.now ids.items) }
        ensures history { (files : FileName → File) (history : List Write) → IsAt self.now files history
            → IfOk result (λ ids. AreDesignsOf history ids.items) }
    {
        let mut ids = Vec::new(alloc);
        for entry in &self.entries {
            if is_design_id(entry.id.as_str()) && !entry.last.deleted {
                ids.push(entry.id.copy(alloc)?)?;
            }
        }
        Ok(ids)
    }
}
