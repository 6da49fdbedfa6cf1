//! The rows of documents.
ghost use Rattle.std.specs.Prelude.{◌≡◌, ◌++◌, ◌∷◌, [], is_ok, length, if◌then◌else◌};

use json_terms::{NoMemory, RowLists};
use std::alloc::Global;
use std::marker::Model;

/// For each document the rows of each map function, seen by contracts as the list of them.
#[derive(Drop)]
pub struct DocRowLists {
    items: Vec<RowLists>,
}

impl Model for DocRowLists {
    ghost use Rattle.std.specs.Prelude.{List};
    ghost use Rattle.std.specs.Coded.{coded_list, coded×};
    ghost use Rattle.json_terms.specs.Json.{Json};
    ghost use Rattle.json_terms.specs.Code.{coded_json};

    ghost Value = { List (List (List (Json × Json))) };

    ghost coded = { coded_list (coded_list (coded_list (coded× coded_json coded_json))) };

    ghost view = { λ lists. lists.items.items };
}

impl DocRowLists {
    /// The rows of no document.
    pub fn new(alloc: Global) -> DocRowLists
        ensures { result ≡ [] }
    {
        DocRowLists {
            items: Vec::new(alloc),
        }
    }

    /// Adds the rows of one more document, or nothing where memory runs out.
    pub fn push(&mut self, lists: RowLists) -> Result<(), NoMemory>
        ensures { self.new ≡ (if is_ok result then self.old ++ lists ∷ [] else self.old) }
    {
        self.items.push(lists)?;
        Ok(())
    }

    /// The rows of each document.
    pub fn as_slice(&self) -> &[RowLists]
        ensures { result.now ≡ self.now }
    {
        self.items.as_slice()
    }

    /// The rows of each document as a vector, without taking memory.
    pub fn into_vec(self) -> Vec<RowLists>
        ensures { result.items ≡ self }
    {
        self.items
    }
}
