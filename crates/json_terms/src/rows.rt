//! What map functions emit: lists of keys and values.

ghost use Rattle.std.specs.Prelude.{◌≡◌, ◌++◌, ◌∷◌, [], map, length, IfOk, OnOk, OnErr};

use crate::fault::NoMemory;
use crate::term::Term;
use std::alloc::Global;
use std::marker::Model;

/// A key and a value that a map function emitted.
#[derive(Drop)]
pub struct Emission {
    pub key: Term,
    pub value: Term,
}

/// What one map function emitted for one document, in order; seen by contracts as the list of keys and values.
#[derive(Drop)]
pub struct Emissions {
    items: Vec<Emission>,
}

impl Model for Emissions {
    ghost use Rattle.std.specs.Prelude.{List, map};
    ghost use Rattle.std.specs.Coded.{coded_list, coded×};
    ghost use Rattle.json_terms.specs.Json.{Json};
    ghost use Rattle.json_terms.specs.Code.{coded_json};

    ghost Value = { List (Json × Json) };

    ghost coded = { coded_list (coded× coded_json coded_json) };

    ghost use Rattle.json_terms.specs.Emitted.{key_value};

    ghost view = { λ e. map key_value e.items.items };
}

/// What each of some map functions emitted for one document, in the order of the functions; seen by contracts as a list
/// of lists of keys and values.
#[derive(Drop)]
pub struct RowLists {
    lists: Vec<Emissions>,
}

impl Model for RowLists {
    ghost use Rattle.std.specs.Prelude.{List};
    ghost use Rattle.std.specs.Coded.{coded_list, coded×};
    ghost use Rattle.json_terms.specs.Json.{Json};
    ghost use Rattle.json_terms.specs.Code.{coded_json};

    ghost Value = { List (List (Json × Json)) };

    ghost coded = { coded_list (coded_list (coded× coded_json coded_json)) };

    ghost view = { λ r. r.lists.items };
}

impl Emissions {
    ghost use Rattle.json_terms.specs.Seen.{json};
    ghost use Rattle.json_terms.specs.Emitted.{key_value};

    pub fn new(alloc: Global) -> Emissions
        ensures { result ≡ [] }
    {
        Emissions {
            items: Vec::new(alloc),
        }
    }

    /// The emissions of a vector, without taking memory.
    pub fn from_vec(items: Vec<Emission>) -> Emissions
        ensures { result ≡ map key_value items.items }
    {
        Emissions { items }
    }

    pub fn len(&self) -> usize
        ensures { result ≡ length self.now }
    {
        self.items.as_slice().len()
    }

    /// Adds an emission at the end. Where memory runs out the list is as it was.
    pub fn push(&mut self, key: Term, value: Term) -> Result<(), NoMemory>
        ensures ok { OnOk result (self.new ≡ self.old ++ (json key, json value) ∷ []) }
        ensures err { OnErr result (self.new ≡ self.old) }
    {
        self.items.push(Emission { key, value })?;
        Ok(())
    }

    pub fn as_slice(&self) -> &[Emission]
        ensures { map key_value result.now ≡ self.now }
    {
        self.items.as_slice()
    }

    /// The emissions as a vector, without taking memory.
    pub fn into_vec(self) -> Vec<Emission>
        ensures { map key_value result.items ≡ self }
    {
        self.items
    }
}

impl RowLists {
    pub fn new(alloc: Global) -> RowLists
        ensures { result ≡ [] }
    {
        RowLists {
            lists: Vec::new(alloc),
        }
    }

    /// The lists of a vector, without taking memory.
    pub fn from_vec(lists: Vec<Emissions>) -> RowLists
        ensures { result ≡ lists.items }
    {
        RowLists { lists }
    }

    pub fn len(&self) -> usize
        ensures { result ≡ length self.now }
    {
        self.lists.as_slice().len()
    }

    /// Adds the emissions of one more function. Where memory runs out the lists are as they were.
    pub fn push(&mut self, emissions: Emissions) -> Result<(), NoMemory>
        ensures ok { OnOk result (self.new ≡ self.old ++ emissions ∷ []) }
        ensures err { OnErr result (self.new ≡ self.old) }
    {
        self.lists.push(emissions)?;
        Ok(())
    }

    pub fn as_slice(&self) -> &[Emissions]
        ensures { result.now ≡ self.now }
    {
        self.lists.as_slice()
    }

    /// The lists as a vector, without taking memory.
    pub fn into_vec(self) -> Vec<Emissions>
        ensures { result.items ≡ self }
    {
        self.lists
    }
}
