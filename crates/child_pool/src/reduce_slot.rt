//! The slot whose child reduces, for one talk: the child is reset once, and then asked for values.

ghost use Rattle.std.specs.Prelude.{◌≡◌, ◌≢◌, ◌<◌, ◌≤◌, ◌⊎◌, ◌++◌, ◌∷◌, List, ℕ, [], None, Err, Ok, Some, map, length, IfErr, IfOk, OnErr, OnOk};
ghost use Rattle.json_terms.specs.Seen.{json};
ghost use Rattle.std.specs.List.{AllByRecursion};
ghost use Rattle.view_ports.specs.Functions.{IsWithinBounds};
ghost use Rattle.view_ports.specs.ReduceRow.{reduce_row};
ghost use Rattle.query_protocol.specs.CommandLines.{IsWhole};
ghost use Rattle.builtin_reduces.specs.Kept.{IsKept};
ghost use Rattle.child_pool.specs.Reducing.{IsReduceLine};
ghost use Rattle.child_pool.specs.Languages.{path_in};
ghost use Rattle.child_pool.specs.Pools.{languages_of};
ghost use Rattle.child_pool.specs.ReduceTalk as talk;

use crate::child_sum::ChildSum;
use crate::pool::Pool;
use crate::pool_fault::PoolFault;
use crate::reducing::{reduce_one, rows_line, values_line};
use builtin_reduces::{RowItem, copy_row};
use json_terms::{Chars, NoMemory, Row, Term, copy_term};
use std::alloc::Global;
use tree_laws::Item;
use view_ports::{Command, Servers};

/// How many rows, or how many values, a line has at most.
const PART: usize = 32;

/// How far a talk has come.
#[derive(Clone, Copy, Debug, PartialEq, Eq)]
pub enum Stage {
    /// Nothing was asked yet.
    Idle,
    /// The child was reset, and has answered each line.
    Begun,
    /// There was a refusal: all children are stopped, and nothing more is asked.
    GivenUp,
}

/// The slot whose child reduces, for one talk.
#[derive(Drop)]
pub struct ReduceSlot<'a, C: Servers> {
    pub(crate) pool: &'a mut Pool,
    pub(crate) servers: &'a mut C,
    pub(crate) stage: Stage,
}

impl<'a, C: Servers> ReduceSlot<'a, C> {
    /// The slot of a pool, of whose child nothing was asked yet.
    pub fn over(pool: &'a mut Pool, servers: &'a mut C) -> ReduceSlot<'a, C>
        ensures pool { result.pool.ghost_name ≡ pool.entry.ghost_name }
        ensures servers { result.servers.ghost_name ≡ servers.entry.ghost_name }
        ensures lent { result.pool.now ≡ pool.old }
        ensures served { result.servers.now ≡ servers.old }
        ensures idle { result.stage ≡ Stage.Idle }
    {
        ReduceSlot {
            pool,
            servers,
            stage: Stage::Idle,
        }
    }

    /// The value of rows by the source of a reduce function. They are cut in parts of 32, whose values are made one by further lines.
    /// Of no rows there is none: the error is want of memory.
    pub(crate) fn reduce(
        &mut self,
        alloc: Global,
        language: &str,
        source: &str,
        items: &[RowItem],
    ) -> Result<Term, PoolFault>
        ensures talks { OnOk result (talk.Talks C.Servers language.now source.now self.old self.new) }
        ensures compiles { OnOk result (talk.Compiles C.Servers language.now source.now self.old) }
        ensures bounded { IfOk result (λ value. IsWithinBounds (json value)) }
        ensures right { IfOk result (λ value. talk.IsRightFor C.Servers language.now source.now
            self.old items.now (json value)) }
        ensures cause { IfErr result (talk.Blames C.Servers language.now source.now self.old self.new) }
        ensures stage { OnErr result (self.new.stage ≡ Stage.GivenUp) }
    {
        let mut values = Vec::new(alloc);
        let mut left = items;
        while !left.is_empty() {
            let (part, rest) = left.split_at(left.len().min(PART));
            let value = match self.ask_rows(alloc, language, source, part) {
                Ok(value) => value,
                Err(fault) => return Err(fault),
            };
            match self.fold(alloc, language, source, &mut values, value) {
                Ok(()) => {}
                Err(fault) => return Err(fault),
            }
            left = rest;
        }
        self.whole(alloc, language, source, values)
    }

    /// The value of all rows together, from the values of parts. Of no part there is none: the error is want of memory.
    pub(crate) fn rereduce(
        &mut self,
        alloc: Global,
        language: &str,
        source: &str,
        sums: &[ChildSum],
    ) -> Result<Term, PoolFault>
        ensures talks { OnOk result (talk.Talks C.Servers language.now source.now self.old self.new) }
        ensures bounded { IfOk result (λ value. IsWithinBounds (json value)) }
        ensures right { IfOk result (λ value. talk.Rejoins C.Servers language.now source.now
            self.old sums.now (json value)) }
        ensures cause { IfErr result (talk.Blames C.Servers language.now source.now self.old self.new) }
        ensures stage { OnErr result (self.new.stage ≡ Stage.GivenUp) }
    {
        let mut values = Vec::new(alloc);
        for sum in sums {
            let Ok(value) = copy_term(alloc, &sum.term) else {
                return Err(self.spend());
            };
            match self.fold(alloc, language, source, &mut values, value) {
                Ok(()) => {}
                Err(fault) => return Err(fault),
            }
        }
        self.whole(alloc, language, source, values)
    }

    /// Takes a value in behind others, which are fewer than a line has at most. Where they are as many then, they are made one.
    fn fold(
        &mut self,
        alloc: Global,
        language: &str,
        source: &str,
        values: &mut Vec<Term>,
        value: Term,
    ) -> Result<(), PoolFault>
        requires short { length values.old.items < 32 }
        requires bounded { AllByRecursion IsWithinBounds (map json values.old.items) }
        requires within { IsWithinBounds (json value) }
        ensures talks { OnOk result (talk.Talks C.Servers language.now source.now self.old self.new) }
        ensures short { OnOk result (length values.new.items < 32) }
        ensures some { OnOk result (0 < length values.new.items) }
        ensures bounded { OnOk result (AllByRecursion IsWithinBounds (map json values.new.items)) }
        ensures folds { OnOk result (talk.FoldsIn C.Servers language.now source.now self.old
            (map json values.old.items) (json value) (map json values.new.items)) }
        ensures cause { IfErr result (talk.Blames C.Servers language.now source.now self.old self.new) }
        ensures stage { OnErr result (self.new.stage ≡ Stage.GivenUp) }
    {
        if keep(values, value).is_err() {
            return Err(self.spend());
        }
        if values.len() < PART {
            return Ok(());
        }
        let one = match self.ask_values(alloc, language, source, values.as_slice()) {
            Ok(one) => one,
            Err(fault) => return Err(fault),
        };
        *values = Vec::new(alloc);
        match keep(values, one) {
            Ok(()) => Ok(()),
            Err(NoMemory) => Err(self.spend()),
        }
    }

    /// Makes the values of all parts one.
    fn whole(
        &mut self,
        alloc: Global,
        language: &str,
        source: &str,
        mut values: Vec<Term>,
    ) -> Result<Term, PoolFault>
        requires few { length values.items ≤ 32 }
        requires bounded { AllByRecursion IsWithinBounds (map json values.items) }
        ensures talks { OnOk result (talk.Talks C.Servers language.now source.now self.old self.new) }
        ensures some { OnOk result (0 < length values.items) }
        ensures bounded { IfOk result (λ value. IsWithinBounds (json value)) }
        ensures whole { IfOk result (λ value. talk.IsWholeOf C.Servers language.now source.now self.old
            (map json values.items) (json value)) }
        ensures cause { IfErr result (talk.Blames C.Servers language.now source.now self.old self.new) }
        ensures stage { OnErr result (self.new.stage ≡ Stage.GivenUp) }
    {
        if values.len() > 1 {
            return self.ask_values(alloc, language, source, values.as_slice());
        }
        match values.pop() {
            Some(value) => Ok(value),
            None => Err(self.spend()),
        }
    }

    /// The value of some rows, as many as a line has at most.
    fn ask_rows(
        &mut self,
        alloc: Global,
        language: &str,
        source: &str,
        part: &[RowItem],
    ) -> Result<Term, PoolFault>
        requires some { 0 < length part.now }
        requires few { length part.now ≤ 32 }
        ensures talks { OnOk result (talk.Talks C.Servers language.now source.now self.old self.new) }
        ensures compiles { OnOk result (talk.Compiles C.Servers language.now source.now self.old) }
        ensures bounded { IfOk result (λ value. IsWithinBounds (json value)) }
        ensures right { IfOk result (λ value. talk.IsRightFor C.Servers language.now source.now
            self.old part.now (json value)) }
        ensures cause { IfErr result (talk.Blames C.Servers language.now source.now self.old self.new) }
        ensures stage { OnErr result (self.new.stage ≡ Stage.GivenUp) }
    {
        match part_line(alloc, source, part) {
            Ok(line) => self.ask(alloc, language, line.as_slice()),
            Err(NoMemory) => Err(self.spend()),
        }
    }

    /// The value of some values, as many as a line has at most.
    fn ask_values(
        &mut self,
        alloc: Global,
        language: &str,
        source: &str,
        values: &[Term],
    ) -> Result<Term, PoolFault>
        requires some { 0 < length values.now }
        requires few { length values.now ≤ 32 }
        requires bounded { AllByRecursion IsWithinBounds (map json values.now) }
        ensures talks { OnOk result (talk.Talks C.Servers language.now source.now self.old self.new) }
        ensures bounded { IfOk result (λ value. IsWithinBounds (json value)) }
        ensures made { IfOk result (λ value. talk.IsMadeOf C.Servers language.now source.now
            (Command.Rereduce source.now (map json values.now)) self.old (json value)) }
        ensures cause { IfErr result (talk.Blames C.Servers language.now source.now self.old self.new) }
        ensures stage { OnErr result (self.new.stage ≡ Stage.GivenUp) }
    {
        match values_line(alloc, source, values) {
            Ok(line) => self.ask(alloc, language, line.as_slice()),
            Err(NoMemory) => Err(self.spend()),
        }
    }

    /// The line asks a child for a value. Nothing is asked after a refusal, and the error is then want of memory; a refusal stops
    /// all children.
    fn ask(&mut self, alloc: Global, language: &str, line: &[u8]) -> Result<Term, PoolFault>
        requires whole { IsWhole line.now }
        ensures asks { talk.AsksBy C.Servers language.now line.now self.old self.new result }
        ensures stage { OnErr result (self.new.stage ≡ Stage.GivenUp) }
    {
        if self.stage == Stage::GivenUp {
            return Err(PoolFault::NoMemory);
        }
        match self.try_ask(alloc, language, line) {
            Ok(value) => Ok(value),
            Err(fault) => {
                self.pool.stop_all(self.servers);
                self.stage = Stage::GivenUp;
                Err(fault)
            }
        }
    }

    /// Gives the talk up for want of memory: all children are stopped, unless they were. The fault is that.
    pub(crate) fn spend(&mut self) -> PoolFault
        ensures want { result ≡ PoolFault.NoMemory }
        ensures stage { self.new.stage ≡ Stage.GivenUp }
        ensures fails { (language : List ℕ) (reduces : List (List ℕ)) →
            talk.Fails C.Servers language reduces self.old self.new result }
    {
        if self.stage == Stage::GivenUp {
            return PoolFault::NoMemory;
        }
        self.pool.stop_all(self.servers);
        self.stage = Stage::GivenUp;
        PoolFault::NoMemory
    }

    /// The same, but after a refusal the children may be as they were left.
    fn try_ask(&mut self, alloc: Global, language: &str, line: &[u8]) -> Result<Term, PoolFault>
        requires going { self.old.stage ≢ Stage.GivenUp }
        requires whole { IsWhole line.now }
        ensures { talk.Tries C.Servers language.now line.now self.old self.new result }
    {
        let path = match path_of(alloc, self.pool, language) {
            Ok(path) => path,
            Err(fault) => return Err(fault),
        };
        match self.begin(alloc, path.as_str()) {
            Ok(()) => {}
            Err(fault) => return Err(fault),
        }
        let slot = self.pool.reduce_slot();
        reduce_one(alloc, self.servers, slot, path.as_str(), line)
    }

    /// Resets the child where nothing was asked yet.
    fn begin(&mut self, alloc: Global, path: &str) -> Result<(), PoolFault>
        requires going { self.old.stage ≢ Stage.GivenUp }
        ensures { talk.Begins C.Servers path.now self.old self.new result }
    {
        if self.stage == Stage::Begun {
            return Ok(());
        }
        match self.pool.reset_reducer(alloc, self.servers, path) {
            Ok(()) => {
                self.stage = Stage::Begun;
                Ok(())
            }
            Err(fault) => Err(fault),
        }
    }
}

/// The path of a language in a pool.
fn path_of(alloc: Global, pool: &Pool, language: &str) -> Result<Chars, PoolFault>
    ensures path { IfOk result (λ path. path_in (languages_of pool.now) language.now ≡ Some path) }
    ensures unknown { path_in (languages_of pool.now) language.now ≡ None
        → result ≡ Err PoolFault.UnknownLanguage }
    ensures refused { IfErr result (λ fault. (fault ≡ PoolFault.NoMemory)
        ⊎ ((fault ≡ PoolFault.UnknownLanguage) × (path_in (languages_of pool.now) language.now ≡ None))) }
{
    let Some(path) = pool.path_of(language) else {
        return Err(PoolFault::UnknownLanguage);
    };
    match Chars::from_text(alloc, path) {
        Ok(path) => Ok(path),
        Err(NoMemory) => Err(PoolFault::NoMemory),
    }
}

/// Adds a value.
fn keep(values: &mut Vec<Term>, value: Term) -> Result<(), NoMemory>
    ensures ok { OnOk result (values.new.items ≡ values.old.items ++ (value ∷ [])) }
{
    values.push(value)?;
    Ok(())
}

/// The line that asks for the value of some rows.
fn part_line(alloc: Global, source: &str, part: &[RowItem]) -> Result<Vec<u8>, NoMemory>
    ensures line { IfOk result (λ line. IsReduceLine (Command.Reduce source.now
        (map reduce_row part.now)) line.items) }
    ensures kept { OnOk result (AllByRecursion IsKept part.now) }
{
    let rows = rows_of(alloc, part)?;
    rows_line(alloc, source, rows.as_slice())
}

/// Copies of the rows of items.
fn rows_of(alloc: Global, items: &[RowItem]) -> Result<Vec<Row>, NoMemory>
    ensures same { IfOk result (λ rows. rows.items ≡ items.now) }
    ensures kept { OnOk result (AllByRecursion IsKept items.now) }
{
    let mut rows = Vec::new(alloc);
    for item in items {
        item.validity();
        rows.push(copy_row(alloc, &item.row)?)?;
    }
    Ok(rows)
}
