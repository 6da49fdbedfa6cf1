//! The value of a group of rows under a built-in reduce.

ghost use Rattle.std.specs.Prelude.{◌≡◌, ◌∷◌, [], IfOk, OnOk};
ghost use Rattle.builtin_reduces.specs.Added.{near_added};

use json_terms::NoMemory;
use std::alloc::Global;
use std::marker::Model;

/// The value of a group of rows.
#[derive(Drop)]
pub enum BuiltinSum {
    /// How many rows there are.
    Count(u64),
    /// The sum of numbers.
    Number(i128),
    /// The sums of the places of arrays.
    Numbers(Sums),
    Stats(Stats),
    /// A row has a value that the reduce can't take.
    Refused,
    /// The sum of the squares is 2^128 - 1 or more.
    Overflow,
}

impl BuiltinSum {
    /// An equal value. The one error is want of memory.
    pub fn copy(&self, alloc: Global) -> Result<BuiltinSum, NoMemory>
        ensures { IfOk result (λ copy. copy ≡ self.now) }
    {
        match self {
            BuiltinSum::Count(count) => Ok(BuiltinSum::Count(*count)),
            BuiltinSum::Number(number) => Ok(BuiltinSum::Number(*number)),
            BuiltinSum::Numbers(sums) => Ok(BuiltinSum::Numbers(sums.copy(alloc)?)),
            BuiltinSum::Stats(stats) => Ok(BuiltinSum::Stats(*stats)),
            BuiltinSum::Refused => Ok(BuiltinSum::Refused),
            BuiltinSum::Overflow => Ok(BuiltinSum::Overflow),
        }
    }
}

/// What `_stats` tells of numbers.
#[derive(Clone, Copy, Debug, PartialEq, Eq)]
pub struct Stats {
    pub sum: i128,
    pub count: u64,
    pub min: i64,
    pub max: i64,
    /// The sum of their squares.
    pub sumsqr: u128,
}

/// The sums of the places of arrays, seen by contracts as the list of them.
#[derive(Drop)]
pub struct Sums {
    items: Vec<i128>,
}

impl Model for Sums {
    ghost use Rattle.std.specs.Prelude.{List, ℤ};
    ghost use Rattle.std.specs.Coded.{coded_list, coded_ℤ};

    ghost Value = { List ℤ };

    ghost coded = { coded_list coded_ℤ };

    ghost view = { λ s. s.items.items };
}

impl Sums {
    /// The sums of one place.
    pub(crate) fn of_one(alloc: Global, number: i128) -> Result<Sums, NoMemory>
        ensures { IfOk result (λ sums. sums ≡ number ∷ []) }
    {
        let mut items = Vec::new(alloc);
        items.push(number)?;
        Ok(Sums { items })
    }

    /// Some numbers as the sums of their places.
    pub(crate) fn new(items: Vec<i128>) -> Sums
        ensures { result ≡ items.items }
    {
        Sums { items }
    }

    fn copy(&self, alloc: Global) -> Result<Sums, NoMemory>
        ensures { IfOk result (λ copy. copy ≡ self.now) }
    {
        let mut items = Vec::new(alloc);
        items.extend_from_slice(self.items.as_slice())?;
        Ok(Sums { items })
    }

    pub fn as_slice(&self) -> &[i128]
        ensures { result.now ≡ self.now }
    {
        self.items.as_slice()
    }

    /// Adds numbers place by place. A sum that doesn't fit becomes the number nearest to it that does.
    pub(crate) fn add(&mut self, numbers: &[i128]) -> Result<(), NoMemory>
        ensures { OnOk result (self.new ≡ near_added self.old numbers.now) }
    {
        add_places(&mut self.items, numbers)
    }
}

fn add_places(sums: &mut Vec<i128>, numbers: &[i128]) -> Result<(), NoMemory>
    ensures { OnOk result (sums.new.items ≡ near_added sums.old.items numbers.now) }
{
    for (place, number) in numbers.iter().enumerate() {
        if place < sums.len() {
            sums[place] = sums[place].saturating_add(*number);
        } else {
            sums.push(*number)?;
        }
    }
    Ok(())
}
