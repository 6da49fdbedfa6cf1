//! A summer of nothing.

ghost use Rattle.std.specs.Prelude.{◌≡◌};

use json_terms::NoMemory;
use std::alloc::Global;
use std::marker::PhantomData;
use tree_laws::{Item, ItemFault, Summer};

/// The summer of a tree whose nodes keep nothing of their items: there is one value, which has no bytes. `leaf` and `join` never
/// fail, and no call changes the summer. For any byte `decode_sum` answers `ItemFault`.
#[derive(Debug, Drop)]
pub struct NoSummary<T> {
    items: PhantomData<T>,
}

impl<T> NoSummary<T> {
    /// The summer, which takes no memory.
    pub fn new() -> NoSummary<T> {
        NoSummary { items: PhantomData }
    }
}

impl<T: Item> Summer for NoSummary<T> {
    ghost use Rattle.tree_laws.specs.Meaning.{nothing_noted};
    ghost use Rattle.index_items.specs.NoSummary.{no_meaning};
    ghost use Rattle.index_items.specs.NoSummaryLaws.{one_value, same_are_steps, same_keeps, value_is_short};

    type Unit = T;

    type Sum = ();

    type Fault = NoMemory;

    ghost meaning = { λ summer. no_meaning };

    ghost lawful = { λ summer. Unit {0} };

    ghost usable = { λ summer. Unit {0} };

    ghost fits = { λ summer sum. Unit {0} };

    ghost goes = { λ a b. b ≡ a };

    ghost fails = { λ a b fault. ⊥ };

    ghost asked = { λ a b items. Unit {0} };

    ghost gave = { λ a b sum. Unit {0} };

    fn leaf(&mut self, _alloc: Global, _items: &[T]) -> Result<(), NoMemory> {
        Ok(())
    }

    fn join(&mut self, _alloc: Global, _parts: &[()]) -> Result<(), NoMemory> {
        Ok(())
    }

    fn encode_sum(&self, _alloc: Global, _sum: &(), _out: &mut Vec<u8>) -> Result<(), NoMemory> {
        Ok(())
    }

    fn decode_sum(&self, _alloc: Global, bytes: &[u8]) -> Result<Result<(), ItemFault>, NoMemory> {
        if bytes.is_empty() {
            Ok(Ok(()))
        } else {
            Ok(Err(ItemFault))
        }
    }

    ghost are_steps = { same_are_steps };

    ghost keeps = { same_keeps _ _ _ _ };

    ghost stays_caused = { λ a b c fault goes fails. fails };

    ghost stays_asked = { nothing_noted _ _ };

    ghost stays_given = { nothing_noted _ _ };

    ghost one_spelling = { λ summer. one_value };

    ghost is_short = { λ summer. value_is_short };
}
