//! How the values of groups of rows are had.

ghost use Rattle.std.specs.Prelude.{◌≡◌, ◌<◌, List, ℕ, IfErr, OnOk, length};
ghost use Rattle.tree_laws.specs.Meaning.{AreSteps, StaysCaused};
ghost use Rattle.view_model.specs.declared.group_values.AnswerFault.TheVariants.{NoMemory as OutOfMemory};

use crate::reply::Reply;
use json_terms::{NoMemory, Row};
use std::alloc::Global;

/// Why an answer wasn't printed.
#[derive(Drop)]
pub enum AnswerFault<F> {
    /// The value of a group wasn't had, for this reason.
    Values(F),
    /// Memory ran out.
    NoMemory,
}

impl<F: Drop> From<NoMemory> for AnswerFault<F> {
    ghost from_gives = { λ _ fault. fault ≡ OutOfMemory };

    fn from(_error: NoMemory) -> AnswerFault<F> {
        AnswerFault::NoMemory
    }
}

/// How the values of groups of rows are had.
///
/// `is_value` says which text may be the value of which rows. `goes` says what a call that gives a value may do besides, as with a
/// child that is asked: it changes none of that. `fails` says why a call answered a fault, and what it did.
pub trait GroupValues {
    ghost use Rattle.json_terms.specs.declared.term.Row.{Row};
    ghost use Rattle.view_model.specs.Adding.{AddsSome};
    ghost use Rattle.view_model.specs.GroupValues.{IsCaused, KeepsValues};
    ghost use Rattle.view_model.specs.Written.{KeepsBefore};

    type Fault: Drop;

    ghost is_value: { Self → List Row → List ℕ → Type 0 };

    ghost goes: { Self → Self → Type 0 };

    ghost fails: { Self → Self → Self.Fault → Type 0 };

    /// Adds the text of the value of a group of rows, which has some.
    fn print(
        &mut self,
        alloc: Global,
        group: &[Row],
        reply: &mut Reply,
    ) -> Result<(), AnswerFault<Self::Fault>>
        requires { 0 < length group.now }
        ensures ok { OnOk result (AddsSome (is_value self.old group.now) reply.old reply.new) }
        ensures before { KeepsBefore reply.old reply.new }
        ensures goes { OnOk result (goes self.old self.new) }
        ensures cause { IfErr result (IsCaused (goes self.old self.new) (fails self.old self.new)) };

    ghost are_steps: { AreSteps goes };

    ghost keeps: { KeepsValues goes is_value };

    ghost stays_caused: { StaysCaused goes fails };
}
