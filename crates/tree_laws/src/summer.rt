//! Values of lists of items, which can be joined.

ghost use Rattle.std.specs.Prelude.{◌≡◌, ◌≤◌, ◌++◌, All, List, IfErr, IfOk, OnErr, OnOk, length};
ghost use Rattle.tree_laws.specs.Meaning.{Meaning, AreSteps, IsJoinValue, IsLeafValue, KeepsMeaning, StaysCaused, StaysNoted, sum_limit};
ghost use Rattle.tree_laws.specs.Spelled.{IsReadBack, IsSpelledOnce};

use crate::item::{Item, ItemFault};
use json_terms::NoMemory;
use std::alloc::Global;

/// Values of lists of items, which can be joined.
///
/// What a value means and how it is spelled is `meaning`; `lawful` says whether the values that the calls answer are those, `usable`
/// whether `leaf` may answer any, and `fits` which values there are: `leaf` answers no other, nor does `join` of parts that fit.
/// `goes` says what a call that answers a value may do besides, as with a child that is asked: it changes no meaning nor what fits,
/// what is lawful stays so, and what comes to be usable was so before. `fails` says why a call answered a fault, and what it did.
///
/// `asked` and `gave` note calls: on the way from the one state to the other `leaf` was given these items, and `leaf` or `join`
/// answered this value. A summer may note nothing, and then both hold of everything. A caller that is generic can't tell such a
/// summer from one that notes, so a clause over all summers binds it.
pub trait Summer {
    type Unit: Item;

    type Sum: Drop;

    type Fault: Drop;

    ghost meaning: { Self → Meaning Self.Unit Self.Sum };

    ghost lawful: { Self → Type 0 };

    ghost usable: { Self → Type 0 };

    ghost fits: { Self → Self.Sum → Type 0 };

    ghost goes: { Self → Self → Type 0 };

    ghost fails: { Self → Self → Self.Fault → Type 0 };

    /// From the one state to the other `leaf` was given these items, whatever it answered.
    ghost asked: { Self → Self → List Self.Unit → Type 0 };

    /// From the one to the other `leaf` or `join` answered this value.
    ghost gave: { Self → Self → Self.Sum → Type 0 };

    /// The value of items.
    fn leaf(&mut self, alloc: Global, items: &[Self::Unit]) -> Result<Self::Sum, Self::Fault>
        ensures value { IfOk result (IsLeafValue (lawful self.old) (meaning self.old) items.now) }
        ensures fits { IfOk result (fits self.old) }
        ensures usable { OnOk result (usable self.old) }
        ensures goes { OnOk result (goes self.old self.new) }
        ensures cause { IfErr result (fails self.old self.new) }
        ensures asked { asked self.old self.new items.now }
        ensures gave { IfOk result (gave self.old self.new) };

    /// The value of the items of parts joined, from the values of the parts.
    fn join(&mut self, alloc: Global, parts: &[Self::Sum]) -> Result<Self::Sum, Self::Fault>
        ensures value { IfOk result (IsJoinValue Self.Unit.fits (lawful self.old) (meaning self.old) parts.now) }
        ensures fits { All (fits self.old) parts.now → IfOk result (fits self.old) }
        ensures goes { OnOk result (goes self.old self.new) }
        ensures cause { IfErr result (fails self.old self.new) }
        ensures gave { IfOk result (gave self.old self.new) };

    /// Appends the bytes of a value. Where memory runs out `out` is as it was.
    fn encode_sum(&self, alloc: Global, sum: &Self::Sum, out: &mut Vec<u8>) -> Result<(), NoMemory>
        ensures ok { OnOk result (out.new.items ≡ out.old.items ++ (meaning self.now).spelled sum.now) }
        ensures fits { OnOk result (fits self.now sum.now) }
        ensures err { OnErr result (out.new.items ≡ out.old.items) };

    /// The value of these bytes, or `ItemFault` exactly where they are those of none.
    fn decode_sum(
        &self,
        alloc: Global,
        bytes: &[u8],
    ) -> Result<Result<Self::Sum, ItemFault>, NoMemory>
        ensures { IfOk result (IsReadBack (fits self.now) (meaning self.now).spelled bytes.now) };

    ghost are_steps: { AreSteps goes };

    ghost keeps: { KeepsMeaning goes meaning lawful usable fits };

    ghost stays_caused: { StaysCaused goes fails };

    ghost stays_asked: { StaysNoted goes fails asked };

    ghost stays_given: { StaysNoted goes fails gave };

    ghost one_spelling: { (s : Self) → IsSpelledOnce (fits s) (meaning s).spelled };

    ghost is_short: { (s : Self) (sum : Self.Sum) → fits s sum → length ((meaning s).spelled sum) ≤ sum_limit };
}
