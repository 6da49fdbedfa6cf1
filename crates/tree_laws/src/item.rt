//! What a tree keeps.

ghost use Rattle.std.specs.Prelude.{◌≡◌, ◌++◌, List, ℕ, IfOk, OnErr, OnOk};
ghost use Rattle.std.specs.Cmp.{IsTotalOrder};
ghost use Rattle.std.specs.declared.cmp.Ordering.{Ordering};
ghost use Rattle.tree_laws.specs.Spelled.{IsReadBack, IsSpelledOnce};

use json_terms::NoMemory;
use std::alloc::Global;
use std::cmp::Ordering;

/// The bytes are those of no item, or of no value.
#[derive(Clone, Copy, Debug, PartialEq, Eq)]
pub struct ItemFault;

/// What a tree keeps. Items that differ only in what they aren't ordered by compare equal.
pub trait Item: Drop + Sized {
    ghost order: { Self → Self → Ordering };

    ghost spelled: { Self → List ℕ };

    ghost fits: { Self → Type 0 };

    /// Compares two items. It takes no memory.
    fn cmp_item(&self, other: &Self) -> Ordering
        ensures { result ≡ order self.now other.now };

    /// An equal item. The one error is want of memory.
    fn copy_item(&self, alloc: Global) -> Result<Self, NoMemory>
        ensures { IfOk result (λ copy. copy ≡ self.now) };

    /// Tells the prover that the item keeps the bounds of its type.
    fn validity(&self)
        ensures { fits self.now };

    /// Appends the bytes of the item. Where memory runs out `out` is as it was.
    fn encode(&self, alloc: Global, out: &mut Vec<u8>) -> Result<(), NoMemory>
        ensures ok { OnOk result (out.new.items ≡ out.old.items ++ spelled self.now) }
        ensures err { OnErr result (out.new.items ≡ out.old.items) };

    /// The item of these bytes, or `ItemFault` exactly where they are those of none.
    fn decode(alloc: Global, bytes: &[u8]) -> Result<Result<Self, ItemFault>, NoMemory>
        ensures { IfOk result (IsReadBack fits spelled bytes.now) };

    ghost is_total: { IsTotalOrder order };

    ghost one_spelling: { IsSpelledOnce fits spelled };
}
