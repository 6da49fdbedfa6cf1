//! Places between items.

ghost use Rattle.std.specs.Prelude.{◌≡◌, Bool, true};
ghost use Rattle.std.specs.declared.cmp.Ordering.TheVariants.{Less};

use crate::item::Item;

/// A place between items: those before it stand at the front of each list that rises.
pub trait Bound {
    type Unit: Item;

    ghost front: { Self → Self.Unit → Bool };

    /// Whether an item stands before the place. It takes no memory.
    fn before(&self, item: &Self::Unit) -> bool
        ensures { result ≡ front self.now item.now };

    ghost is_front: { (b : Self) (x y : Self.Unit) → Self.Unit.order x y ≡ Less → front b y ≡ true → front b x ≡ true };
}
