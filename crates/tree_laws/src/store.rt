//! Where the nodes of trees are kept.

ghost use Rattle.std.specs.Prelude.{◌≡◌, ◌+◌, ◌∷◌, ℕ, List, Option, Some, IfErr, IfOk, IfSome, OnOk, length};
ghost use Rattle.tree_laws.specs.Meaning.{AreSteps, StaysCaused};
ghost use Rattle.tree_laws.specs.Stores.{Growing, KeepsPlaces, Places, RisesBy};

use std::alloc::Global;

/// Nodes in bytes by their places.
///
/// `nodes` says what stands at each place, where the source tells it, as a real file doesn't. A call is made only where
/// `is_ready` holds: after a fault a file may not be what the object over it keeps of it. `goes` says what a call that answers
/// Ok may do: what is told stays told, each node stays as it is, and the source stays ready. `fails` says why a call answered a
/// fault, and what it did. `size` and `puts` are those of a store; a source to which nothing can be put may have any that no
/// `get` changes. No more bytes come than those of the pieces that were put, with 8 more for each.
pub trait NodeSource {
    type Fault: Drop;

    ghost nodes: { Self → Option Places };

    ghost is_ready: { Self → Type 0 };

    /// How many bytes the nodes take.
    ghost size: { Self → ℕ };

    /// The pieces that `put` was called with, whatever it answered, the newest first.
    ghost puts: { Self → List (List ℕ) };

    /// The places that `get` was called with, whatever it answered, the newest first.
    ghost gets: { Self → List ℕ };

    /// How many reads were made.
    ghost reads: { Self → ℕ };

    ghost goes: { Self → Self → Type 0 };

    ghost fails: { Self → Self → Self.Fault → Type 0 };

    /// The bytes at a place.
    fn get(&mut self, alloc: Global, at: u64) -> Result<Vec<u8>, Self::Fault>
        requires { is_ready self.old }
        ensures ready { OnOk result (is_ready self.new) }
        ensures bytes { IfSome (nodes self.old) (λ there. IfOk result (λ bytes. there at ≡ Some bytes.items)) }
        ensures nodes { nodes self.new ≡ nodes self.old }
        ensures size { size self.new ≡ size self.old }
        ensures puts { puts self.new ≡ puts self.old }
        ensures gets { gets self.new ≡ at ∷ gets self.old }
        ensures reads { RisesBy 2 (reads self.old) (reads self.new) }
        ensures goes { OnOk result (goes self.old self.new) }
        ensures cause { IfErr result (fails self.old self.new) };

    ghost are_steps: { AreSteps goes };

    ghost stays_caused: { StaysCaused goes fails };

    ghost keeps: { (a b : Self) → goes a b → KeepsPlaces (nodes a) (nodes b) };

    ghost stays_ready: { (a b : Self) → goes a b → is_ready a → is_ready b };

    ghost grows: { (a b : Self) → goes a b → Growing (puts a) (puts b) (size a) (size b) };

    ghost grew: { (a b : Self) (fault : Self.Fault) → fails a b fault → Growing (puts a) (puts b) (size a) (size b) };
}

/// Nodes in bytes by their places, to which more can be put.
pub trait NodeStore: NodeSource {
    /// Puts a piece, and answers its place. It takes 8 bytes more than the piece has, and no node that is there changes. What
    /// stands there after a fault `fails` says.
    fn put(&mut self, alloc: Global, bytes: &[u8]) -> Result<u64, Self::Fault>
        requires { Self.is_ready self.old }
        ensures ready { OnOk result (Self.is_ready self.new) }
        ensures place { IfSome (Self.nodes self.new) (λ there. IfOk result (λ at. there at ≡ Some bytes.now)) }
        ensures kept { OnOk result (KeepsPlaces (Self.nodes self.old) (Self.nodes self.new)) }
        ensures size { OnOk result (Self.size self.new ≡ Self.size self.old + (length bytes.now + 8)) }
        ensures no_more { RisesBy (length bytes.now + 8) (Self.size self.old) (Self.size self.new) }
        ensures puts { Self.puts self.new ≡ bytes.now ∷ Self.puts self.old }
        ensures gets { Self.gets self.new ≡ Self.gets self.old }
        ensures reads { RisesBy 2 (Self.reads self.old) (Self.reads self.new) }
        ensures goes { OnOk result (Self.goes self.old self.new) }
        ensures cause { IfErr result (Self.fails self.old self.new) };
}
