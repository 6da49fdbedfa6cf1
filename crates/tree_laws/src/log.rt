//! What a store was called with.

ghost use Rattle.std.specs.Borrow.{ftrue};
ghost use Rattle.std.specs.Prelude.{◌≡◌, ◌∷◌, ℕ, List, []};

use std::marker::Model;

/// The places that a store was asked for and the pieces that were put into it, the newest first. Only proofs read it: it takes no
/// memory, and its methods do nothing when the program runs.
#[derive(Debug, Drop)]
pub struct NodeLog {
    pub ghost gets: { List ℕ },
    pub ghost puts: { List (List ℕ) },
}

impl Model for NodeLog {
    ghost also_owns = { λ _. ftrue };
}

impl NodeLog {
    /// Nothing was got or put.
    pub fn new() -> NodeLog
        ensures { result ≡ record { gets = []; puts = [] } }
    {
        NodeLog {}
    }

    /// The log after a place was asked for.
    pub fn got(&self, _at: &u64) -> NodeLog
        ensures { result ≡ record self.now { gets = _at.now ∷ self.now.gets } }
    {
        NodeLog {}
    }

    /// The log after a piece was put.
    pub fn put(&self, _bytes: &[u8]) -> NodeLog
        ensures { result ≡ record self.now { puts = _bytes.now ∷ self.now.puts } }
    {
        NodeLog {}
    }
}
