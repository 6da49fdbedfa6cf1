//! What a summer was called with, and what it answered.

ghost use Rattle.std.specs.Borrow.{ftrue};
ghost use Rattle.std.specs.Coded.{coded_list};
ghost use Rattle.std.specs.Prelude.{◌≡◌, ◌∷◌, List, []};
ghost use Rattle.json_terms.specs.declared.term.Row.{Row};
ghost use Rattle.json_terms.specs.contracts.term.Row as kept_row;
ghost use Rattle.builtin_reduces.specs.declared.sum.BuiltinSum.{BuiltinSum as Answer};
ghost use Rattle.builtin_reduces.specs.contracts.sum.BuiltinSum as kept_sum;

use builtin_reduces::{BuiltinSum, RowItem};
use std::marker::Model;

/// The lists of items that a summer was given for their value, and the values that it answered, the newest first. Only proofs read
/// it: it takes no memory, and its methods do nothing when the program runs.
#[derive(Debug, Drop)]
pub struct SumLog {
    pub ghost asks: { List (List Row) } by { coded_list (coded_list kept_row.the_row.coded) },
    pub ghost answers: { List Answer } by { coded_list kept_sum.the_row.coded },
}

impl Model for SumLog {
    ghost also_owns = { λ _. ftrue };
}

impl SumLog {
    /// Nothing was asked or answered.
    pub fn new() -> SumLog
        ensures { result ≡ record { asks = []; answers = [] } }
    {
        SumLog {}
    }

    /// The log after the value of items was asked for.
    pub fn asked(&self, _items: &[RowItem]) -> SumLog
        ensures { result ≡ record self.now { asks = _items.now ∷ self.now.asks } }
    {
        SumLog {}
    }

    /// The log after a value was answered.
    pub fn gave(&self, _sum: &BuiltinSum) -> SumLog
        ensures { result ≡ record self.now { answers = _sum.now ∷ self.now.answers } }
    {
        SumLog {}
    }
}
