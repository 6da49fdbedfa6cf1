//! A built-in reduce that notes its calls.

ghost use Rattle.std.specs.Prelude.{◌≡◌, ◌∷◌, []};

use crate::sum_log::SumLog;
use builtin_reduces::{BuiltinSum, BuiltinSummer, RowItem};
use design_docs::Builtin;
use json_terms::NoMemory;
use std::alloc::Global;
use std::marker::Model;
use tree_laws::{ItemFault, Summer};

/// A built-in reduce as the values of lists of rows, which notes what it is asked for and what it answers.
#[derive(Debug, Drop)]
pub struct NotingSummer {
    kind: Builtin,
    log: SumLog,
}

impl Model for NotingSummer {
    ghost use Rattle.tree_tools.specs.Noting.{NotingState, noting_code};

    ghost Value = { NotingState };

    ghost coded = { noting_code };

    ghost view = { λ s. record { kind = s.kind; asks = s.log.asks; answers = s.log.answers } };
}

impl NotingSummer {
    pub fn new(kind: Builtin) -> NotingSummer
        ensures { result ≡ record { kind = kind; asks = []; answers = [] } }
    {
        NotingSummer {
            kind,
            log: SumLog::new(),
        }
    }

    fn note_asked(&mut self, items: &[RowItem])
        ensures { self.new ≡ record self.old { asks = items.now ∷ self.old.asks } }
    {
        self.log = self.log.asked(items);
    }

    fn note_given(&mut self, sum: &BuiltinSum)
        ensures { self.new ≡ record self.old { answers = sum.now ∷ self.old.answers } }
    {
        self.log = self.log.gave(sum);
    }
}

impl Summer for NotingSummer {
    ghost use Rattle.builtin_reduces.specs.BuiltinMeaning.{builtin_meaning};
    ghost use Rattle.builtin_reduces.specs.SummerLaws.{sums_are_short, sums_spelled_once_under};
    ghost use Rattle.builtin_reduces.specs.SumFits.{FitsUnder};
    ghost use Rattle.tree_laws.specs.Stores.{IsSince};
    ghost use Rattle.tree_tools.specs.Noting.{Fails, Goes};
    ghost use Rattle.tree_tools.specs.NotingLaws.{answers_stay, asks_stay, noting_causes, noting_keeps, noting_steps};

    type Unit = RowItem;

    type Sum = BuiltinSum;

    type Fault = NoMemory;

    ghost meaning = { λ s. builtin_meaning s.kind };

    ghost lawful = { λ s. Unit {0} };

    ghost usable = { λ s. Unit {0} };

    ghost fits = { λ s. FitsUnder s.kind };

    ghost goes = { Goes };

    ghost fails = { λ a b fault. Fails a b };

    ghost asked = { λ a b items. IsSince items a.asks b.asks };

    ghost gave = { λ a b sum. IsSince sum a.answers b.answers };

    fn leaf(&mut self, alloc: Global, items: &[RowItem]) -> Result<BuiltinSum, NoMemory> {
        self.note_asked(items);
        let sum = BuiltinSummer::new(self.kind).leaf(alloc, items)?;
        self.note_given(&sum);
        Ok(sum)
    }

    fn join(&mut self, alloc: Global, parts: &[BuiltinSum]) -> Result<BuiltinSum, NoMemory> {
        let sum = BuiltinSummer::new(self.kind).join(alloc, parts)?;
        self.note_given(&sum);
        Ok(sum)
    }

    fn encode_sum(
        &self,
        alloc: Global,
        sum: &BuiltinSum,
        out: &mut Vec<u8>,
    ) -> Result<(), NoMemory> {
        BuiltinSummer::new(self.kind).encode_sum(alloc, sum, out)
    }

    fn decode_sum(
        &self,
        alloc: Global,
        bytes: &[u8],
    ) -> Result<Result<BuiltinSum, ItemFault>, NoMemory> {
        BuiltinSummer::new(self.kind).decode_sum(alloc, bytes)
    }

    ghost are_steps = { noting_steps };

    ghost keeps = { noting_keeps };

    ghost stays_caused = { λ a b c fault. noting_causes a b c };

    ghost stays_asked = { asks_stay };

    ghost stays_given = { answers_stay };

    ghost one_spelling = { λ s. sums_spelled_once_under s.kind };

    ghost is_short = { λ s. sums_are_short s.kind };
}
