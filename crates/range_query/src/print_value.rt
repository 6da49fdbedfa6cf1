//! Values of groups as they are printed.

ghost use Rattle.std.specs.Prelude.{List, ℕ, OnOk};
ghost use Rattle.view_ports.specs.Lines.{IsLine};
ghost use Rattle.view_model.specs.Written.{Adds, KeepsBefore};

use builtin_reduces::{BuiltinSum, sum_is_line};
use child_pool::{ViewSum, view_sum_is_line};
use json_terms::NoMemory;
use std::alloc::Global;
use view_model::Reply;

/// A value of a group that can be printed.
pub trait PrintValue {
    ghost text: { Self → List ℕ };

    /// Adds the text of the value, which is one line.
    fn print_value(&self, alloc: Global, reply: &mut Reply) -> Result<(), NoMemory>
        ensures ok { OnOk result (Adds reply.old reply.new (text self.now)) }
        ensures before { KeepsBefore reply.old reply.new }
        ensures line { OnOk result (IsLine (text self.now)) };
}

impl PrintValue for BuiltinSum {
    ghost use Rattle.builtin_reduces.specs.Text.{sum_text};

    ghost text = { sum_text };

    fn print_value(&self, alloc: Global, reply: &mut Reply) -> Result<(), NoMemory> {
        sum_is_line(self);
        reply.put_sum(alloc, self)
    }
}

impl PrintValue for ViewSum {
    ghost use Rattle.child_pool.specs.ViewSums.{view_sum_text};

    ghost text = { view_sum_text };

    fn print_value(&self, alloc: Global, reply: &mut Reply) -> Result<(), NoMemory> {
        view_sum_is_line(self);
        match self {
            ViewSum::Builtin(sum) => reply.put_sum(alloc, sum),
            ViewSum::Child(sum) => reply.put_term(alloc, &sum.term),
            ViewSum::Nothing => reply.put(b""),
        }
    }
}
