//! The value of rows by the reduce of a view.

ghost use Rattle.std.specs.Prelude.{◌≡◌, ◌++◌, IfOk, OnErr, OnOk};
ghost use Rattle.child_pool.specs.ReduceTalk.{reduce_in};
ghost use Rattle.tree_laws.specs.Spelled.{IsReadBack};
ghost use Rattle.view_ports.specs.Lines.{IsLine};
ghost use Rattle.child_pool.specs.ViewSums.{FitsView, view_sum_bytes, view_sum_text};

use crate::child_sum::ChildSum;
use crate::child_summer::reduce_at;
use builtin_reduces::{BuiltinSum, BuiltinSummer, print_builtin, sum_is_line};
use design_docs::{Design, Reduce};
use json_terms::{NoMemory, text_is_line, write_term};
use std::alloc::Global;
use tree_laws::{ItemFault, Summer};

/// The value of rows by the reduce of a view.
#[derive(Drop)]
pub enum ViewSum {
    /// By one that is built in.
    Builtin(BuiltinSum),
    /// By one that a query server runs.
    Child(ChildSum),
    /// The view has no reduce.
    Nothing,
}

/// Appends the bytes of a value by the reduce of a view: those of a built-in's, or the spelling of a child's, or none where there is nothing. Want of
/// memory is also answered for a value that doesn't fit the reduce. On an error `out` holds what it held.
pub(crate) fn encode_view_sum(
    alloc: Global,
    design: &Design,
    view: u32,
    sum: &ViewSum,
    out: &mut Vec<u8>,
) -> Result<(), NoMemory>
    ensures ok { OnOk result (out.new.items ≡ out.old.items ++ view_sum_bytes sum.now) }
    ensures fits { OnOk result (FitsView (reduce_in design.now.views view) sum.now) }
    ensures err { OnErr result (out.new.items ≡ out.old.items) }
{
    match (reduce_at(design, view), sum) {
        (Some(Reduce::Builtin(kind)), ViewSum::Builtin(sum)) => {
            BuiltinSummer::new(*kind).encode_sum(alloc, sum, out)
        }
        (Some(Reduce::Source(_)), ViewSum::Child(sum)) => sum.put(alloc, out),
        (Some(Reduce::Absent) | None, ViewSum::Nothing) => Ok(()),
        _ => Err(NoMemory),
    }
}

/// The value with these bytes that fits the reduce, or `ItemFault` exactly where they are those of none.
pub(crate) fn decode_view_sum(
    alloc: Global,
    design: &Design,
    view: u32,
    bytes: &[u8],
) -> Result<Result<ViewSum, ItemFault>, NoMemory>
    ensures { IfOk result (IsReadBack (FitsView (reduce_in design.now.views view)) view_sum_bytes bytes.now) }
{
    match reduce_at(design, view) {
        Some(Reduce::Builtin(kind)) => match BuiltinSummer::new(*kind).decode_sum(alloc, bytes)? {
            Ok(sum) => Ok(Ok(ViewSum::Builtin(sum))),
            Err(fault) => Ok(Err(fault)),
        },
        Some(Reduce::Source(_)) => match ChildSum::read(alloc, bytes)? {
            Ok(sum) => Ok(Ok(ViewSum::Child(sum))),
            Err(fault) => Ok(Err(fault)),
        },
        Some(Reduce::Absent) | None => {
            if bytes.is_empty() {
                Ok(Ok(ViewSum::Nothing))
            } else {
                Ok(Err(ItemFault))
            }
        }
    }
}

/// Prints a value behind what `out` holds: a child's as its JSON text, and nothing where there is nothing. The one error is
/// want of memory, and `out` then holds what it held.
pub fn print_view_sum(alloc: Global, sum: &ViewSum, out: &mut Vec<u8>) -> Result<(), NoMemory>
    ensures ok { OnOk result (out.new.items ≡ out.old.items ++ view_sum_text sum.now) }
    ensures err { OnErr result (out.new.items ≡ out.old.items) }
{
    match sum {
        ViewSum::Builtin(sum) => print_builtin(alloc, sum, out),
        ViewSum::Child(sum) => write_term(alloc, &sum.term, out),
        ViewSum::Nothing => Ok(()),
    }
}

/// Tells the prover that no byte of a value's text is a newline. It takes constant time.
pub fn view_sum_is_line(sum: &ViewSum)
    ensures { IsLine (view_sum_text sum.now) }
{
    match sum {
        ViewSum::Builtin(sum) => sum_is_line(sum),
        ViewSum::Child(sum) => text_is_line(&sum.term),
        ViewSum::Nothing => {}
    }
}
