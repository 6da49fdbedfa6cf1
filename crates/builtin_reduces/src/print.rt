//! The value of a group as it is printed.

ghost use Rattle.std.specs.Prelude.{◌≡◌, ◌≢◌, ◌++◌, codes, All, OnErr, OnOk};
ghost use Rattle.std.specs.Fmt.{signed_decimal};
ghost use Rattle.builtin_reduces.specs.Text.{sum_text, numbers_text};
ghost use Rattle.builtin_reduces.specs.Written.{Adds, KeepsBefore, comma_if};

use crate::sum::{BuiltinSum, Stats};
use crate::text::Text;
use json_terms::NoMemory;
use std::alloc::Global;

/// Prints a value behind what `out` holds. The one error is want of memory, and `out` then holds what it held.
pub fn print_builtin(alloc: Global, sum: &BuiltinSum, out: &mut Vec<u8>) -> Result<(), NoMemory>
    ensures ok { OnOk result (out.new.items ≡ out.old.items ++ sum_text sum.now) }
    ensures err { OnErr result (out.new.items ≡ out.old.items) }
{
    let mut text = Text::behind(alloc, out);
    let written = put_sum(sum, &mut text);
    text.end(written, out)
}

/// Tells the prover that no byte of a value's text is a newline. It takes constant time.
pub fn sum_is_line(sum: &BuiltinSum)
    ensures { All (λ byte. byte ≢ 10) (sum_text sum.now) }
{}

fn put_sum(sum: &BuiltinSum, text: &mut Text) -> Result<(), NoMemory>
    ensures ok { OnOk result (Adds text.old text.new (sum_text sum.now)) }
    ensures before { KeepsBefore text.old text.new }
{
    match sum {
        BuiltinSum::Count(count) => text.put_number(*count),
        BuiltinSum::Number(number) => text.put_number(*number),
        BuiltinSum::Numbers(sums) => put_numbers(sums.as_slice(), text),
        BuiltinSum::Stats(stats) => put_stats(stats, text),
        BuiltinSum::Refused => text.put(b"{\"error\":\"builtin_reduce_error\"}"),
        BuiltinSum::Overflow => text.put(b"{\"error\":\"builtin_reduce_overflow\"}"),
    }
}

fn put_numbers(numbers: &[i128], text: &mut Text) -> Result<(), NoMemory>
    ensures ok { OnOk result (Adds text.old text.new (codes "[" ++ numbers_text numbers.now ++ codes "]")) }
    ensures before { KeepsBefore text.old text.new }
{
    text.put(b"[")?;
    let mut later = false;
    for number in numbers {
        put_next(*number, later, text)?;
        later = true;
    }
    text.put(b"]")
}

/// A number, after a comma where a number stands before it.
fn put_next(number: i128, later: bool, text: &mut Text) -> Result<(), NoMemory>
    ensures ok { OnOk result (Adds text.old text.new (comma_if later ++ signed_decimal number)) }
    ensures before { KeepsBefore text.old text.new }
{
    if later {
        text.put(b",")?;
    }
    text.put_number(number)
}

fn put_stats(stats: &Stats, text: &mut Text) -> Result<(), NoMemory>
    ensures ok { OnOk result (Adds text.old text.new (sum_text (BuiltinSum.Stats stats.now))) }
    ensures before { KeepsBefore text.old text.new }
{
    text.put(b"{\"sum\":")?;
    text.put_number(stats.sum)?;
    text.put(b",\"count\":")?;
    text.put_number(stats.count)?;
    text.put(b",\"min\":")?;
    text.put_number(stats.min)?;
    text.put(b",\"max\":")?;
    text.put_number(stats.max)?;
    text.put(b",\"sumsqr\":")?;
    text.put_number(stats.sumsqr)?;
    text.put(b"}")
}
