//! The replies to lines, cut from what a run wrote.

ghost use Rattle.std.specs.Prelude.{IfOk, ℕ, List, map};
ghost use Rattle.view_ports.specs.Lines.{IsCut};

use json_terms::NoMemory;
use std::alloc::Global;
use view_ports::cut_line;

/// The lines of a text, each without its newline, but for what stands behind the last newline. The one error is want of memory.
pub fn cut_lines(alloc: Global, text: &[u8]) -> Result<Vec<&[u8]>, NoMemory>
    ensures { IfOk result (λ lines. (rest : List ℕ)
        × IsCut text.now (map (λ line. line.now) lines.items) rest) }
{
    let mut lines = Vec::new(alloc);
    let mut rest = text;
    while let Some((line, behind)) = cut_line(rest) {
        lines.push(line)?;
        rest = behind;
    }
    Ok(lines)
}
