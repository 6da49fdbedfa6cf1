//! The lines of a load.

ghost use Rattle.std.specs.Prelude.{◌≡◌, IfOk, map};
ghost use Rattle.json_terms.specs.Seen.{json};
ghost use Rattle.load_lines.specs.Documents.{load_design};
ghost use Rattle.load_lines.specs.Lines.{put_line as put_text, view_line as view_text, info_line as info_text};
ghost use Rattle.load_lines.specs.Lines.{first_lines as first_texts, second_lines as second_texts};

use crate::documents::{document, raised};
use crate::numbers::Generator;
use json_terms::{Chars, Members, NoMemory, Term, write_term};
use std::alloc::Global;

/// The line that asks for the view's groups.
const VIEW_LINE: &[u8] = br#"{"query":{"group_level":1},"view":["load","by_group"]}"#;

/// The line that asks for the counts.
const INFO_LINE: &[u8] = br#"{"info":true}"#;

/// The line that puts the design document.
const DESIGN_LINE: &[u8] =
    br#"{"put":{"_id":"_design/load","language":"pick","views":{"by_group":{"map":"emit [doc.group, doc.amount], doc.amount","reduce":"_stats"}}}}"#;

/// The line that asks for the load's view, one row for each group.
pub fn view_line() -> &'static [u8]
    ensures { result.now ≡ view_text }
{
    VIEW_LINE
}

/// The line that asks for the counts of documents and writes.
pub fn info_line() -> &'static [u8]
    ensures { result.now ≡ info_text }
{
    INFO_LINE
}

/// The lines that put the design document and then each of `docs` documents, whose groups and amounts follow from `seed`.
///
/// The one error is want of memory. Time and memory grow as `docs` does.
pub fn first_lines(alloc: Global, docs: u32, seed: u32) -> Result<Vec<Vec<u8>>, NoMemory>
    ensures { IfOk result (λ lines. map (λ line. line.items) lines.items ≡ first_texts docs seed) }
{
    let mut lines = Vec::new(alloc);
    lines.push(Vec::from_slice(alloc, design_line())?)?;
    let mut numbers = Generator::new(seed);
    for index in 0..docs {
        let k = index + 1;
        let document = document(alloc, k, numbers.next_value())?;
        lines.push(put_line(alloc, document)?)?;
    }
    Ok(lines)
}

/// The lines that put every third of the documents again, with its amount one greater, where the first lines were the
/// first writes of the database.
///
/// The one error is want of memory. Time and memory grow as `docs` does.
pub fn second_lines(alloc: Global, docs: u32, seed: u32) -> Result<Vec<Vec<u8>>, NoMemory>
    ensures { IfOk result (λ lines. map (λ line. line.items) lines.items ≡ second_texts docs seed) }
{
    let mut lines = Vec::new(alloc);
    let mut numbers = Generator::new(seed);
    for index in 0..docs {
        let k = index + 1;
        let value = numbers.next_value();
        if k % 3 == 0 {
            let document = raised(alloc, k, value)?;
            lines.push(put_line(alloc, document)?)?;
        }
    }
    Ok(lines)
}

/// The line that puts the design document.
fn design_line() -> &'static [u8]
    ensures { result.now ≡ put_text load_design }
{
    DESIGN_LINE
}

/// The line that puts a document. The one error is want of memory.
fn put_line(alloc: Global, document: Term) -> Result<Vec<u8>, NoMemory>
    ensures { IfOk result (λ line. line.items ≡ put_text (json document)) }
{
    let mut members = Members::with_capacity(alloc, 1)?;
    members.push(Chars::from_text(alloc, "put")?, document)?;
    let mut line = Vec::new(alloc);
    write_term(alloc, &Term::Object(members), &mut line)?;
    Ok(line)
}
