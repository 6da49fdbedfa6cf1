//! Rows printed with commas between them. Where memory runs out, part of them may be written.

ghost use Rattle.std.specs.Prelude.{◌≡◌, ◌↔◌, min, [], ◌∷◌, drop, take, reverse, IsTrue, OnOk, IfOk};
ghost use Rattle.view_ports.specs.Lines.{IsLine};
ghost use Rattle.view_model.specs.Answer as print;
ghost use Rattle.view_model.specs.Progress.{start_of, walked, texts_after, due_text, past};
ghost use Rattle.view_model.specs.Written.{Adds, KeepsBefore};

use crate::reply::Reply;
use json_terms::{NoMemory, Row, text_is_line};
use query_args::Query;
use std::alloc::Global;

/// How far a query's rows, or its groups, are printed.
#[derive(Clone, Copy)]
pub(crate) struct Progress {
    /// How many are still left out.
    pub skip: u64,
    /// How many are still printed at most.
    pub limit: Option<u64>,
    /// Whether one was printed.
    pub printed: bool,
}

impl Progress {
    /// Where a query is printed from.
    pub(crate) fn start(query: &Query) -> Progress
        ensures { result ≡ start_of query.now }
    {
        Progress {
            skip: query.skip,
            limit: query.limit,
            printed: false,
        }
    }

    /// Whether no more is printed.
    pub(crate) fn is_done(&self) -> bool
        ensures { IsTrue result ↔ (self.now.limit ≡ Some 0) }
    {
        matches!(self.limit, Some(0))
    }
}

/// Prints the rows of a part that are neither left out nor past the limit, and says how far the query's rows are printed then.
pub(crate) fn print_part(
    alloc: Global,
    part: &[Row],
    descending: bool,
    progress: Progress,
    reply: &mut Reply,
) -> Result<Progress, NoMemory>
    ensures ok { OnOk result (Adds reply.old reply.new
        (due_text print.row_text progress (walked descending part.now))) }
    ensures before { KeepsBefore reply.old reply.new }
    ensures line { OnOk result (IsLine (due_text print.row_text progress (walked descending part.now))) }
    ensures progress { IfOk result (λ next. next ≡ past progress (walked descending part.now)) }
{
    let kept = without_first(part, descending, progress.skip);
    let rows = match progress.limit {
        Some(limit) => first(kept, descending, limit),
        None => kept,
    };
    print_rows(alloc, rows, descending, progress.printed, reply)?;
    let skip = progress.skip.saturating_sub(part.len() as u64);
    let limit = progress
        .limit
        .map(|limit| limit.saturating_sub(kept.len() as u64));
    let printed = progress.printed || !rows.is_empty();
    Ok(Progress {
        skip,
        limit,
        printed,
    })
}

/// The rows without the first so many, as they are walked.
fn without_first(rows: &[Row], descending: bool, count: u64) -> &[Row]
    ensures { walked descending result.now ≡ drop count (walked descending rows.now) }
{
    let count = at_most(count, rows.len());
    if descending {
        &rows[..rows.len() - count]
    } else {
        &rows[count..]
    }
}

/// The first so many rows, as they are walked.
fn first(rows: &[Row], descending: bool, count: u64) -> &[Row]
    ensures { walked descending result.now ≡ take count (walked descending rows.now) }
{
    let count = at_most(count, rows.len());
    if descending {
        &rows[rows.len() - count..]
    } else {
        &rows[..count]
    }
}

fn at_most(count: u64, limit: usize) -> usize
    ensures { result ≡ min count limit }
{
    if count < limit as u64 {
        count as usize
    } else {
        limit
    }
}

fn print_rows(
    alloc: Global,
    rows: &[Row],
    descending: bool,
    printed: bool,
    reply: &mut Reply,
) -> Result<(), NoMemory>
    ensures ok { OnOk result (Adds reply.old reply.new
        (texts_after print.row_text printed (walked descending rows.now))) }
    ensures before { KeepsBefore reply.old reply.new }
    ensures line { OnOk result (IsLine (texts_after print.row_text printed (walked descending rows.now))) }
{
    if descending {
        print_backwards(alloc, rows, printed, reply)
    } else {
        print_forwards(alloc, rows, printed, reply)
    }
}

fn print_forwards(
    alloc: Global,
    rows: &[Row],
    printed: bool,
    reply: &mut Reply,
) -> Result<(), NoMemory>
    ensures ok { OnOk result (Adds reply.old reply.new (texts_after print.row_text printed rows.now)) }
    ensures before { KeepsBefore reply.old reply.new }
    ensures line { OnOk result (IsLine (texts_after print.row_text printed rows.now)) }
{
    let mut later = printed;
    for row in rows {
        print_next(alloc, row, later, reply)?;
        later = true;
    }
    Ok(())
}

fn print_backwards(
    alloc: Global,
    rows: &[Row],
    printed: bool,
    reply: &mut Reply,
) -> Result<(), NoMemory>
    ensures ok { OnOk result (Adds reply.old reply.new (texts_after print.row_text printed (reverse rows.now))) }
    ensures before { KeepsBefore reply.old reply.new }
    ensures line { OnOk result (IsLine (texts_after print.row_text printed (reverse rows.now))) }
{
    let mut later = printed;
    for row in rows.iter().rev() {
        print_next(alloc, row, later, reply)?;
        later = true;
    }
    Ok(())
}

/// Prints a row, after a comma where a row was printed before it.
fn print_next(alloc: Global, row: &Row, later: bool, reply: &mut Reply) -> Result<(), NoMemory>
    ensures ok { OnOk result (Adds reply.old reply.new (texts_after print.row_text later (row.now ∷ []))) }
    ensures before { KeepsBefore reply.old reply.new }
    ensures line { OnOk result (IsLine (texts_after print.row_text later (row.now ∷ []))) }
{
    if later {
        reply.put(b",")?;
    }
    print_row(alloc, row, reply)
}

fn print_row(alloc: Global, row: &Row, reply: &mut Reply) -> Result<(), NoMemory>
    ensures ok { OnOk result (Adds reply.old reply.new (print.row_text row.now)) }
    ensures before { KeepsBefore reply.old reply.new }
    ensures line { OnOk result (IsLine (print.row_text row.now)) }
{
    text_is_line(&row.key);
    text_is_line(&row.value);
    reply.put(b"{\"id\":")?;
    reply.put_string(alloc, row.id.as_str())?;
    reply.put(b",\"key\":")?;
    reply.put_term(alloc, &row.key)?;
    reply.put(b",\"value\":")?;
    reply.put_term(alloc, &row.value)?;
    reply.put(b"}")?;
    Ok(())
}
