//! The answer of a query. Where memory runs out, part of it may be written.

ghost use Rattle.std.specs.Prelude.{◌≡◌, ◌+◌, [], min, true, false, filter, length, map, All, IsSorted, IfErr, OnOk};
ghost use Rattle.std.specs.List.{flat_map};
ghost use Rattle.json_terms.specs.Seen.{json};
ghost use Rattle.raw_collation.specs.Collation.{rows_cmp};
ghost use Rattle.view_ports.specs.Lines.{IsLine};
ghost use Rattle.view_model.specs.Adding.{AddsAnswer, AddsSome};
ghost use Rattle.view_model.specs.Answer as print;
ghost use Rattle.view_model.specs.Groups.{picked_groups};
ghost use Rattle.view_model.specs.GroupValues.{IsCaused};
ghost use Rattle.view_model.specs.Selection as pick;
ghost use Rattle.view_model.specs.Progress.{due_text};
ghost use Rattle.view_model.specs.Written.{Adds, KeepsBefore};

use crate::find::{before_start, ranged, rows_of};
use crate::group_values::{AnswerFault, GroupValues};
use crate::groups::print_groups;
use crate::print::{Progress, print_part};
use crate::reply::Reply;
use json_terms::{NoMemory, Row, Term};
use query_args::Query;
use std::alloc::Global;

/// Prints the answer to a query of a view that has these rows and whose index is at this sequence. Only where the query is reduced are
/// values asked for, and only of the groups that it picks.
pub fn answer<V: GroupValues>(
    alloc: Global,
    rows: &[Row],
    values: &mut V,
    seq: u64,
    query: &Query,
    reply: &mut Reply,
) -> Result<(), AnswerFault<V::Fault>>
    requires { IsSorted rows_cmp rows.now }
    ensures ok { OnOk result
        (AddsAnswer (V.is_value values.old) query.now seq rows.now reply.old reply.new) }
    ensures before { KeepsBefore reply.old reply.new }
    ensures goes { OnOk result (V.goes values.old values.new) }
    ensures cause { IfErr result (IsCaused (V.goes values.old values.new) (V.fails values.old values.new)) }
    ensures unasked { query.now.reduced ≡ false → values.new ≡ values.old }
    ensures idle { picked_groups query.now rows.now ≡ [] → values.new ≡ values.old }
{
    if query.reduced {
        groups_answer(alloc, rows, values, seq, query, reply)
    } else {
        rows_answer(alloc, rows, seq, query, reply)?;
        Ok(())
    }
}

fn rows_answer(
    alloc: Global,
    rows: &[Row],
    seq: u64,
    query: &Query,
    reply: &mut Reply,
) -> Result<(), NoMemory>
    requires { IsSorted rows_cmp rows.now }
    ensures ok { OnOk result (Adds reply.old reply.new (print.rows_answer query.now seq rows.now)) }
    ensures before { KeepsBefore reply.old reply.new }
    ensures line { OnOk result (IsLine (print.rows_answer query.now seq rows.now)) }
{
    reply.put(b"{\"total_rows\":")?;
    reply.put_number(rows.len() as u64)?;
    reply.put(b",")?;
    print_seq(seq, query, reply)?;
    reply.put(b"\"offset\":")?;
    print_offset(rows, query, reply)?;
    reply.put(b",\"rows\":[")?;
    print_picked(alloc, rows, query, reply)?;
    reply.put(b"]}")
}

fn groups_answer<V: GroupValues>(
    alloc: Global,
    rows: &[Row],
    values: &mut V,
    seq: u64,
    query: &Query,
    reply: &mut Reply,
) -> Result<(), AnswerFault<V::Fault>>
    requires { IsSorted rows_cmp rows.now }
    ensures ok { OnOk result (AddsSome
        (print.IsGroupsAnswer (V.is_value values.old) query.now seq rows.now) reply.old reply.new) }
    ensures before { KeepsBefore reply.old reply.new }
    ensures goes { OnOk result (V.goes values.old values.new) }
    ensures cause { IfErr result (IsCaused (V.goes values.old values.new) (V.fails values.old values.new)) }
    ensures idle { picked_groups query.now rows.now ≡ [] → values.new ≡ values.old }
{
    reply.put(b"{")?;
    print_seq(seq, query, reply)?;
    reply.put(b"\"rows\":[")?;
    print_groups(alloc, rows, values, query, reply)?;
    reply.put(b"]}")?;
    Ok(())
}

/// Prints the sequence of the index, where the query asks for it.
fn print_seq(seq: u64, query: &Query, reply: &mut Reply) -> Result<(), NoMemory>
    ensures ok { OnOk result (Adds reply.old reply.new (print.seq_text query.now seq)) }
    ensures before { KeepsBefore reply.old reply.new }
    ensures line { OnOk result (IsLine (print.seq_text query.now seq)) }
{
    if !query.show_seq {
        return Ok(());
    }
    reply.put(b"\"update_seq\":")?;
    reply.put_number(seq)?;
    reply.put(b",")
}

/// Prints how many rows stand before the first that is picked, or `null` where keys are listed.
fn print_offset(rows: &[Row], query: &Query, reply: &mut Reply) -> Result<(), NoMemory>
    requires { IsSorted rows_cmp rows.now }
    ensures ok { OnOk result (Adds reply.old reply.new
        (print.offset_text (pick.offset query.now rows.now))) }
    ensures before { KeepsBefore reply.old reply.new }
    ensures line { OnOk result (IsLine (print.offset_text (pick.offset query.now rows.now))) }
{
    match &query.keys {
        Some(_) => reply.put(b"null"),
        None => reply.put_number(range_offset(rows, query)),
    }
}

fn range_offset(rows: &[Row], query: &Query) -> u64
    requires { IsSorted rows_cmp rows.now }
    ensures { result ≡ pick.before_start query.now rows.now + min query.now.skip
        (length (filter (pick.is_in_range query.now) rows.now)) }
{
    let skipped = query.skip.min(ranged(rows, query).len() as u64);
    before_start(rows, query) as u64 + skipped
}

fn print_picked(
    alloc: Global,
    rows: &[Row],
    query: &Query,
    reply: &mut Reply,
) -> Result<(), NoMemory>
    requires { IsSorted rows_cmp rows.now }
    ensures ok { OnOk result (Adds reply.old reply.new
        (print.with_commas print.row_text (pick.picked query.now rows.now))) }
    ensures before { KeepsBefore reply.old reply.new }
    ensures line { OnOk result (IsLine (print.with_commas print.row_text (pick.picked query.now rows.now))) }
{
    let start = Progress::start(query);
    match &query.keys {
        Some(keys) => print_keys(alloc, rows, keys.as_slice(), query, start, reply),
        None => {
            print_part(alloc, ranged(rows, query), query.descending, start, reply)?;
            Ok(())
        }
    }
}

/// Prints the rows of each key in turn.
fn print_keys(
    alloc: Global,
    rows: &[Row],
    keys: &[Term],
    query: &Query,
    start: Progress,
    reply: &mut Reply,
) -> Result<(), NoMemory>
    requires { IsSorted rows_cmp rows.now }
    ensures ok { OnOk result (Adds reply.old reply.new
        (due_text print.row_text start (flat_map (pick.rows_of_key query.now rows.now) (map json keys.now)))) }
    ensures before { KeepsBefore reply.old reply.new }
    ensures line { OnOk result (IsLine
        (due_text print.row_text start (flat_map (pick.rows_of_key query.now rows.now) (map json keys.now)))) }
{
    let mut progress = start;
    for key in keys {
        let part = rows_of(rows, key);
        progress = print_part(alloc, part, query.descending, progress, reply)?;
    }
    Ok(())
}
