//! Groups of rows, each printed as the key that its rows have in common and their value. No row is copied.
//! Where memory runs out, part of them may be written.

ghost use Rattle.std.specs.Prelude.{◌≡◌, ◌<◌, ◌≤◌, [], ◌∷◌, ◌++◌, false, drop, take, length, map, All, IsSorted, OnOk, IfErr, IfOk};
ghost use Rattle.json_terms.specs.Seen.{json};
ghost use Rattle.raw_collation.specs.Collation.{rows_cmp};
ghost use Rattle.view_model.specs.Adding.{AddsGroups};
ghost use Rattle.view_model.specs.Groups.{is_same_group, groups_of_keys, one_group, runs, picked_groups};
ghost use Rattle.view_model.specs.GroupValues.{IsCaused};
ghost use Rattle.view_model.specs.Progress.{start_of, walked, walked_parts, due, past};
ghost use Rattle.view_model.specs.Written.{KeepsBefore};

use crate::find::{ranged, rows_of};
use crate::group_values::{AnswerFault, GroupValues};
use crate::print::Progress;
use crate::reply::Reply;
use json_terms::{Row, Term, text_is_line};
use query_args::Query;
use raw_collation::{Level, group_key, same_group};
use std::alloc::Global;

/// Prints the groups that a query picks. Values are asked for only of these.
pub(crate) fn print_groups<V: GroupValues>(
    alloc: Global,
    rows: &[Row],
    values: &mut V,
    query: &Query,
    reply: &mut Reply,
) -> Result<(), AnswerFault<V::Fault>>
    requires { IsSorted rows_cmp rows.now }
    ensures ok { OnOk result (AddsGroups (V.is_value values.old) query.now.level false
        (picked_groups query.now rows.now) reply.old reply.new) }
    ensures before { KeepsBefore reply.old reply.new }
    ensures goes { OnOk result (V.goes values.old values.new) }
    ensures cause { IfErr result (IsCaused (V.goes values.old values.new) (V.fails values.old values.new)) }
    ensures idle { picked_groups query.now rows.now ≡ [] → values.new ≡ values.old }
{
    match &query.keys {
        Some(keys) => print_listed(alloc, rows, keys.as_slice(), values, query, reply),
        None => print_runs(alloc, ranged(rows, query), values, query, reply),
    }
}

/// Prints the rows of each key in turn as a group, in the order of the keys.
fn print_listed<V: GroupValues>(
    alloc: Global,
    rows: &[Row],
    keys: &[Term],
    values: &mut V,
    query: &Query,
    reply: &mut Reply,
) -> Result<(), AnswerFault<V::Fault>>
    requires { IsSorted rows_cmp rows.now }
    ensures ok { OnOk result (AddsGroups (V.is_value values.old) query.now.level false
        (due (start_of query.now) (groups_of_keys rows.now (map json keys.now))) reply.old reply.new) }
    ensures before { KeepsBefore reply.old reply.new }
    ensures goes { OnOk result (V.goes values.old values.new) }
    ensures cause { IfErr result (IsCaused (V.goes values.old values.new) (V.fails values.old values.new)) }
    ensures idle { due (start_of query.now) (groups_of_keys rows.now (map json keys.now)) ≡ []
        → values.new ≡ values.old }
{
    let mut progress = Progress::start(query);
    for key in keys {
        if progress.is_done() {
            break;
        }
        let group = rows_of(rows, key);
        progress = print_group(alloc, group, values, query.level, progress, reply)?;
    }
    Ok(())
}

/// Prints the runs of rows of one group, as a query walks them.
fn print_runs<V: GroupValues>(
    alloc: Global,
    rows: &[Row],
    values: &mut V,
    query: &Query,
    reply: &mut Reply,
) -> Result<(), AnswerFault<V::Fault>>
    ensures ok { OnOk result (AddsGroups (V.is_value values.old) query.now.level false
        (due (start_of query.now) (walked query.now.descending (runs query.now.level rows.now)))
        reply.old reply.new) }
    ensures before { KeepsBefore reply.old reply.new }
    ensures goes { OnOk result (V.goes values.old values.new) }
    ensures cause { IfErr result (IsCaused (V.goes values.old values.new) (V.fails values.old values.new)) }
    ensures idle { due (start_of query.now) (walked query.now.descending (runs query.now.level rows.now)) ≡ []
        → values.new ≡ values.old }
{
    let mut progress = Progress::start(query);
    let mut left = rows;
    while !left.is_empty() && !progress.is_done() {
        let (group, rest) = next_run(left, query);
        progress = print_group(alloc, group, values, query.level, progress, reply)?;
        left = rest;
    }
    Ok(())
}

/// The next run of rows of one group, as a query walks them, and the rows that are left.
fn next_run<'a>(rows: &'a [Row], query: &Query) -> (&'a [Row], &'a [Row])
    requires { 0 < length rows.now }
    ensures run { walked query.now.descending (runs query.now.level rows.now)
        ≡ result.0.now ∷ walked query.now.descending (runs query.now.level result.1.now) }
    ensures parts { rows.now ≡ walked_parts query.now.descending result.0.now result.1.now }
    ensures some { 0 < length result.0.now }
    ensures fewer { length result.1.now < length rows.now }
{
    if query.descending {
        let (rest, run) = rows.split_at(last_run(rows, query.level));
        (run, rest)
    } else {
        rows.split_at(first_run(rows, query.level))
    }
}

/// Where the first run of rows of one group ends.
fn first_run(rows: &[Row], level: Level) -> usize
    requires { 0 < length rows.now }
    ensures run { runs level rows.now ≡ take result rows.now ∷ runs level (drop result rows.now) }
    ensures some { 0 < result }
    ensures within { result ≤ length rows.now }
{
    let mut end = 1;
    while end < rows.len() && are_together(level, &rows[end - 1], &rows[end]) {
        end += 1;
    }
    end
}

/// Where the last run of rows of one group begins.
fn last_run(rows: &[Row], level: Level) -> usize
    requires { 0 < length rows.now }
    ensures run { runs level rows.now ≡ runs level (take result rows.now)
        ++ (drop result rows.now ∷ []) }
    ensures within { result < length rows.now }
{
    let mut start = rows.len() - 1;
    while start > 0 && are_together(level, &rows[start - 1], &rows[start]) {
        start -= 1;
    }
    start
}

/// Whether two rows are of one group.
fn are_together(level: Level, a: &Row, b: &Row) -> bool
    ensures { result ≡ is_same_group level a.now b.now }
{
    same_group(level, &a.key, &b.key)
}

/// Prints a group, where it has rows and is neither left out nor past the limit, and says how far the query's groups are
/// printed then.
fn print_group<V: GroupValues>(
    alloc: Global,
    group: &[Row],
    values: &mut V,
    level: Level,
    progress: Progress,
    reply: &mut Reply,
) -> Result<Progress, AnswerFault<V::Fault>>
    ensures ok { OnOk result (AddsGroups (V.is_value values.old) level progress.printed
        (due progress (one_group group.now)) reply.old reply.new) }
    ensures before { KeepsBefore reply.old reply.new }
    ensures progress { IfOk result (λ next. next ≡ past progress (one_group group.now)) }
    ensures goes { OnOk result (V.goes values.old values.new) }
    ensures cause { IfErr result (IsCaused (V.goes values.old values.new) (V.fails values.old values.new)) }
    ensures idle { due progress (one_group group.now) ≡ [] → values.new ≡ values.old }
{
    if group.is_empty() {
        return Ok(progress);
    }
    if progress.skip > 0 {
        let skip = progress.skip - 1;
        return Ok(Progress { skip, ..progress });
    }
    if progress.is_done() {
        return Ok(progress);
    }
    print_next(alloc, group, values, level, progress.printed, reply)?;
    let limit = progress.limit.map(|limit| limit.saturating_sub(1));
    Ok(Progress {
        limit,
        printed: true,
        ..progress
    })
}

/// Prints a group, after a comma where a group was printed before it.
fn print_next<V: GroupValues>(
    alloc: Global,
    group: &[Row],
    values: &mut V,
    level: Level,
    later: bool,
    reply: &mut Reply,
) -> Result<(), AnswerFault<V::Fault>>
    requires { 0 < length group.now }
    ensures ok { OnOk result (AddsGroups (V.is_value values.old) level later
        (group.now ∷ []) reply.old reply.new) }
    ensures before { KeepsBefore reply.old reply.new }
    ensures goes { OnOk result (V.goes values.old values.new) }
    ensures cause { IfErr result (IsCaused (V.goes values.old values.new) (V.fails values.old values.new)) }
{
    if later {
        reply.put(b",")?;
    }
    print_whole(alloc, group, values, level, reply)
}

/// Prints the key that the rows of a group have in common, and their value.
fn print_whole<V: GroupValues>(
    alloc: Global,
    group: &[Row],
    values: &mut V,
    level: Level,
    reply: &mut Reply,
) -> Result<(), AnswerFault<V::Fault>>
    requires { 0 < length group.now }
    ensures ok { OnOk result (AddsGroups (V.is_value values.old) level false
        (group.now ∷ []) reply.old reply.new) }
    ensures before { KeepsBefore reply.old reply.new }
    ensures goes { OnOk result (V.goes values.old values.new) }
    ensures cause { IfErr result (IsCaused (V.goes values.old values.new) (V.fails values.old values.new)) }
{
    let key = group_key(alloc, level, &group[0].key)?;
    text_is_line(&key);
    reply.put(b"{\"key\":")?;
    reply.put_term(alloc, &key)?;
    reply.put(b",\"value\":")?;
    values.print(alloc, group, reply)?;
    reply.put(b"}")?;
    Ok(())
}
