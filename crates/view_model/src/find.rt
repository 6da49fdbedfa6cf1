//! Where a range and the rows of a key stand among sorted rows, by binary search.

ghost use Rattle.std.specs.Prelude.{◌≡◌, filter, IsSorted};
ghost use Rattle.json_terms.specs.Seen.{json};
ghost use Rattle.raw_collation.specs.Collation.{rows_cmp};
ghost use Rattle.view_model.specs.Selection as pick;
ghost use Rattle.view_model.specs.Ends.{is_below_range, is_up_to_range, is_below_key, is_up_to_key, IsPrefix};

use json_terms::{Row, Term};
use query_args::{Query, passes_end, passes_start};
use raw_collation::raw_cmp;

/// The rows in the range of a query.
pub(crate) fn ranged<'a>(rows: &'a [Row], query: &Query) -> &'a [Row]
    requires { IsSorted rows_cmp rows.now }
    ensures { result.now ≡ filter (pick.is_in_range query.now) rows.now }
{
    let high = range_end(rows, query);
    let low = range_start(rows, query).min(high);
    &rows[low..high]
}

/// The rows of a key.
pub(crate) fn rows_of<'a>(rows: &'a [Row], key: &Term) -> &'a [Row]
    requires { IsSorted rows_cmp rows.now }
    ensures { result.now ≡ filter (pick.has_key (json key.now)) rows.now }
{
    let high = key_end(rows, key);
    let low = key_start(rows, key).min(high);
    &rows[low..high]
}

/// How many rows stand before the start of a query's range, as they are walked.
pub(crate) fn before_start(rows: &[Row], query: &Query) -> usize
    requires { IsSorted rows_cmp rows.now }
    ensures { result ≡ pick.before_start query.now rows.now }
{
    if query.descending {
        rows.len() - range_end(rows, query)
    } else {
        range_start(rows, query)
    }
}

/// How many rows stand before the range of a query.
fn range_start(rows: &[Row], query: &Query) -> usize
    requires { IsSorted rows_cmp rows.now }
    ensures { IsPrefix (is_below_range query.now) rows.now result }
{
    rows.partition_point(|row| is_below(query, row))
}

/// How many rows stand before the range of a query or in it.
fn range_end(rows: &[Row], query: &Query) -> usize
    requires { IsSorted rows_cmp rows.now }
    ensures { IsPrefix (is_up_to_range query.now) rows.now result }
{
    rows.partition_point(|row| is_up_to(query, row))
}

/// How many rows have a lesser key.
fn key_start(rows: &[Row], key: &Term) -> usize
    requires { IsSorted rows_cmp rows.now }
    ensures { IsPrefix (is_below_key (json key.now)) rows.now result }
{
    rows.partition_point(|row| raw_cmp(&row.key, key).is_lt())
}

/// How many rows have a lesser key or this one.
fn key_end(rows: &[Row], key: &Term) -> usize
    requires { IsSorted rows_cmp rows.now }
    ensures { IsPrefix (is_up_to_key (json key.now)) rows.now result }
{
    rows.partition_point(|row| raw_cmp(&row.key, key).is_le())
}

/// Whether a row stands before the range.
fn is_below(query: &Query, row: &Row) -> bool
    ensures { result ≡ is_below_range query.now row.now }
{
    if query.descending {
        !passes_end(query, &row.key, row.id.as_str())
    } else {
        !passes_start(query, &row.key, row.id.as_str())
    }
}

/// Whether a row doesn't stand behind the range.
fn is_up_to(query: &Query, row: &Row) -> bool
    ensures { result ≡ is_up_to_range query.now row.now }
{
    if query.descending {
        passes_start(query, &row.key, row.id.as_str())
    } else {
        passes_end(query, &row.key, row.id.as_str())
    }
}
