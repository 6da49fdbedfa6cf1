//! Queries of two reduced views of sales, and what mapping all of these afresh answers.

use crate::maps::Value;
use Value::{Null, Number, Pair};
use std::alloc::{AllocError, Global};

/// What was sold.
#[derive(Clone, Copy)]
pub struct Sale {
    pub day: i64,
    pub amount: i64,
}

/// A view of the design.
#[derive(Clone, Copy)]
pub enum View {
    /// The amounts by their days, with their sum.
    Sum,
    /// The amounts by their days and themselves, with what `_stats` says of them.
    Stats,
}

/// What a query gives of the rows.
#[derive(Clone, Copy)]
pub enum Form {
    Rows,
    Whole,
    Days,
    Keys,
}

/// A query of a view, its first and its last key where it has them, and whether it goes backwards.
pub type Query = (View, Form, Option<(Value, Value)>, bool);

/// A row, in the order of rows: the place is that of its document.
#[derive(Clone, Copy, PartialEq, Eq, PartialOrd, Ord)]
struct Row {
    key: Value,
    place: usize,
    amount: i64,
}

/// The key of the first row of a group, and what the reduces say of its amounts.
#[derive(Clone, Copy)]
struct Group {
    key: Value,
    sum: i64,
    count: u64,
    min: i64,
    max: i64,
    squares: i64,
}

pub const QUERIES: [Query; 15] = [
    (View::Sum, Form::Whole, None, false),
    (View::Sum, Form::Keys, None, false),
    (View::Sum, Form::Keys, Some((Number(7), Number(30))), false),
    (View::Sum, Form::Keys, Some((Number(41), Number(12))), true),
    (View::Sum, Form::Whole, Some((Number(3), Number(38))), false),
    (
        View::Sum,
        Form::Whole,
        Some((Number(90), Number(99))),
        false,
    ),
    (View::Sum, Form::Rows, None, false),
    (View::Sum, Form::Rows, Some((Number(20), Number(22))), false),
    (View::Stats, Form::Whole, None, false),
    (View::Stats, Form::Keys, None, true),
    (View::Stats, Form::Days, None, false),
    (
        View::Stats,
        Form::Days,
        Some((Pair(5, 0), Pair(33, -4))),
        false,
    ),
    (
        View::Stats,
        Form::Keys,
        Some((Pair(10, -20), Pair(31, 6))),
        false,
    ),
    (
        View::Stats,
        Form::Whole,
        Some((Pair(40, 9), Pair(2, -9))),
        true,
    ),
    (
        View::Stats,
        Form::Rows,
        Some((Pair(30, 3), Pair(14, 0))),
        true,
    ),
];

impl View {
    fn name(self) -> &'static str {
        match self {
            View::Sum => "sum",
            View::Stats => "stats",
        }
    }

    fn key(self, sale: Sale) -> Value {
        let Sale { day, amount } = sale;
        match self {
            View::Sum => Number(day),
            View::Stats => Pair(day, amount),
        }
    }
}

impl Form {
    fn parameter(self) -> &'static str {
        match self {
            Form::Rows => "\"reduce\":false",
            Form::Whole => "\"group\":false",
            Form::Days => "\"group_level\":1",
            Form::Keys => "\"group\":true",
        }
    }

    /// Whether rows with these keys are of one group.
    fn groups(self, one: Value, other: Value) -> bool {
        match (self, one, other) {
            (Form::Whole, _, _) => true,
            (Form::Days, Pair(day, _), Pair(also, _)) => day == also,
            _ => one == other,
        }
    }

    /// Appends the key of a group, of which this is the first row's.
    fn put_key(self, text: &mut String, key: Value) -> Result<(), AllocError> {
        match (self, key) {
            (Form::Whole, _) => write!(text, "{Null}"),
            (Form::Days, Pair(day, _)) => write!(text, "[{day}]"),
            _ => write!(text, "{key}"),
        }
    }
}

impl Group {
    fn of(row: Row) -> Group {
        let Row { key, amount, .. } = row;
        Group {
            key,
            sum: amount,
            count: 1,
            min: amount,
            max: amount,
            squares: amount.wrapping_mul(amount),
        }
    }

    /// The group with one more row.
    fn with(self, row: Row) -> Group {
        let amount = row.amount;
        Group {
            key: self.key,
            sum: self.sum.wrapping_add(amount),
            count: self.count.saturating_add(1),
            min: self.min.min(amount),
            max: self.max.max(amount),
            squares: self.squares.wrapping_add(amount.wrapping_mul(amount)),
        }
    }

    /// Appends what the reduce of a view says of the group.
    fn put_value(self, text: &mut String, view: View) -> Result<(), AllocError> {
        let Group {
            sum,
            count,
            min,
            max,
            squares,
            ..
        } = self;
        match view {
            View::Sum => write!(text, "{sum}"),
            View::Stats => write!(
                text,
                "{{\"sum\":{sum},\"count\":{count},\"min\":{min},\"max\":{max},\"sumsqr\":{squares}}}"
            ),
        }
    }
}

fn comma_at(place: usize) -> &'static str {
    if place == 0 { "" } else { "," }
}

/// The groups of rows that follow one another.
fn groups_of(alloc: Global, rows: &[Row], form: Form) -> Result<Vec<Group>, AllocError> {
    let mut groups: Vec<Group> = Vec::new(alloc);
    for row in rows {
        match groups.last_mut() {
            Some(group) if form.groups(group.key, row.key) => *group = group.with(*row),
            _ => groups.push(Group::of(*row))?,
        }
    }
    Ok(groups)
}

fn put_groups(
    text: &mut String,
    groups: &[Group],
    view: View,
    form: Form,
) -> Result<(), AllocError> {
    text.push_str("{\"rows\":[")?;
    for (place, group) in groups.iter().enumerate() {
        write!(text, "{}{{\"key\":", comma_at(place))?;
        form.put_key(text, group.key)?;
        text.push_str(",\"value\":")?;
        group.put_value(text, view)?;
        text.push_str("}")?;
    }
    text.push_str("]}\n")
}

fn put_rows(
    text: &mut String,
    rows: &[Row],
    total: usize,
    offset: usize,
) -> Result<(), AllocError> {
    write!(
        text,
        "{{\"total_rows\":{total},\"offset\":{offset},\"rows\":["
    )?;
    for (at, row) in rows.iter().enumerate() {
        let Row { key, place, amount } = row;
        let comma = comma_at(at);
        write!(
            text,
            "{comma}{{\"id\":\"d{place:03}\",\"key\":{key},\"value\":{amount}}}"
        )?;
    }
    text.push_str("]}\n")
}

/// The line of a query, without its newline.
pub fn put_query(text: &mut String, query: Query) -> Result<(), AllocError> {
    let (view, form, ends, is_backwards) = query;
    let (name, parameter) = (view.name(), form.parameter());
    write!(
        text,
        "{{\"view\":[\"sales\",\"{name}\"],\"query\":{{{parameter}"
    )?;
    if let Some((start, end)) = ends {
        write!(text, ",\"startkey\":{start},\"endkey\":{end}")?;
    }
    if is_backwards {
        text.push_str(",\"descending\":true")?;
    }
    text.push_str("}}")
}

/// All rows of a view, in order.
fn rows_of(alloc: Global, sales: &[Option<Sale>], view: View) -> Result<Vec<Row>, AllocError> {
    let mut rows = Vec::new(alloc);
    for (place, sale) in sales.iter().enumerate() {
        if let Some(sale) = *sale {
            let (key, amount) = (view.key(sale), sale.amount);
            rows.push(Row { key, place, amount })?;
        }
    }
    rows.sort_unstable();
    Ok(rows)
}

/// Appends what a query answers over the sales of documents, each in the place of its own, where it has one.
pub fn put_answer(
    alloc: Global,
    sales: &[Option<Sale>],
    query: Query,
    text: &mut String,
) -> Result<(), AllocError> {
    let (view, form, ends, is_backwards) = query;
    let mut rows = rows_of(alloc, sales, view)?;
    let total = rows.len();
    if is_backwards {
        rows.reverse();
    }
    let mut offset = 0_usize;
    let mut picked = Vec::new(alloc);
    for row in &rows {
        match ends {
            Some((start, _)) if is_before(is_backwards, row.key, start) => {
                offset = offset.saturating_add(1);
            }
            Some((_, end)) if is_before(is_backwards, end, row.key) => (),
            _ => picked.push(*row)?,
        }
    }
    match form {
        Form::Rows => put_rows(text, &picked, total, offset),
        _ => put_groups(text, &groups_of(alloc, &picked, form)?, view, form),
    }
}

/// Whether the one key comes before the other, in a query that goes this way.
fn is_before(is_backwards: bool, one: Value, other: Value) -> bool {
    if is_backwards {
        other < one
    } else {
        one < other
    }
}
