//! A short model of the engine: the writes so far, and what is replied to a request behind them. It has no indexes: a view maps
//! all live documents.

use crate::maps::{Map, Value};
use crate::requests::{Body, Request, Rev};
use std::alloc::{AllocError, Global};

/// A write, which is a deletion where it has no body. Its number is that of the writes up to it.
#[derive(Clone, Copy)]
pub struct Write {
    pub id: &'static str,
    pub generation: u64,
    pub body: Option<Body>,
}

/// A row of a view, in the order of rows.
#[derive(Clone, Copy, PartialEq, Eq, PartialOrd, Ord)]
struct Line {
    key: Value,
    id: &'static str,
    place: usize,
    value: Value,
}

const MISSING: &str = "{\"error\":\"not_found\",\"reason\":\"missing\"}\n";

const DELETED: &str = "{\"error\":\"not_found\",\"reason\":\"deleted\"}\n";

const NO_VIEW: &str = "{\"error\":\"not_found\",\"reason\":\"missing_named_view\"}\n";

const CONFLICT: &str = "{\"error\":\"conflict\",\"reason\":\"Document update conflict.\"}\n";

const DONE: &str = "{\"ok\":true}\n";

/// The last write of an id, with its revision.
pub fn last_of(writes: &[Write], id: &str) -> Option<(Rev, Option<Body>)> {
    let mut last = None;
    let mut number = 0_u64;
    for write in writes {
        number = number.saturating_add(1);
        if write.id == id {
            let generation = write.generation;
            last = Some((Rev { generation, number }, write.body));
        }
    }
    last
}

/// The present revision of an id and its body, or why there is none.
fn live(writes: &[Write], id: &str) -> Result<(Rev, Body), &'static str> {
    match last_of(writes, id) {
        Some((rev, Some(body))) => Ok((rev, body)),
        Some((_rev, None)) => Err(DELETED),
        None => Err(MISSING),
    }
}

/// The write that a request makes, or why it makes none. None is given where it is to make none.
fn write_of(writes: &[Write], request: Request) -> Result<Option<Write>, &'static str> {
    let (id, over, body) = match request {
        Request::Put(id, over, body) => (id, over, Some(body)),
        Request::Erase(id, over) | Request::Delete(id, over) => (id, over, None),
        _ => return Ok(None),
    };
    let last = last_of(writes, id);
    if body.is_none() {
        live(writes, id)?;
    }
    let fits = match last {
        Some((rev, Some(_body))) => over == Some(rev),
        Some((rev, None)) => over.is_none() || over == Some(rev),
        None => over.is_none(),
    };
    if !fits {
        return Err(CONFLICT);
    }
    let before = last.map_or(0, |(rev, _body)| rev.generation);
    let generation = before.saturating_add(1);
    Ok(Some(Write {
        id,
        generation,
        body,
    }))
}

/// Whether this is the last write of its id.
fn is_last(writes: &[Write], number: usize) -> bool {
    let mut later = writes.iter().skip(number);
    match later.next() {
        Some(write) => !later.any(|other| other.id == write.id),
        None => false,
    }
}

/// Appends the counts of live documents, of tombstones and of writes.
fn put_info(text: &mut String, writes: &[Write]) -> Result<(), AllocError> {
    let mut live = 0_u64;
    let mut deleted = 0_u64;
    for (number, write) in writes.iter().enumerate() {
        if is_last(writes, number) {
            match write.body {
                Some(_body) => live = live.saturating_add(1),
                None => deleted = deleted.saturating_add(1),
            }
        }
    }
    let seq = writes.len();
    writeln!(
        text,
        "{{\"doc_count\":{live},\"doc_del_count\":{deleted},\"update_seq\":{seq}}}"
    )
}

/// The rows of a map function over all live documents.
fn rows_of(alloc: Global, writes: &[Write], map: Map) -> Result<Vec<Line>, AllocError> {
    let mut rows = Vec::new(alloc);
    for (number, write) in writes.iter().enumerate() {
        let Some(Body::Plain(members)) = write.body else {
            continue;
        };
        if is_last(writes, number) {
            let id = write.id;
            for (place, pair) in map.emitted(members).iter().enumerate() {
                if let Some((key, value)) = *pair {
                    rows.push(Line {
                        key,
                        id,
                        place,
                        value,
                    })?;
                }
            }
        }
    }
    rows.sort_unstable();
    Ok(rows)
}

/// Appends the rows as a view prints them.
fn put_rows(text: &mut String, rows: &[Line]) -> Result<(), AllocError> {
    let count = rows.len();
    write!(text, "{{\"total_rows\":{count},\"offset\":0,\"rows\":[")?;
    for (at, row) in rows.iter().enumerate() {
        let comma = if at == 0 { "" } else { "," };
        let Line { key, id, value, .. } = row;
        write!(
            text,
            "{comma}{{\"id\":\"{id}\",\"key\":{key},\"value\":{value}}}"
        )?;
    }
    text.push_str("]}\n")
}

/// Appends the reply to a request behind these writes that makes no write.
fn put_read(
    alloc: Global,
    writes: &[Write],
    request: Request,
    text: &mut String,
) -> Result<(), AllocError> {
    match request {
        Request::Info => put_info(text, writes),
        Request::Cleanup => text.push_str(DONE),
        Request::Get(id) => match live(writes, id) {
            Ok((rev, body)) => writeln!(text, "{{\"_id\":\"{id}\",\"_rev\":\"{rev}\"{body}}}"),
            Err(refusal) => text.push_str(refusal),
        },
        Request::View(id) => match live(writes, id) {
            Ok((_rev, Body::Design(map))) => put_rows(text, &rows_of(alloc, writes, map)?),
            Ok((_rev, Body::Plain(_members))) => text.push_str(NO_VIEW),
            Err(refusal) => text.push_str(refusal),
        },
        _ => Ok(()),
    }
}

/// Appends the reply to a request behind these writes, and adds the write that it makes.
pub fn answer(
    alloc: Global,
    writes: &mut Vec<Write>,
    request: Request,
    text: &mut String,
) -> Result<(), AllocError> {
    match write_of(writes, request) {
        Ok(Some(write)) => {
            writes.push(write)?;
            let Write { id, generation, .. } = write;
            let number = writes.len() as u64;
            let rev = Rev { generation, number };
            writeln!(text, "{{\"ok\":true,\"id\":\"{id}\",\"rev\":\"{rev}\"}}")
        }
        Ok(None) => put_read(alloc, writes, request, text),
        Err(refusal) => text.push_str(refusal),
    }
}

/// Appends the replies to these requests behind the first so many of the writes.
pub fn put_answers(
    alloc: Global,
    writes: &[Write],
    count: usize,
    requests: &[Request],
    text: &mut String,
) -> Result<(), AllocError> {
    let mut writes = writes[..count.min(writes.len())].to_vec(alloc)?;
    for request in requests {
        answer(alloc, &mut writes, *request, text)?;
    }
    Ok(())
}
