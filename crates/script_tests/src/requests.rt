//! Requests, and their lines.

use crate::maps::{Map, Members};
use std::alloc::AllocError;
use std::fmt;

/// A revision: the generation, and the number of the write.
#[derive(Clone, Copy, PartialEq, Eq)]
pub struct Rev {
    pub generation: u64,
    pub number: u64,
}

impl fmt::Display for Rev {
    fn fmt<W: fmt::Write>(&self, f: &mut fmt::Formatter<W>) -> fmt::Result {
        let Rev { generation, number } = self;
        write!(f, "{generation}-{number:032x}")
    }
}

/// What a document has beside its id and its revision.
#[derive(Clone, Copy)]
pub enum Body {
    Plain(Members),
    /// One view `v` with this map function.
    Design(Map),
}

/// The members behind the id and the revision, each with a comma before it.
impl fmt::Display for Body {
    fn fmt<W: fmt::Write>(&self, f: &mut fmt::Formatter<W>) -> fmt::Result {
        match self {
            Body::Plain(Members { k, m, n }) => {
                for (name, value) in [("k", k), ("m", m), ("n", n)] {
                    if let Some(value) = value {
                        write!(f, ",\"{name}\":{value}")?;
                    }
                }
                Ok(())
            }
            Body::Design(map) => {
                let (language, source) = map.source();
                write!(f, ",\"language\":\"{language}\",")?;
                write!(f, "\"views\":{{\"v\":{{\"map\":\"{source}\"}}}}")
            }
        }
    }
}

/// A request, with the id of a document or a design document, and the revision of a write.
#[derive(Clone, Copy)]
pub enum Request {
    Put(&'static str, Option<Rev>, Body),
    /// A put of a deletion.
    Erase(&'static str, Option<Rev>),
    Delete(&'static str, Option<Rev>),
    Get(&'static str),
    Info,
    View(&'static str),
    Cleanup,
}

const DESIGN_PREFIX: &str = "_design/";

impl Request {
    /// The id, or that of some document.
    pub fn id(self) -> &'static str {
        match self {
            Request::Put(id, _, _) | Request::Erase(id, _) | Request::Delete(id, _) => id,
            Request::Get(id) | Request::View(id) => id,
            Request::Info | Request::Cleanup => "d0",
        }
    }
}

/// Appends a member that has a revision, where there is one.
pub fn put_rev(text: &mut String, name: &str, rev: Option<Rev>) -> Result<(), AllocError> {
    match rev {
        Some(rev) => write!(text, ",\"{name}\":\"{rev}\""),
        None => Ok(()),
    }
}

/// Appends the line of a request, without its newline.
pub fn put_line(text: &mut String, request: Request) -> Result<(), AllocError> {
    match request {
        Request::Put(id, rev, body) => {
            write!(text, "{{\"put\":{{\"_id\":\"{id}\"")?;
            put_rev(text, "_rev", rev)?;
            write!(text, "{body}}}}}")
        }
        Request::Erase(id, rev) => {
            write!(text, "{{\"put\":{{\"_id\":\"{id}\"")?;
            put_rev(text, "_rev", rev)?;
            text.push_str(",\"_deleted\":true}}")
        }
        Request::Delete(id, rev) => {
            write!(text, "{{\"delete\":\"{id}\"")?;
            put_rev(text, "rev", rev)?;
            text.push_str("}")
        }
        Request::Get(id) => write!(text, "{{\"get\":\"{id}\"}}"),
        Request::Info => text.push_str("{\"info\":true}"),
        Request::View(id) => {
            let name = id.strip_prefix(DESIGN_PREFIX).unwrap_or(id);
            write!(text, "{{\"view\":[\"{name}\",\"v\"]}}")
        }
        Request::Cleanup => text.push_str("{\"cleanup\":true}"),
    }
}

/// Appends the lines of some requests.
pub fn put_lines(text: &mut String, requests: &[Request]) -> Result<(), AllocError> {
    for request in requests {
        put_line(text, *request)?;
        text.push_str("\n")?;
    }
    Ok(())
}
