//! Members of documents, and what map functions emit of them.

use std::fmt;

/// A member's value. They are in the order of keys.
#[derive(Clone, Copy, PartialEq, Eq, PartialOrd, Ord)]
pub enum Value {
    Number(i64),
    Null,
    Pair(i64, i64),
}

use Value::{Null, Number, Pair};

impl fmt::Display for Value {
    fn fmt<W: fmt::Write>(&self, f: &mut fmt::Formatter<W>) -> fmt::Result {
        match self {
            Number(number) => write!(f, "{number}"),
            Null => write!(f, "null"),
            Pair(first, second) => write!(f, "[{first},{second}]"),
        }
    }
}

/// The members of a document, each of which it may have.
#[derive(Clone, Copy)]
pub struct Members {
    pub k: Option<Value>,
    pub m: Option<Value>,
    pub n: Option<Value>,
}

/// A map function: the first three are those of the language `field`, the others of `pick`.
#[derive(Clone, Copy)]
pub enum Map {
    K,
    M,
    N,
    Both,
    Each,
    Nulls,
}

/// A key and a value.
type Pairing = (Value, Value);

fn with_null(key: Option<Value>) -> [Option<Pairing>; 2] {
    [key.map(|key| (key, Null)), None]
}

impl Map {
    /// The language and the source.
    pub fn source(self) -> (&'static str, &'static str) {
        match self {
            Map::K => ("field", "k"),
            Map::M => ("field", "m"),
            Map::N => ("field", "n"),
            Map::Both => ("pick", "emit doc.n, doc.m"),
            Map::Each => ("pick", "for x in doc.k { emit x, doc.n }"),
            Map::Nulls => ("pick", "if doc.m == null { emit doc.k, doc.n }"),
        }
    }

    /// What is emitted of a document, in order.
    pub fn emitted(self, members: Members) -> [Option<Pairing>; 2] {
        let Members { k, m, n } = members;
        match (self, k, m) {
            (Map::K, _, _) => with_null(k),
            (Map::M, _, _) => with_null(m),
            (Map::N, _, _) => with_null(n),
            (Map::Both, _, _) => [n.zip(m), None],
            (Map::Each, Some(Pair(first, second)), _) => {
                [Some(Number(first)).zip(n), Some(Number(second)).zip(n)]
            }
            (Map::Nulls, _, Some(Null)) => [k.zip(n), None],
            _ => [None, None],
        }
    }
}
