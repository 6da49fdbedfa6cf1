//! A design and its views.

ghost use Rattle.std.specs.Prelude.{◌≡◌, ◌↔◌, [], IsTrue, length};

use json_terms::{Chars, Term};
use std::marker::Model;

/// What a design document says of its views.
#[derive(Drop)]
pub struct Design {
    /// The language of the sources.
    pub language: Chars,
    /// The views, in byte order of their names.
    pub views: Views,
    /// `[language, views]`, with the views as they stand in the document.
    pub term: Term,
}

/// A view: its name, the source of its map function, and how its rows are reduced.
#[derive(Drop)]
pub struct View {
    pub name: Chars,
    pub map: Chars,
    pub reduce: Reduce,
}

/// A reduce that needs no query server.
#[derive(Clone, Copy, Debug, PartialEq, Eq)]
pub enum Builtin {
    /// `_sum`
    Sum,
    /// `_count`
    Count,
    /// `_stats`
    Stats,
}

/// How the rows of a view are reduced.
#[derive(Drop)]
pub enum Reduce {
    /// They aren't.
    Absent,
    Builtin(Builtin),
    /// By a query server, which is given this source.
    Source(Chars),
}

/// Some views, seen by contracts as the list of them.
#[derive(Drop)]
pub struct Views {
    items: Vec<View>,
}

impl Model for Views {
    ghost use Rattle.std.specs.Prelude.{List};
    ghost use Rattle.design_docs.specs.declared.design.View.{View};

    ghost Value = { List View };

    ghost view = { λ v. v.items.items };
}

impl Views {
    /// The views of a list, without taking memory.
    pub fn new(items: Vec<View>) -> Views
        ensures { result ≡ items.items }
    {
        Views { items }
    }

    pub fn len(&self) -> usize
        ensures { result ≡ length self.now }
    {
        self.items.as_slice().len()
    }

    pub fn is_empty(&self) -> bool
        ensures { IsTrue result ↔ (self.now ≡ []) }
    {
        self.items.is_empty()
    }

    pub fn as_slice(&self) -> &[View]
        ensures { result.now ≡ self.now }
    {
        self.items.as_slice()
    }

    /// The list of the views, without taking memory.
    pub fn into_vec(self) -> Vec<View>
        ensures { result.items ≡ self }
    {
        self.items
    }
}
