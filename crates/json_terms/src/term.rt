//! Terms and the three types that their parts stand in. To contracts these are plain lists.

ghost use Rattle.std.specs.Prelude.{◌≡◌, ◌↔◌, ◌++◌, ◌∷◌, [], List, map, string_bytes, IfOk, OnOk, OnErr, IsTrue, length};
ghost use Rattle.json_terms.specs.Json.{Json, members_of};
ghost use Rattle.json_terms.specs.Terms.{IsTerm, AreMembers, ComesAfter};
ghost use Rattle.json_terms.specs.Find.{with_member};
ghost use Rattle.json_terms.specs.Place.{place_of};
ghost use Rattle.json_terms.specs.Seen.{pair_of};

use crate::fault::NoMemory;
use std::alloc::Global;
use std::cmp::Ordering;
use std::marker::Model;

/// A term: a whole number, `false`, `null`, `true`, an object, an array or a text.
#[cycle(term)]
#[derive(Drop)]
pub enum Term {
    Int(i64),
    False,
    Null,
    True,
    Object(Members),
    Array(Terms),
    Text(Chars),
}

/// A text: UTF-8, seen by contracts as the list of its bytes.
#[derive(Debug, Drop)]
pub struct Chars {
    text: String,
}

impl Model for Chars {
    ghost use Rattle.std.specs.Prelude.{List, ℕ, string_bytes, IsUtf8};

    ghost Value = { List ℕ };

    ghost view = { λ c. string_bytes c.text };

    ghost invariant = { λ c. IsUtf8 (string_bytes c.text) };
}

/// The elements of an array, seen by contracts as the list of them.
#[cycle(term)]
#[derive(Drop)]
pub struct Terms {
    items: Vec<Term>,
}

/// A member of an object: its name and its value.
#[cycle(term)]
#[derive(Drop)]
pub struct Member {
    pub name: Chars,
    pub value: Term,
}

/// The members of an object, in strictly rising byte order of their names, seen by contracts as the list of names and values.
#[cycle(term)]
#[derive(Drop)]
pub struct Members {
    entries: Vec<Member>,
}

impl Model for Terms {
    ghost use Rattle.std.specs.Prelude.{List, map, suc};
    ghost use Rattle.std.specs.Coded.{coded_list};
    ghost use Rattle.json_terms.specs.Json.{Json, items_of, items_depth};
    ghost use Rattle.json_terms.specs.Code.{coded_json};

    ghost Value = { List Json };

    ghost coded = { coded_list coded_json };

    ghost use Rattle.json_terms.specs.Terms.{AreTerms};
    ghost use Rattle.json_terms.specs.Seen.{json};

    ghost view = { λ t. map json t.items.items };

    ghost invariant = { λ t. AreTerms (items_of (map json t.items.items)) };

    ghost size = { λ ts. suc (items_depth (items_of ts)) };

    ghost use Rattle.std.proofs.Common.{arith};
    ghost use Rattle.json_terms.specs.Falls.{most_le-items_depth};

    ghost size_decreases = { λ a h. Prim.omega (arith, most_le-items_depth a.items.items) };
}

impl Model for Members {
    ghost use Rattle.std.specs.Prelude.{List, ℕ, map, suc};
    ghost use Rattle.std.specs.Coded.{coded_list, coded×, coded_ℕ};
    ghost use Rattle.json_terms.specs.Json.{Json, members_of, members_depth};
    ghost use Rattle.json_terms.specs.Code.{coded_json};

    ghost Value = { List (List ℕ × Json) };

    ghost coded = { coded_list (coded× (coded_list coded_ℕ) coded_json) };

    ghost use Rattle.json_terms.specs.Terms.{AreMembers};
    ghost use Rattle.json_terms.specs.Seen.{pair_of};

    ghost view = { λ m. map pair_of m.entries.items };

    ghost invariant = { λ m. AreMembers (members_of (map pair_of m.entries.items)) };

    ghost size = { λ ms. suc (members_depth (members_of ms)) };

    ghost use Rattle.std.proofs.Common.{arith};
    ghost use Rattle.json_terms.specs.Falls.{most_le-members_depth};

    ghost size_decreases = { λ a h. Prim.omega (arith, most_le-members_depth a.entries.items) };
}

/// A row of a view: `place` numbers the rows that one document gives to the view, from 0.
#[derive(Drop)]
pub struct Row {
    pub key: Term,
    pub id: Chars,
    pub place: u32,
    pub value: Term,
}

impl Chars {
    /// The text of a string.
    pub fn new(text: String) -> Chars
        ensures { result ≡ string_bytes text }
    {
        let _utf8 = text.as_str();
        Chars { text }
    }

    /// A copy of a text. The one error is want of memory.
    pub fn from_text(alloc: Global, text: &str) -> Result<Chars, NoMemory>
        ensures { IfOk result (λ c. c ≡ text.now) }
    {
        Ok(Chars::new(String::from_str(alloc, text)?))
    }

    pub fn as_str(&self) -> &str
        ensures { result.now ≡ self.now }
    {
        self.text.as_str()
    }

    /// An equal text. The one error is want of memory.
    pub fn copy(&self, alloc: Global) -> Result<Chars, NoMemory>
        ensures { IfOk result (λ c. c ≡ self.now) }
    {
        Chars::from_text(alloc, self.text.as_str())
    }
}

impl Terms {
    ghost use Rattle.json_terms.specs.Seen.{json};

    pub fn new(alloc: Global) -> Terms
        ensures { result ≡ [] }
    {
        Terms {
            items: Vec::new(alloc),
        }
    }

    /// No elements, with room for so many.
    pub fn with_capacity(alloc: Global, capacity: usize) -> Result<Terms, NoMemory>
        ensures { IfOk result (λ ts. ts ≡ []) }
    {
        Ok(Terms {
            items: Vec::with_capacity(alloc, capacity)?,
        })
    }

    pub fn len(&self) -> usize
        ensures { result ≡ length self.now }
    {
        self.items.as_slice().len()
    }

    pub fn is_empty(&self) -> bool
        ensures { IsTrue result ↔ (self.now ≡ []) }
    {
        self.items.is_empty()
    }

    /// Adds an element at the end. Where memory runs out the list is as it was.
    pub fn push(&mut self, term: Term) -> Result<(), NoMemory>
        ensures ok { OnOk result (self.new ≡ self.old ++ json term ∷ []) }
        ensures err { OnErr result (self.new ≡ self.old) }
    {
        term.validity();
        self.items.push(term)?;
        Ok(())
    }

    pub fn as_slice(&self) -> &[Term]
        ensures { map json result.now ≡ self.now }
    {
        self.items.as_slice()
    }

    /// The elements, without taking memory.
    pub fn into_vec(self) -> Vec<Term>
        ensures { map json result.items ≡ self }
    {
        self.items
    }
}

impl Members {
    ghost use Rattle.json_terms.specs.Seen.{json, pair_of};

    pub fn new(alloc: Global) -> Members
        ensures { result ≡ [] }
    {
        Members {
            entries: Vec::new(alloc),
        }
    }

    /// No members, with room for so many.
    pub fn with_capacity(alloc: Global, capacity: usize) -> Result<Members, NoMemory>
        ensures { IfOk result (λ ms. ms ≡ []) }
    {
        Ok(Members {
            entries: Vec::with_capacity(alloc, capacity)?,
        })
    }

    pub fn len(&self) -> usize
        ensures { result ≡ length self.now }
    {
        self.entries.as_slice().len()
    }

    pub fn is_empty(&self) -> bool
        ensures { IsTrue result ↔ (self.now ≡ []) }
    {
        self.entries.is_empty()
    }

    /// Adds a member whose name is greater than the names that are there. Where memory runs out the members are as they were.
    pub fn push(&mut self, name: Chars, value: Term) -> Result<(), NoMemory>
        requires { ComesAfter name (members_of self.old) }
        ensures ok { OnOk result (self.new ≡ self.old ++ (name, json value) ∷ []) }
        ensures err { OnErr result (self.new ≡ self.old) }
    {
        value.validity();
        let _utf8 = name.as_str();
        self.entries.push(Member { name, value })?;
        Ok(())
    }

    /// Sets the member with this name: its value where the name is there, and else a new member where the order of the
    /// names wants it. Where memory runs out the members are as they were. It goes over the names in turn.
    pub fn insert(&mut self, name: Chars, value: Term) -> Result<(), NoMemory>
        ensures ok { OnOk result (members_of self.new ≡ with_member name (json value)
            (members_of self.old)) }
        ensures err { OnErr result (self.new ≡ self.old) }
    {
        value.validity();
        match place(self.entries.as_slice(), name.as_str()) {
            Ok(index) => {
                let entry = &mut self.entries[index];
                entry.value = value;
                Ok(())
            }
            Err(index) => {
                self.entries.insert(index, Member { name, value })?;
                Ok(())
            }
        }
    }

    pub fn as_slice(&self) -> &[Member]
        ensures { map pair_of result.now ≡ self.now }
    {
        self.entries.as_slice()
    }

    /// The members, without taking memory.
    pub fn into_vec(self) -> Vec<Member>
        ensures { map pair_of result.items ≡ self }
    {
        self.entries
    }

    /// Tells the prover that the names rise and the values are valid. It takes constant time.
    pub fn validity(&self)
        ensures { AreMembers (members_of self.now) }
    {
        let _entries = &self.entries;
    }
}

// The index of the member with this name, or the index at which it would stand.
fn place(entries: &[Member], name: &str) -> Result<usize, usize>
    ensures { result ≡ place_of name.now (members_of (map pair_of entries.now)) }
{
    for (index, entry) in entries.iter().enumerate() {
        match name.cmp(entry.name.as_str()) {
            Ordering::Less => return Err(index),
            Ordering::Equal => return Ok(index),
            Ordering::Greater => {}
        }
    }
    Err(entries.len())
}

impl Term {
    ghost use Rattle.json_terms.specs.Seen.{json};

    /// Tells the prover that a term is valid: its numbers fit, its texts are UTF-8 and the names of its objects rise. It takes constant time.
    pub fn validity(&self)
        ensures { IsTerm (json self.now) }
    {
        match self {
            Term::Int(n) => {
                let _value = *n;
            }
            Term::Object(members) => {
                let _entries = &members.entries;
            }
            Term::Array(terms) => {
                let _items = &terms.items;
            }
            Term::Text(chars) => {
                let _text = &chars.text;
            }
            _ => {}
        }
    }
}
