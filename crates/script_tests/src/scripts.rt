//! Random requests, each made behind the writes so far.

ghost use Rattle.std.specs.Prelude.{◌<◌};

use crate::maps::{Map, Members, Value};
use crate::model::{Write, last_of};
use crate::requests::{Body, Request, Rev};

/// Random numbers, the same ones in each run of the test.
#[derive(Drop)]
pub struct Dice {
    state: u64,
}

impl Dice {
    pub fn new(seed: u64) -> Dice {
        Dice { state: seed }
    }

    /// The next number below `sides`.
    pub fn below(&mut self, sides: u64) -> u64
        requires { 0 < sides }
        ensures { result < sides }
    {
        let next = self.state.wrapping_mul(6_364_136_223_846_793_005);
        self.state = next.wrapping_add(1_442_695_040_888_963_407);
        (self.state >> 33) % sides
    }
}

const DOCUMENTS: [&str; 10] = ["d0", "d1", "d2", "d3", "d4", "d5", "d6", "d7", "d8", "d9"];

const NUMBERS: [i64; 6] = [-3, 0, 1, 2, 7, 4_611_686_018_427_387_904];

/// A design document, and the map functions that it may have.
pub type Design = (&'static str, [Map; 3]);

/// Requests over some documents and these design documents.
#[derive(Drop)]
pub struct Script {
    pub dice: Dice,
    pub designs: [Design; 3],
}

impl Script {
    fn document(&mut self) -> &'static str {
        DOCUMENTS[self.dice.below(10) as usize]
    }

    fn design(&mut self) -> Design {
        self.designs[self.dice.below(3) as usize]
    }

    fn number(&mut self) -> i64 {
        NUMBERS[self.dice.below(6) as usize]
    }

    fn value(&mut self) -> Option<Value> {
        match self.dice.below(6) {
            0 => None,
            1 => Some(Value::Null),
            2 | 3 => Some(Value::Pair(self.number(), self.number())),
            _ => Some(Value::Number(self.number())),
        }
    }

    fn members(&mut self) -> Body {
        Body::Plain(Members {
            k: self.value(),
            m: self.value(),
            n: self.value(),
        })
    }

    /// The revision of some write.
    fn any_rev(&mut self, writes: &[Write]) -> Option<Rev> {
        let before = self.dice.below(400);
        let write = writes.get(before as usize)?;
        let generation = write.generation;
        let number = before.saturating_add(1);
        Some(Rev { generation, number })
    }

    /// Mostly the revision that a write of the id is to have: the present one, or for a tombstone or no write none. Else none, that
    /// of a tombstone, or that of any write.
    fn over(&mut self, writes: &[Write], id: &str) -> Option<Rev> {
        match (self.dice.below(8), last_of(writes, id)) {
            (0, _) => None,
            (1, _) => self.any_rev(writes),
            (2, Some((rev, _))) | (_, Some((rev, Some(_)))) => Some(rev),
            _ => None,
        }
    }

    /// The next request.
    pub fn next(&mut self, writes: &[Write]) -> Request {
        let id = self.document();
        let (design, maps) = self.design();
        match self.dice.below(40) {
            0..=14 => Request::Put(id, self.over(writes, id), self.members()),
            15..=17 => Request::Delete(id, self.over(writes, id)),
            18 => Request::Erase(id, self.over(writes, id)),
            19..=23 => {
                let map = maps[self.dice.below(3) as usize];
                Request::Put(design, self.over(writes, design), Body::Design(map))
            }
            24 => Request::Delete(design, self.over(writes, design)),
            25..=34 => Request::View(design),
            35 | 36 => Request::Get(id),
            37 => Request::Info,
            _ => Request::Cleanup,
        }
    }
}
