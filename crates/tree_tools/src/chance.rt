//! Numbers by chance, the same in each run.

/// A linear congruential generator, with the numbers of Knuth's MMIX.
#[derive(Clone, Copy, Debug)]
pub struct Chance {
    state: u64,
}

impl Chance {
    pub fn new(seed: u64) -> Chance {
        Chance { state: seed }
    }

    /// A number below `end`, or 0 where that is 0.
    pub fn below(&mut self, end: u64) -> u64 {
        self.state = self
            .state
            .wrapping_mul(6_364_136_223_846_793_005)
            .wrapping_add(1_442_695_040_888_963_407);
        match (self.state >> 33).checked_rem(end) {
            Some(number) => number,
            None => 0,
        }
    }

    /// The same, as a key or a value.
    pub fn key(&mut self, end: u64) -> i64 {
        i64::try_from(self.below(end)).unwrap_or(0)
    }
}
