//! The numbers that the documents are made from.

ghost use Rattle.std.specs.Prelude.{◌≡◌, ◌/◌};
ghost use Rattle.load_lines.specs.Numbers.{next_number};

/// What a number is multiplied by, for the next.
const MULTIPLIER: u64 = 1_103_515_245;

/// What is added then.
const INCREMENT: u64 = 12_345;

/// The numbers are below this.
const MODULUS: u64 = 1 << 31;

/// What a number is divided by: its lower bits take turns, so they aren't used.
const LOWER_PART: u32 = 65_536;

/// A linear congruential generator.
#[derive(Drop)]
pub(crate) struct Generator {
    last: u32,
}

impl Generator {
    /// The generator whose numbers come behind this one.
    pub(crate) fn new(seed: u32) -> Generator
        ensures { result.last ≡ seed }
    {
        Generator { last: seed }
    }

    /// Goes on to the next number, and gives its upper bits.
    pub(crate) fn next_value(&mut self) -> u32
        ensures moves { self.new.last ≡ next_number self.old.last }
        ensures value { result ≡ self.new.last / 65536 }
    {
        let number = (MULTIPLIER * u64::from(self.last) + INCREMENT) % MODULUS;
        self.last = number as u32;
        self.last / LOWER_PART
    }
}
