//! A number read digit by digit, each in a base of its own.

ghost use Rattle.std.specs.Prelude.{◌≡◌, ◌<◌, ◌/◌, ◌%◌};

/// What is left of a number, the digits that come next in its low part.
#[derive(Drop)]
pub struct Digits {
    pub rest: u64,
}

impl Digits {
    /// The next digit, in this base.
    pub fn next(&mut self, base: u64) -> u64
        requires { 0 < base }
        ensures digit { result ≡ self.old.rest % base }
        ensures rest { self.new.rest ≡ self.old.rest / base }
        ensures below { result < base }
    {
        let digit = self.rest % base;
        self.rest /= base;
        digit
    }
}
