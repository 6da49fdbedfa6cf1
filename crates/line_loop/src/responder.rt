//! What answers the lines of a run.

ghost use Rattle.std.specs.Prelude.{◌≡◌, ℕ, List, IfErr, OnOk};
ghost use Rattle.line_loop.specs.Given.{OfLine};

/// What answers lines, one after another, each with a text.
pub trait Responder {
    /// Why a line isn't answered.
    type Error;

    /// How many bytes a line has at most. Of a longer one as many and one more are given, which is enough to refuse it.
    ghost line_limit: { ℕ };

    /// A line may be given.
    ghost is_ready: { Self → Type 0 };

    /// The text that the last line was answered with.
    ghost text: { Self → List ℕ };

    /// This line was answered, by the one as it was, and it goes on as the other.
    ghost answers: { Self → List ℕ → Self → Type 0 };

    /// This line was not answered, for this reason, and the one as it was ended as the other.
    ghost stops: { Self → List ℕ → Self.Error → Self → Type 0 };

    /// Answers a line, of which the first `line_limit` + 1 bytes are given. No line may be given after an error.
    fn answer(&mut self, line: &[u8]) -> Result<(), Self::Error>
        requires { is_ready self.old }
        ensures ready { OnOk result (is_ready self.new) }
        ensures ok { OnOk result (OfLine line_limit line.now
            (λ whole. answers self.old whole self.new)) }
        ensures err { IfErr result (λ error. OfLine line_limit line.now
            (λ whole. stops self.old whole error self.new)) };

    /// The text that the last line was answered with, as it is to be written: with a newline where it is a line.
    fn text(&self) -> &[u8]
        ensures { result.now ≡ text self.now };
}
