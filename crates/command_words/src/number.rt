//! Numbers of the command line.

ghost use Rattle.std.specs.Prelude.{◌≡◌, ◌↔◌, ℕ, IfSome, IsTrue, None, decimal};
ghost use Rattle.command_words.specs.Commands.{IsNumber};

use itoa::Buffer;

/// Whether this is how the number is written in decimal digits.
fn is_written(n: u32, text: &str) -> bool
    ensures { IsTrue result ↔ (text.now ≡ decimal n) }
{
    let mut buffer = Buffer::new();
    buffer.format(n) == text
}

/// The number from `least` to `most` that is written here in decimal digits, without sign or leading zeros, if it is one.
pub(crate) fn number(text: &str, least: u32, most: u32) -> Option<u32>
    ensures found { IfSome result (λ n. IsNumber least most text.now n) }
    ensures none { result ≡ None → (n : ℕ) → ¬ IsNumber least most text.now n }
{
    let Ok(n) = text.parse::<u32>() else {
        return None;
    };
    if least <= n && n <= most && is_written(n, text) {
        Some(n)
    } else {
        None
    }
}
