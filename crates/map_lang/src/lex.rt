//! The tokens of a source.

ghost use Rattle.std.specs.Prelude.{◌≡◌, ◌<◌, ◌≤◌, ℕ, ◌∷◌, ◌++◌, List, IfOk, IfErr, MatchOption, length, take, drop, true, false, slice_index};
ghost use Rattle.std.specs.Fmt.{signed_decimal};
ghost use Rattle.map_lang.specs.declared.token.Token.{Token};
ghost use Rattle.map_lang.specs.declared.token.Token.TheVariants.{Integer};
ghost use Rattle.map_lang.specs.Tokens.{AreTokens, IsWhole, text_of, mark_text, all_pass, first_passes, is_letter, is_digit, is_in_text};
ghost use Rattle.map_lang.specs.Lexing.{passes, HasNoInteger, HasNoText, HasNoToken, IsTokenAt, IsBlankBefore, IsDigitRun, IsSignedRun};
ghost use Rattle.map_lang.specs.Refusing.{IfRefused};

use crate::fault::ParseFault;
use crate::token::{Mark, Token};
use itoa::Buffer;
use json_terms::Chars;
use std::alloc::Global;
use std::collections::VecDeque;

/// The tokens of a source: it is blanks and these, each as long as it can be. `Refused` comes exactly where it has none.
pub fn lex(alloc: Global, source: &str) -> Result<VecDeque<Token>, ParseFault>
    ensures found { IfOk result (λ tokens. AreTokens source.now tokens.items) }
    ensures refused { IfRefused result ((tokens : List Token) → AreTokens source.now tokens → ⊥) }
{
    let mut tokens = VecDeque::new(alloc);
    let mut rest = after_blanks(source);
    'tokens: while !rest.is_empty() {
        let (token, len) = token_at(alloc, rest)?;
        tokens.push_back(token)?;
        rest = after_blanks(&rest[len..]);
    }
    Ok(tokens)
}

// What a run of bytes is made of.
#[derive(Clone, Copy)]
pub enum Class {
    Blank,
    Digit,
    InWord,
    InText,
}

fn passes(class: Class, byte: u8) -> bool
    ensures { result ≡ passes class byte }
{
    match class {
        Class::Blank => matches!(byte, b' ' | b'\t' | b'\n' | b'\r'),
        Class::Digit => is_digit(byte),
        Class::InWord => is_letter(byte) || is_digit(byte),
        Class::InText => byte != b'\'',
    }
}

fn is_digit(byte: u8) -> bool
    ensures { result ≡ is_digit byte }
{
    byte >= b'0' && byte <= b'9'
}

fn is_letter(byte: u8) -> bool
    ensures { result ≡ is_letter byte }
{
    (byte >= b'A' && byte <= b'Z') || (byte >= b'a' && byte <= b'z') || byte == b'_'
}

// How many bytes of this class stand first.
fn run_of(class: Class, bytes: &[u8]) -> usize
    ensures within { result ≤ length bytes.now }
    ensures passing { all_pass (passes class) (take result bytes.now) ≡ true }
    ensures ends { first_passes (passes class) (drop result bytes.now) ≡ false }
{
    let mut len = 0;
    while len < bytes.len() && passes(class, bytes[len]) {
        len += 1;
    }
    len
}

// What stands behind the blanks that stand first.
fn after_blanks(source: &str) -> &str
    ensures { IsBlankBefore source.now result.now }
{
    let len = run_of(Class::Blank, source.as_bytes());
    &source[len..]
}

// The token that stands first, and its length.
fn token_at(alloc: Global, source: &str) -> Result<(Token, usize), ParseFault>
    requires { 0 < length source.now }
    ensures found { IfOk result (λ found. IsTokenAt source.now found.0 found.1) }
    ensures refused { IfRefused result (HasNoToken source.now) }
{
    let bytes = source.as_bytes();
    let first = bytes[0];
    if is_letter(first) {
        return word_at(alloc, source);
    }
    if first == b'-' || is_digit(first) {
        return integer_at(source);
    }
    if first == b'\'' {
        return text_at(alloc, source);
    }
    match mark_at(bytes) {
        Some((mark, len)) => Ok((Token::Mark(mark), len)),
        None => Err(ParseFault::Refused),
    }
}

// The word that stands first.
fn word_at(alloc: Global, source: &str) -> Result<(Token, usize), ParseFault>
    requires { first_passes is_letter source.now ≡ true }
    ensures found { IfOk result (λ found. IsTokenAt source.now found.0 found.1) }
    ensures refused { IfErr result (λ fault. fault ≡ ParseFault.Refused → ⊥) }
{
    let len = run_of(Class::InWord, source.as_bytes());
    let word = Chars::from_text(alloc, &source[..len])?;
    Ok((Token::Word(word), len))
}

// The number that stands first, as it is printed.
fn integer_at(source: &str) -> Result<(Token, usize), ParseFault>
    requires { 0 < length source.now }
    ensures found { IfOk result (λ found. IsTokenAt source.now found.0 found.1) }
    ensures refused { IfRefused result (HasNoInteger source.now) }
{
    let len = integer_len(source.as_bytes());
    let text = &source[..len];
    let Ok(number) = text.parse::<i64>() else {
        return Err(ParseFault::Refused);
    };
    let mut printed = Buffer::new();
    if printed.format(number) == text {
        Ok((Token::Integer(number), len))
    } else {
        Err(ParseFault::Refused)
    }
}

// How many bytes are a sign and the digits behind it.
fn integer_len(bytes: &[u8]) -> usize
    requires { 0 < length bytes.now }
    ensures within { result ≤ length bytes.now }
    ensures signed { slice_index bytes.now 0 ≡ 45 → IsSignedRun bytes.now result }
    ensures digits { (slice_index bytes.now 0 ≡ 45 → ⊥) → IsDigitRun bytes.now result }
{
    if bytes[0] == b'-' {
        1 + run_of(Class::Digit, &bytes[1..])
    } else {
        run_of(Class::Digit, bytes)
    }
}

// The text between two `'` that stands first.
fn text_at(alloc: Global, source: &str) -> Result<(Token, usize), ParseFault>
    requires some { 0 < length source.now }
    requires quoted { slice_index source.now 0 ≡ 39 }
    ensures found { IfOk result (λ found. IsTokenAt source.now found.0 found.1) }
    ensures refused { IfRefused result (HasNoText source.now) }
{
    let bytes = source.as_bytes();
    let len = run_of(Class::InText, &bytes[1..]);
    if len + 1 == bytes.len() {
        return Err(ParseFault::Refused);
    }
    let text = Chars::from_text(alloc, &source[1..len + 1])?;
    Ok((Token::Text(text), len + 2))
}

// The mark that stands first, and its length.
fn mark_at(bytes: &[u8]) -> Option<(Mark, usize)>
    ensures { MatchOption result ((mark : _) (rest : List ℕ) → bytes.now ≡ mark_text mark ++ rest
        → ⊥)
        (λ found. (found.1 ≤ length bytes.now) × (0 < found.1)
        × (bytes.now ≡ mark_text found.0 ++ drop found.1 bytes.now)) }
{
    match bytes {
        [b',', ..] => Some((Mark::Comma, 1)),
        [b'=', b'=', ..] => Some((Mark::Equals, 2)),
        [b'.', ..] => Some((Mark::Dot, 1)),
        [b'{', ..] => Some((Mark::OpenBrace, 1)),
        [b'}', ..] => Some((Mark::CloseBrace, 1)),
        [b'[', ..] => Some((Mark::OpenBracket, 1)),
        [b']', ..] => Some((Mark::CloseBracket, 1)),
        _ => None,
    }
}
