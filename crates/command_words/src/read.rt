//! Words read as a command.

ghost use Rattle.std.specs.Prelude.{◌≡◌, ◌≢◌, ℕ, List, IfOk, IfErr, map, option_map, string_bytes};
ghost use Rattle.command_words.specs.Faults.{HasFault, HasLoadFault, HasNumbersFault, HasServeFault, IsNoWidth, behind_load};
ghost use Rattle.command_words.specs.Reader.{texts_of};
ghost use Rattle.command_words.specs.Commands.{AreNumbers, IsCommand, IsLoad, IsServe, IsWidth, Word};

use crate::command::{Command, DOCS_LIMIT, NUMBER_LIMIT, WIDTH_LIMIT};
use crate::fault::WordsFault;
use crate::number::number;
use crate::options::{given_width, plain_words, read_options};
use json_terms::NoMemory;
use std::alloc::Global;

/// The width that is asked for.
fn width_of(given: Option<&str>) -> Result<u32, WordsFault>
    ensures width { IfOk result (IsWidth (option_map (λ text. text.now) given.entry)) }
    ensures none { IfErr result (λ fault. (fault ≡ WordsFault.BadWidth)
        × IsNoWidth (option_map (λ text. text.now) given.entry)) }
{
    match given {
        None => Ok(1),
        Some(text) => number(text, 1, WIDTH_LIMIT).ok_or(WordsFault::BadWidth),
    }
}

/// The two numbers of `load`.
fn numbers_of(words: Option<&[&str]>) -> Result<(u32, u32), WordsFault>
    ensures numbers { IfOk result (λ pair. AreNumbers (texts_of words.entry) pair.0 pair.1) }
    ensures cause { IfErr result (HasNumbersFault (texts_of words.entry)) }
{
    let Some(words) = words else {
        return Err(WordsFault::NotTwoNumbers);
    };
    let &[docs, second] = words else {
        return Err(WordsFault::NotTwoNumbers);
    };
    let Some(docs) = number(docs, 1, DOCS_LIMIT) else {
        return Err(WordsFault::BadDocs);
    };
    match number(second, 0, NUMBER_LIMIT) {
        Some(second) => Ok((docs, second)),
        None => Err(WordsFault::BadNumber),
    }
}

/// Copies of words. The one error is want of memory.
fn copies(alloc: Global, words: &[&str]) -> Result<Vec<String>, NoMemory>
    ensures { IfOk result (λ copies. map string_bytes copies.items ≡ map (λ word. word.now) words.now) }
{
    let mut copies = Vec::with_capacity(alloc, words.len())?;
    for word in words {
        copies.push(String::from_str(alloc, word)?)?;
    }
    Ok(copies)
}

/// Copies of the words that are no option. The one error is want of memory.
fn plain_copies(alloc: Global, words: Option<&[&str]>) -> Result<Vec<String>, NoMemory>
    ensures { IfOk result (λ copies. map string_bytes copies.items ≡ texts_of words.entry) }
{
    match words {
        Some(words) => copies(alloc, words),
        None => Ok(Vec::new(alloc)),
    }
}

/// The width and the other words that stand behind `serve`.
fn serve_words(alloc: Global, words: &[String]) -> Result<(u32, Vec<String>), WordsFault>
    ensures named { IfOk result (λ parts. IsServe (map string_bytes words.now) parts.0 (map string_bytes parts.1.items)) }
    ensures unnamed { IfErr result (λ fault. fault ≢ WordsFault.NoMemory
        → (width : ℕ) (plain : List Word) → ¬ IsServe (map string_bytes words.now) width plain) }
    ensures cause { IfErr result (HasServeFault (map string_bytes words.now)) }
{
    let matches = read_options(alloc, words)?;
    let width = width_of(given_width(&matches))?;
    let plain = plain_copies(alloc, plain_words(&matches))?;
    Ok((width, plain))
}

/// What a fault of options behind `load` is.
fn load_fault(fault: WordsFault) -> WordsFault
    ensures { result ≡ behind_load fault }
{
    match fault {
        WordsFault::NoMemory => WordsFault::NoMemory,
        _ => WordsFault::LoadOption,
    }
}

/// The numbers that stand behind `load`.
fn load_numbers(alloc: Global, words: &[String]) -> Result<(u32, u32), WordsFault>
    ensures named { IfOk result (λ parts. IsLoad (map string_bytes words.now) parts.0 parts.1) }
    ensures unnamed { IfErr result (λ fault. fault ≢ WordsFault.NoMemory
        → (docs number : ℕ) → ¬ IsLoad (map string_bytes words.now) docs number) }
    ensures cause { IfErr result (HasLoadFault (map string_bytes words.now)) }
{
    let matches = match read_options(alloc, words) {
        Ok(matches) => matches,
        Err(fault) => return Err(load_fault(fault)),
    };
    if given_width(&matches).is_some() {
        return Err(WordsFault::LoadOption);
    }
    numbers_of(plain_words(&matches))
}

/// The command that the words name, which are those after the program's name: `serve [--width N] [WORD]...` or
/// `load DOCS NUMBER`. The other faults than want of memory say which rule the words break.
pub fn read_command(alloc: Global, words: &[String]) -> Result<Command, WordsFault>
    ensures named { IfOk result (IsCommand (map string_bytes words.now)) }
    ensures unnamed { IfErr result (λ fault. fault ≢ WordsFault.NoMemory
        → (c : Command) → ¬ IsCommand (map string_bytes words.now) c) }
    ensures cause { IfErr result (HasFault (map string_bytes words.now)) }
{
    let Some((first, rest)) = words.split_first() else {
        return Err(WordsFault::NoWord);
    };
    match first.as_str() {
        "serve" => {
            let (width, words) = serve_words(alloc, rest)?;
            Ok(Command::Serve { width, words })
        }
        "load" => {
            let (docs, number) = load_numbers(alloc, rest)?;
            Ok(Command::Load { docs, number })
        }
        _ => Err(WordsFault::UnknownCommand),
    }
}
