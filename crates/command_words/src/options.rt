//! The option `--width` and the other words behind a command.

ghost use Rattle.std.specs.Prelude.{◌≡◌, ◌≢◌, not, List, Option, Some, None, IfOk, IfErr, map, option_map, string_bytes, codes};
ghost use Rattle.std.specs.List.{position, take_while};
ghost use Rattle.clap.specs.Words.{App, app_of, found_of, kind_of};
ghost use Rattle.command_words.specs.Commands.{IsSplit, Word};
ghost use Rattle.command_words.specs.Faults as spec;
ghost use Rattle.command_words.specs.Faults.{HasServeFault, IsUnsplit, fault_for, is_dashes};
ghost use Rattle.command_words.specs.Reader.{given_in, plain_in, reader, texts_of};

use crate::fault::WordsFault;
use clap::error::ErrorKind;
use clap::{Arg, ArgAction, ArgMatches, Command};
use std::alloc::{AllocError, Global};

/// The parser of the words behind a command.
fn parser<'a>(alloc: Global) -> Result<Command<'a>, AllocError>
    ensures { IfOk result (λ c. app_of c ≡ reader) }
{
    let width = Arg::new(alloc, "width")
        .long("width")
        .action(ArgAction::Set);
    let plain = Arg::new(alloc, "words").action(ArgAction::Append);
    Command::new(alloc, "couchview")
        .no_binary_name(true)
        .disable_help_flag(true)
        .arg(width)?
        .arg(plain)
}

/// Whether the word begins with one dash alone.
fn is_short(word: &str) -> bool
    ensures { result ≡ spec.is_short word.now }
{
    word.starts_with("-") && !word.starts_with("--")
}

/// The place of the first word before any `--` that begins with one dash alone.
fn short_option(words: &[String]) -> Option<usize>
    ensures { result ≡ position (λ word. spec.is_short (string_bytes word))
        (take_while (λ word. not (is_dashes (string_bytes word))) words.now) }
{
    words
        .iter()
        .take_while(|word| word.as_str() != "--")
        .position(|word| is_short(word.as_str()))
}

/// What an error of the parser means.
fn fault_of(kind: ErrorKind) -> WordsFault
    ensures { result ≡ fault_for kind }
{
    match kind {
        ErrorKind::OutOfMemory => WordsFault::NoMemory,
        ErrorKind::UnknownArgument => WordsFault::UnknownOption,
        ErrorKind::ArgumentConflict => WordsFault::WidthTwice,
        _ => WordsFault::BadWidth,
    }
}

/// Reads the words behind a command's name: what `--width` is given, and the other words. There may be a fault of options
/// alone, or want of memory.
pub(crate) fn read_options<'a>(
    alloc: Global,
    words: &'a [String],
) -> Result<ArgMatches<'a>, WordsFault>
    ensures split { IfOk result (λ m. IsSplit (map string_bytes words.now) (given_in m) (plain_in m)) }
    ensures unsplit { IfErr result (λ fault. fault ≢ WordsFault.NoMemory → IsUnsplit (map string_bytes words.now)) }
    ensures cause { IfErr result (HasServeFault (map string_bytes words.now)) }
{
    if let Some(place) = short_option(words) {
        return Err(WordsFault::ShortOption { place });
    }
    let parser = parser(alloc)?;
    match parser.try_get_matches_from(words) {
        Ok(matches) => Ok(matches),
        Err(error) => Err(fault_of(error.kind())),
    }
}

/// What `--width` is given.
pub(crate) fn given_width<'a>(matches: &ArgMatches<'a>) -> Option<&'a str>
    ensures { option_map (λ text. text.now) result ≡ given_in matches.now }
{
    matches.get_str("width")
}

/// The words that are no option, in order, if there are any.
pub(crate) fn plain_words<'a, 'm>(matches: &'m ArgMatches<'a>) -> Option<&'m [&'a str]>
    ensures { texts_of result ≡ plain_in matches.now }
{
    matches.get_strs("words")
}
