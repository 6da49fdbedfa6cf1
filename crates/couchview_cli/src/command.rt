//! The commands.
ghost use Rattle.std.specs.Prelude.{◌≡◌, ◌≢◌, ◌≤◌, ◌⊎◌, ◌↔◌, ℕ, [], IfOk, IfSome, IsTrue, Vec, String, Ok, None, bytes_eq, map, string_bytes};
ghost use Rattle.std.specs.declared.alloc.Global.{Global};
ghost use Rattle.std.specs.Io.KnownBytes.{IsAtEnd};
ghost use Rattle.std.specs.List.{IsDistinct, list_all, list_any};
ghost use Rattle.std.specs.Map.{keys_of};
ghost use Rattle.view_ports.specs.Disk.{IfTold};
ghost use Rattle.view_ports.specs.Faults.{Rose};
ghost use Rattle.command_words.specs.declared.command.Command.TheVariants.{Load};
ghost use Rattle.child_pool.specs.Languages.{language_in, languages_in};
ghost use Rattle.view_engine.specs.World.{World};
ghost use Rattle.couchview_cli.specs.Command.{AreLanguages, AskFor, AskToServe, IsApart, IsBuilt, IsLoad, IsServe, IsToDo, RefusesWords, ShowsUsage, languages_named, usage_line};
ghost use Rattle.couchview_cli.specs.Command as spec;
ghost use Rattle.couchview_cli.specs.Loading.{AnswersLoad, LoadEndsAtFile, Loads};
ghost use Rattle.couchview_cli.specs.Reading.{AnswersLines};
ghost use Rattle.couchview_cli.specs.Serving.{outside, AreLeft, Begins, Clashes, EndsAtFile, IsShort, Serves, StopsAtLimit};

use crate::built_in::is_built_in;
use crate::load::load;
use crate::serve::{WIDTH, serve};
use child_pool::language_word;
use command_words::{Command, WordsFault, read_command};
use json_terms::NoMemory;
use std::alloc::Global;
use view_ports::{Folder, PortFault, RunEnd, Servers, Sink, Source, write_all};

/// The exit status for words that are no command.
const USAGE_STATUS: u8 = 2;

/// How many languages the command line may name.
pub const LANGUAGES: usize = 8;

fn usage() -> &'static [u8]
    ensures { result.now ≡ usage_line }
{
    b"usage: couchview serve [--width N] [LANG=PATH]... | couchview load DOCS NUMBER\n"
}

/// Whether a language may have this path.
pub fn is_path(path: &str) -> bool
    ensures { result ≡ spec.is_path path.now }
{
    !path.as_bytes().starts_with(b"builtin:") || is_built_in(path)
}

/// Whether this is a word LANG=PATH.
fn is_language(word: &str) -> bool
    ensures { result ≡ spec.is_language word.now }
{
    match language_word(word) {
        Some((_language, path)) => is_path(path),
        None => false,
    }
}

/// Whether each word is LANG=PATH.
fn all_languages(words: &[String]) -> bool
    ensures { result ≡ list_all (λ word. spec.is_language (string_bytes word)) words.now }
{
    words.iter().all(|word| is_language(word.as_str()))
}

/// Whether a word is LANG=PATH with this language.
fn names(word: &str, language: &str) -> bool
    ensures { result ≡ spec.names language.now (language_in word.now) }
{
    match language_word(word) {
        Some((found, _path)) => language == found,
        None => false,
    }
}

/// Whether one of the words is LANG=PATH with this language.
pub fn is_named(words: &[String], language: &str) -> bool
    ensures { result ≡ list_any (λ word. spec.names language.now
        (language_in (string_bytes word))) words.now }
{
    words.iter().any(|word| names(word.as_str(), language))
}

/// Whether the language of the first word is named by none of the others.
fn is_apart(first: &str, others: &[String]) -> bool
    ensures { IsTrue result ↔ IsApart (language_in first.now)
        (keys_of (languages_in (map string_bytes others.now))) }
{
    match language_word(first) {
        Some((language, _path)) => !is_named(others, language),
        None => true,
    }
}

/// Whether no two words name one language.
fn are_apart(words: &[String]) -> bool
    ensures { IsTrue result ↔ IsDistinct bytes_eq (keys_of
        (languages_in (map string_bytes words.now))) }
{
    match words.split_first() {
        Some((first, others)) => is_apart(first.as_str(), others) && are_apart(others),
        None => true,
    }
}

/// Whether these words may stand behind `serve`.
fn are_languages(words: &[String]) -> bool
    ensures { IsTrue result ↔ AreLanguages (map string_bytes words.now) }
{
    words.len() <= LANGUAGES && all_languages(words) && are_apart(words)
}

/// Whether the command is built.
pub fn is_built(command: &Command) -> bool
    ensures { IsTrue result ↔ IsBuilt command.now }
{
    match command {
        Command::Serve { width, words } => *width == WIDTH && are_languages(words),
        Command::Load { docs: _, number: _ } => true,
    }
}

/// The command that the words name, if they name one that is built. The one error is want of memory.
fn to_do(alloc: Global, words: &[String]) -> Result<Option<Command>, NoMemory>
    ensures some { IfOk result (λ found. IfSome found (AskFor words.now)) }
    ensures none { result ≡ Ok None → ¬ IsToDo words.now }
{
    match read_command(alloc, words) {
        Ok(command) => Ok(only_built(command)),
        Err(WordsFault::NoMemory) => Err(NoMemory),
        Err(_) => Ok(None),
    }
}

/// The command, if it is built.
fn only_built(command: Command) -> Option<Command>
    ensures some { IfSome result (λ found. (found ≡ command) × IsBuilt command) }
    ensures none { result ≡ None → ¬ IsBuilt command }
{
    if is_built(&command) {
        Some(command)
    } else {
        None
    }
}

/// Writes the usage line, and answers the exit status.
fn show_usage<K: Sink>(sink: &mut K) -> u8
    ensures shows { ShowsUsage (K.held sink.old) (K.held sink.new) result }
    ensures failed { result ≡ 4 → Rose (K.faults sink.old) (K.faults sink.new) }
    ensures told { (Rose (K.faults sink.old) (K.faults sink.new) → ⊥) → result ≡ 2 }
    ensures either { (result ≡ 2) ⊎ (result ≡ 4) }
    ensures count { K.faults sink.old ≤ K.faults sink.new }
{
    match write_all(sink, usage()) {
        Ok(()) => USAGE_STATUS,
        Err(PortFault) => RunEnd::SinkFailed.status(),
    }
}

/// Does the command that the words name, and answers the exit status. The words are those after the
/// program's name.
///
/// `serve` reads request lines from the source, and writes a reply line to the sink for each that isn't
/// empty, in order. The documents stand in the folder. The words LANG=PATH behind it name the query servers of languages;
/// at the end no child is left.
///
/// `load` puts so many documents into a folder without writes, asks their view, puts every third of them again, and asks once more.
/// It writes both replies, the answer to the second view from mapping all documents, and the reply to `info`, or nothing where the
/// folder has writes.
///
/// Other words are answered with the usage line. Where memory runs out for reading the words nothing is done.
pub fn couchview<S: Source, K: Sink, F: Folder, C: Servers>(
    alloc: Global,
    words: &[String],
    source: &mut S,
    sink: &mut K,
    folder: &mut F,
    servers: &mut C,
) -> u8
    requires { C.may_follow servers.old [] }

    // What is read, written, asked and kept, over a folder that tells its disk, where nothing is pending and which holds a world.
    ensures serves { (kept : Vec (String Global) Global) → AskToServe words.now kept
        → (opening : World) → Begins C.functions C.honest (languages_named kept) (F.disk folder.old) opening
        → Serves C.functions C.honest (languages_named kept) opening
        (outside S.Source K.Sink F.Folder C.Servers source.old sink.old folder.old servers.old)
        (outside S.Source K.Sink F.Folder C.Servers source.new sink.new folder.new servers.new)
        (AreLeft (C.may_follow servers.new)) result }

    // What is written, asked and kept by a load, over the same, and whatever the folder holds.
    ensures loads { (docs number : ℕ) → AskFor words.now (Load docs number)
        → (opening : World) → Begins C.functions C.honest [] (F.disk folder.old) opening
        → Loads C.functions C.honest docs number opening
        (outside S.Source K.Sink F.Folder C.Servers source.old sink.old folder.old servers.old)
        (outside S.Source K.Sink F.Folder C.Servers source.new sink.new folder.new servers.new)
        (AreLeft (C.may_follow servers.new)) result }
    ensures answers { (docs number : ℕ) → AskFor words.now (Load docs number)
        → AnswersLoad docs number
        (outside S.Source K.Sink F.Folder C.Servers source.old sink.old folder.old servers.old)
        (outside S.Source K.Sink F.Folder C.Servers source.new sink.new folder.new servers.new) result }
    ensures unread { ¬ IsServe words.now → source.new ≡ source.old }

    // What is read and answered whatever the folder holds.
    ensures lines { IsServe words.now → AnswersLines
        (outside S.Source K.Sink F.Folder C.Servers source.old sink.old folder.old servers.old)
        (outside S.Source K.Sink F.Folder C.Servers source.new sink.new folder.new servers.new) result }

    // Other words.
    ensures refuses { ¬ IsToDo words.now → RefusesWords (K.held sink.old) (K.held sink.new) result }
    ensures unopened { ¬ IsToDo words.now → folder.new ≡ folder.old }
    ensures unasked { ¬ IsToDo words.now → servers.new ≡ servers.old }

    // The cause of each status.
    ensures ended { result ≡ 0
        → IsLoad words.now ⊎ (IsServe words.now × IsAtEnd (S.left source.new)) }
    ensures has_writes { result ≡ 10 → IsLoad words.now }
    ensures no_command { result ≡ 2 → ¬ IsToDo words.now }
    ensures told { ¬ IsToDo words.now → ¬ Rose (K.faults sink.old) (K.faults sink.new)
        → (result ≡ 2) ⊎ (result ≡ 6) }
    ensures disk_failed { result ≡ 3 → IsToDo words.now
        × Rose (F.faults folder.old) (F.faults folder.new) }
    ensures disk_spared { IsServe words.now ⊎ (result ≢ 6) → result ≢ 3 → result ≢ 4
        → F.faults folder.new ≡ F.faults folder.old }
    ensures sink_failed { result ≡ 4 → Rose (K.faults sink.old) (K.faults sink.new) }
    ensures source_failed { result ≡ 5 → IsServe words.now
        × Rose (S.faults source.old) (S.faults source.new) }
    ensures too_long { result ≡ 8 → IsServe words.now }
    ensures limit { IsServe words.now
        → StopsAtLimit (S.left source.old) (S.left source.new) result }
    ensures source_count { S.faults source.old ≤ S.faults source.new }
    ensures sink_count { K.faults sink.old ≤ K.faults sink.new }
    ensures disk_count { F.faults folder.old ≤ F.faults folder.new }
    ensures server_count { C.faults servers.old ≤ C.faults servers.new }

    // Where no port fails, no full file ends the run, and no view is asked for of designs that clash, input that is short enough is read
    // to its end.
    ensures complete { (kept : Vec (String Global) Global) → AskToServe words.now kept
        → (opening : World) → Begins C.functions C.honest (languages_named kept) (F.disk folder.old) opening
        → IsShort (S.left source.old)
        → ¬ Rose (S.faults source.old) (S.faults source.new)
        → ¬ Rose (K.faults sink.old) (K.faults sink.new)
        → ¬ Rose (F.faults folder.old) (F.faults folder.new)
        → ¬ EndsAtFile C.functions C.honest (languages_named kept) opening
        (outside S.Source K.Sink F.Folder C.Servers source.old sink.old folder.old servers.old)
        (outside S.Source K.Sink F.Folder C.Servers source.new sink.new folder.new servers.new)
        (AreLeft (C.may_follow servers.new)) result
        → ¬ Clashes C.functions C.honest (languages_named kept) opening
        (outside S.Source K.Sink F.Folder C.Servers source.old sink.old folder.old servers.old)
        (outside S.Source K.Sink F.Folder C.Servers source.new sink.new folder.new servers.new) result
        → IfTold (F.disk folder.old) (λ d. (result ≡ 0) ⊎ (result ≡ 6)) }

    // So is a load done, unless the folder has writes.
    ensures whole { (docs number : ℕ) → AskFor words.now (Load docs number)
        → (opening : World) → Begins C.functions C.honest [] (F.disk folder.old) opening
        → ¬ Rose (K.faults sink.old) (K.faults sink.new)
        → ¬ Rose (F.faults folder.old) (F.faults folder.new)
        → ¬ LoadEndsAtFile C.functions C.honest docs number opening
        (outside S.Source K.Sink F.Folder C.Servers source.old sink.old folder.old servers.old)
        (outside S.Source K.Sink F.Folder C.Servers source.new sink.new folder.new servers.new)
        (AreLeft (C.may_follow servers.new)) result
        → IfTold (F.disk folder.old) (λ d. (result ≡ 0) ⊎ ((result ≡ 6) ⊎ (result ≡ 10))) }
{
    let command = match to_do(alloc, words) {
        Ok(Some(command)) => command,
        Ok(None) => return show_usage(sink),
        Err(NoMemory) => return RunEnd::OutOfMemory.status(),
    };
    match &command {
        Command::Serve { width: _, words } => serve(alloc, words, source, sink, folder, servers),
        Command::Load { docs, number } => load(alloc, *docs, *number, sink, folder, servers),
    }
}
