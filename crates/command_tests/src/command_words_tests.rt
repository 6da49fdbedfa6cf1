//! Lists of words, each with the command that it names or the cause of its refusal.

use command_words::{Command, read_command};
use std::alloc::Global;
use std::test::Fail;

/// The words, between bars, and what they are: a command with its parts, or a fault.
const LINES: &[(&str, &str)] = &[
    // The command.
    ("help", "UnknownCommand"),
    ("--help", "UnknownCommand"),
    ("-h", "UnknownCommand"),
    ("", "UnknownCommand"),
    ("--", "UnknownCommand"),
    ("--|serve", "UnknownCommand"),
    ("--width|3|serve", "UnknownCommand"),
    ("Serve", "UnknownCommand"),
    ("serve ", "UnknownCommand"),
    ("servee", "UnknownCommand"),
    ("load=3|1", "UnknownCommand"),
    // The words behind `serve`.
    ("serve", "serve 1"),
    ("serve|a=b", "serve 1|a=b"),
    ("serve|a|b|a", "serve 1|a|b|a"),
    ("serve|help", "serve 1|help"),
    ("serve|", "serve 1|"),
    ("serve|serve|load", "serve 1|serve|load"),
    ("serve|ø=/x y", "serve 1|ø=/x y"),
    ("serve|a-b|a--", "serve 1|a-b|a--"),
    ("serve|--", "serve 1"),
    ("serve|--|--", "serve 1|--"),
    ("serve|a|--|b|--|c", "serve 1|a|b|--|c"),
    ("serve|--|-", "serve 1|-"),
    ("serve|--|-w|--width", "serve 1|-w|--width"),
    (
        "serve|--|--width=9|--width|0",
        "serve 1|--width=9|--width|0",
    ),
    // The width.
    ("serve|--width|1", "serve 1"),
    ("serve|--width=1", "serve 1"),
    ("serve|--width|8", "serve 8"),
    ("serve|--width=8", "serve 8"),
    ("serve|--width|3|a|b", "serve 3|a|b"),
    ("serve|a|--width|3|b", "serve 3|a|b"),
    ("serve|a|b|--width=3", "serve 3|a|b"),
    ("serve|a|--width|3|--|--width|4", "serve 3|a|--width|4"),
    ("serve|--width=3|--", "serve 3"),
    ("serve|--width|3|4", "serve 3|4"),
    ("serve|--width|0", "BadWidth"),
    ("serve|--width=0", "BadWidth"),
    ("serve|--width|9", "BadWidth"),
    ("serve|--width=9", "BadWidth"),
    ("serve|--width|01", "BadWidth"),
    ("serve|--width=01", "BadWidth"),
    ("serve|--width|+1", "BadWidth"),
    ("serve|--width|-1", "ShortOption { place: 1 }"),
    ("serve|--width=-1", "BadWidth"),
    ("serve|--width|", "BadWidth"),
    ("serve|--width|８", "BadWidth"),
    ("serve|--width|1 ", "BadWidth"),
    ("serve|--width|18", "BadWidth"),
    ("serve|--width|4294967297", "BadWidth"),
    ("serve|--width|18446744073709551617", "BadWidth"),
    ("serve|--width=", "BadWidth"),
    ("serve|--width= 1", "BadWidth"),
    ("serve|--width=|1", "BadWidth"),
    ("serve|--width==1", "BadWidth"),
    ("serve|--width", "BadWidth"),
    ("serve|a|--width", "BadWidth"),
    ("serve|--width|--", "BadWidth"),
    ("serve|--width|--|3", "BadWidth"),
    ("serve|--width|a", "BadWidth"),
    // The width twice.
    ("serve|--width|3|--width|4", "WidthTwice"),
    ("serve|--width=3|--width|3", "WidthTwice"),
    ("serve|--width|3|--width=3", "WidthTwice"),
    ("serve|--width=3|a|--width=3", "WidthTwice"),
    ("serve|--width|--width|3", "BadWidth"),
    ("serve|--width|--width=3", "BadWidth"),
    // Other options.
    ("serve|-", "ShortOption { place: 0 }"),
    ("serve|a|-|b", "ShortOption { place: 1 }"),
    ("serve|-w", "ShortOption { place: 0 }"),
    ("serve|-w|1", "ShortOption { place: 0 }"),
    ("serve|-h", "ShortOption { place: 0 }"),
    ("serve|--width|-", "ShortOption { place: 1 }"),
    ("serve|a|b|-w|--|-", "ShortOption { place: 2 }"),
    ("serve|--help", "UnknownOption"),
    ("serve|--version", "UnknownOption"),
    ("serve|--widt|1", "UnknownOption"),
    ("serve|--widths|1", "UnknownOption"),
    ("serve|--Width|1", "UnknownOption"),
    ("serve|--width 1", "UnknownOption"),
    ("serve|---", "UnknownOption"),
    ("serve|---width|1", "UnknownOption"),
    ("serve|--=1", "UnknownOption"),
    ("serve|--words=1", "UnknownOption"),
    // `load`.
    ("load|3|1", "load 3 1"),
    ("load|1|0", "load 1 0"),
    ("load|20000|2147483647", "load 20000 2147483647"),
    ("load|--|3|1", "load 3 1"),
    ("load|3|--|1", "load 3 1"),
    ("load|3|1|--", "load 3 1"),
    ("load", "NotTwoNumbers"),
    ("load|3", "NotTwoNumbers"),
    ("load|3|1|1", "NotTwoNumbers"),
    ("load|--|3|--|1", "NotTwoNumbers"),
    ("load|3 1", "NotTwoNumbers"),
    ("load|0|1", "BadDocs"),
    ("load|20001|1", "BadDocs"),
    ("load|007|1", "BadDocs"),
    ("load|+3|1", "BadDocs"),
    ("load||1", "BadDocs"),
    ("load|three|1", "BadDocs"),
    ("load|3.0|1", "BadDocs"),
    ("load|3|2147483648", "BadNumber"),
    ("load|3|4294967296", "BadNumber"),
    ("load|3|00", "BadNumber"),
    ("load|3|01", "BadNumber"),
    ("load|3|", "BadNumber"),
    ("load|--|3|-1", "BadNumber"),
    ("load|3|-1", "LoadOption"),
    ("load|-|1", "LoadOption"),
    ("load|--width|3|3|1", "LoadOption"),
    ("load|3|--width=3|1", "LoadOption"),
    ("load|3|1|--width", "LoadOption"),
    ("load|--help", "LoadOption"),
];

fn words_of(alloc: Global, line: &str) -> Result<Vec<String>, Fail> {
    let mut words = Vec::new(alloc);
    for word in line.split("|") {
        words.push(String::from_str(alloc, word)?)?;
    }
    Ok(words)
}

fn text_of(alloc: Global, command: &Command) -> Result<String, Fail> {
    match command {
        Command::Serve { width, words } => {
            let mut text = format!(in alloc; "serve {width}")?;
            for word in words {
                text.push_str("|")?;
                text.push_str(word.as_str())?;
            }
            Ok(text)
        }
        Command::Load { docs, number } => Ok(format!(in alloc; "load {docs} {number}")?),
    }
}

/// What the words are, as in the table.
fn outcome(alloc: Global, words: &[String]) -> Result<String, Fail> {
    match read_command(alloc, words) {
        Ok(command) => text_of(alloc, &command),
        Err(fault) => Ok(format!(in alloc; "{fault:?}")?),
    }
}

#[test]
fn words_are_read(rt: HostRuntime) -> Result<(), Fail> {
    let alloc = rt.alloc();
    let none: [String; 0] = [];
    assert_eq!(rt; outcome(alloc, &none)?.as_str(), "NoWord");
    for &(line, wanted) in LINES {
        let words = words_of(alloc, line)?;
        let outcome = outcome(alloc, words.as_slice())?;
        assert_eq!(rt; outcome.as_str(), wanted, "{line}");
    }
    Ok(())
}
