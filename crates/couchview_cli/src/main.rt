//! couchview: CouchDB views over documents that request lines write.
#![tactic(auto)]

mod advice;
mod built_in;
mod closing;
mod command;
mod laws;
mod load;
mod replies;
mod serve;
mod session;
#[cfg(test)]
mod tests;
mod wrong_word;

use advice::advice;
use built_in::Mixed;
pub use command::couchview;
use command_words::{WordsFault, read_command};
use json_terms::NoMemory;
pub use laws::runs_go_on;
use real_ports::{Diagnostics, Program, RealFolder, RealServers, Shown, StdSink, StdSource};
use std::alloc::AllocError;
use std::env;
use std::io::ErrorKind;
use std::process::ExitCode;
use view_ports::RunEnd;
use wrong_word::wrong_word;

/// The words after the program's name. None are given where one of them isn't UTF-8, since then
/// they are no command. Where they are none it is said why.
fn words(rt: HostRuntime, diagnostics: Diagnostics) -> Result<Vec<String>, AllocError> {
    match env::args(&rt) {
        Ok(all) => {
            let words: Vec<String> = all.skip(1).collect(rt.alloc())?;
            say_wrong(rt, diagnostics, &words);
            Ok(words)
        }
        Err(error) if error.kind() == ErrorKind::OutOfMemory => Err(AllocError),
        Err(_) => {
            diagnostics.say("a word is not UTF-8");
            Ok(Vec::new(rt.alloc()))
        }
    }
}

/// Says why nothing is done, where the words name no command that is.
fn say_wrong(rt: HostRuntime, diagnostics: Diagnostics, words: &[String]) {
    match read_command(rt.alloc(), words) {
        Ok(command) => {
            if let Some(wrong) = wrong_word(&command) {
                diagnostics.say(wrong);
            }
        }
        Err(WordsFault::NoMemory) => {}
        Err(fault) => say_fault(diagnostics, words, fault),
    }
}

/// Says which rule the words break.
fn say_fault(diagnostics: Diagnostics, words: &[String], fault: WordsFault) {
    match (fault, words.first()) {
        (WordsFault::UnknownCommand, Some(word)) => {
            let word = Shown(word.as_str());
            diagnostics.say(format_args!("the word '{word}' is no command: {fault}"));
        }
        _ => diagnostics.say(fault),
    }
}

/// Does the command that the words name over the streams of the process and the folder in which it was started, and answers
/// its exit status.
fn run(rt: HostRuntime, diagnostics: Diagnostics, words: &[String]) -> Result<u8, NoMemory> {
    let mut source = StdSource::new(rt.stdin(), diagnostics);
    let mut sink = StdSink::new(rt.stdout(), diagnostics);
    let mut folder = RealFolder::new(rt, diagnostics);
    let mut servers = Mixed::new(rt.alloc(), RealServers::new(rt, diagnostics)?)?;
    Ok(couchview(
        rt.alloc(),
        words,
        &mut source,
        &mut sink,
        &mut folder,
        &mut servers,
    ))
}

/// Whether the first word is that of the command `load`.
fn is_load(words: &[String]) -> bool {
    match words.first() {
        Some(word) => word.as_str() == "load",
        None => false,
    }
}

fn main(rt: HostRuntime) -> ExitCode {
    let diagnostics = Diagnostics::new(rt, Program::Couchview);
    let (status, loads) = match words(rt, diagnostics) {
        Ok(words) => (run(rt, diagnostics, &words), is_load(&words)),
        Err(AllocError) => (Err(NoMemory), false),
    };
    let status = status.unwrap_or(RunEnd::OutOfMemory.status());
    if let Some(advice) = advice(status, loads) {
        diagnostics.say(advice);
    }
    ExitCode::from(status)
}
