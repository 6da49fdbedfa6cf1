//! map_server: a query server of the language `pick`. It reads protocol lines from standard input and answers each with
//! a line on standard output. Words behind its name have no effect.
#![tactic(auto)]

use map_server::serve_lines;
use real_ports::{Diagnostics, Program, StdSink, StdSource};
use std::process::ExitCode;

/// Why a run ended with this exit status, where nothing else was said of it.
fn reason(status: u8) -> Option<&'static str> {
    match status {
        6 => Some("memory ran out, and the line in hand isn't answered"),
        8 => Some("2^40 bytes were read, which is all that one run reads"),
        _ => None,
    }
}

fn main(rt: HostRuntime) -> ExitCode {
    let diagnostics = Diagnostics::new(rt, Program::MapServer);
    let mut source = StdSource::new(rt.stdin(), diagnostics);
    let mut sink = StdSink::new(rt.stdout(), diagnostics);
    let status = serve_lines(rt.alloc(), &mut source, &mut sink);
    if let Some(reason) = reason(status) {
        diagnostics.say(reason);
    }
    ExitCode::from(status)
}
