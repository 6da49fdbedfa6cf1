//! The words of the command line, read as a command.
//!
//! `specs/Commands.antt` says which words name which command: `serve [--width N] [WORD]...` or `load DOCS NUMBER`. Behind
//! the first `--` there is no option. `clap` tells options from other words; only options with a single dash are looked for
//! before, since it would take `-` alone for a plain word.
#![tactic(auto)]

mod command;
mod fault;
mod laws;
mod number;
mod options;
mod read;

pub use command::{Command, DOCS_LIMIT, NUMBER_LIMIT, WIDTH_LIMIT};
pub use fault::WordsFault;
pub use laws::words_name_one_command;
pub use read::read_command;
