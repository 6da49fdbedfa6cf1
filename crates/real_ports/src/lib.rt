//! The ports over the real outside: the streams of the process, and query servers, of which some are child processes
//! and some are built in. The folder of files is the one in which the program was started. What fails is explained on
//! standard error.
#![tactic(auto)]

mod child_fault;
mod child_lines;
mod child_name;
mod diagnostics;
mod file_fault;
mod file_names;
mod file_start;
mod folder_files;
mod folder_lock;
mod known_file;
mod open_file;
mod piped_child;
mod put;
mod real_folder;
mod real_servers;
mod remark;
mod streams;
mod switch;

pub use diagnostics::{Diagnostics, Program, Shown};
pub use file_names::{FILE_TEXT_LIMIT, file_text, is_file_name, read_file_name};
pub use real_folder::RealFolder;
pub use real_servers::RealServers;
pub use streams::{StdSink, StdSource};
pub use switch::{BuiltInPath, Switch};
