//! The ports through which a program meets the outside, in-memory ports for tests, and what a run
//! over them is: which lines were read, what was written for each, and how the run ended.
#![tactic(auto)]

mod answers;
mod command;
mod field_session;
mod file_name;
mod folder;
mod in_process;
mod limits;
mod lines;
mod memory_sink;
mod memory_source;
mod piece;
mod ports;
mod reduce_rows;
mod run_end;
mod script_servers;
mod server_session;
mod servers;
mod servers_fault;
mod stretch;
mod write_text;

pub use answers::{answer_text, bad_line_text, compilation_error_text, true_text};
pub use command::{Command, read_command};
pub use field_session::{FieldServers, FieldSession};
pub use file_name::{FileName, Stem};
pub use folder::{Folder, FolderFault};
pub use in_process::InProcess;
pub use limits::{LINE_LIMIT, PART_DEPTH, PART_LIMIT, PIECE};
pub use lines::{cut_in_one_way, cut_line, keep_bytes};
pub use memory_sink::MemorySink;
pub use memory_source::MemorySource;
pub use piece::new_piece;
pub use ports::{PortFault, Sink, Source};
pub use reduce_rows::ReduceRows;
pub use run_end::{INPUT_LIMIT, RunEnd};
pub use script_servers::{Answer, ScriptServers};
pub use server_session::ServerSession;
pub use servers::{SLOT_COUNT, Servers};
pub use servers_fault::ServersFault;
pub use stretch::stretch_is_since_its_start;
pub use write_text::write_all;
