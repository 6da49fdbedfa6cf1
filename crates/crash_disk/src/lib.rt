//! A folder in memory that really tears: it keeps what each call did, and gives the images that a
//! crash within a call may leave.
#![tactic(auto)]

mod calls;
mod counters;
mod did;
mod digits;
mod held_file;
mod held_files;
mod image;
mod image_at;
mod memory_folder;
mod moments;
mod noted;
mod patch;
mod pending;
mod pending_file;
mod pending_files;
mod pending_lists;
mod torn;

pub use memory_folder::MemoryFolder;
