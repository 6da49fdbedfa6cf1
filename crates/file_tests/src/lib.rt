//! Tests of the public calls of the crates `gate_file` and `doc_file`; nothing else.
#![tactic(auto)]

#[cfg(test)]
mod changes_tests;
#[cfg(test)]
mod design_tests;
#[cfg(test)]
mod doc_file_tests;
#[cfg(test)]
mod documents;
#[cfg(test)]
mod gate_file_tests;
#[cfg(test)]
mod incoming_tests;
#[cfg(test)]
mod opening_tests;
#[cfg(test)]
mod write_tests;
