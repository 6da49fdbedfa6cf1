//! Tests of the public calls of the crates `command_words`, `load_lines` and `fresh_view`; nothing else.
#![tactic(auto)]

#[cfg(test)]
mod command_words_tests;
#[cfg(test)]
mod fresh_view_tests;
#[cfg(test)]
mod load_lines_tests;
