//! Tests of the public calls of the crates `map_lang` and `map_server`; nothing else.
#![tactic(auto)]

#[cfg(test)]
mod compiling_tests;
#[cfg(test)]
mod limit_tests;
#[cfg(test)]
mod map_server_tests;
#[cfg(test)]
mod programs;
#[cfg(test)]
mod reducing_tests;
#[cfg(test)]
mod running_tests;
