//! Tests of the public calls of the crate `query_args`; nothing else.
#![tactic(auto)]

#[cfg(test)]
mod range_tests;
#[cfg(test)]
mod read_tests;
