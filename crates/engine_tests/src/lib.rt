//! Tests of the public calls of the crate `view_engine`; nothing else.
#![tactic(auto)]

#[cfg(test)]
mod queries;
#[cfg(test)]
mod reduce_tests;
#[cfg(test)]
mod replies;
#[cfg(test)]
mod request_tests;
#[cfg(test)]
mod runs;
#[cfg(test)]
mod write_tests;
