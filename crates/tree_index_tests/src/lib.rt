//! Tests of the public calls of the crate `tree_index`; nothing else.
#![tactic(auto)]

#[cfg(test)]
mod damage_tests;
#[cfg(test)]
mod indexes;
#[cfg(test)]
mod run_tests;
#[cfg(test)]
mod scripts;
#[cfg(test)]
mod stop_tests;
