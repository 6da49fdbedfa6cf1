//! Tests of the public calls of the crates `change_mapper`, `tree_updater` and `tree_groups`; nothing else.
#![tactic(auto)]

#[cfg(test)]
mod batch_tests;
#[cfg(test)]
mod benches;
#[cfg(test)]
mod change_tests;
#[cfg(test)]
mod folder_tests;
#[cfg(test)]
mod group_tests;
#[cfg(test)]
mod scripts;
#[cfg(test)]
mod stop_tests;
#[cfg(test)]
mod update_tests;
