//! Tests of the public calls of the crates `reduce_tree`, `tree_query`, `node_file` and `index_trees`; nothing else.
#![tactic(auto)]

#[cfg(test)]
mod batch_tests;
#[cfg(test)]
mod case;
#[cfg(test)]
mod edit_tests;
#[cfg(test)]
mod exchange_file_tests;
#[cfg(test)]
mod exchange_tests;
#[cfg(test)]
mod file_tests;
#[cfg(test)]
mod indexes;
#[cfg(test)]
mod items;
#[cfg(test)]
mod noting_tests;
#[cfg(test)]
mod pack_tests;
#[cfg(test)]
mod pairs;
#[cfg(test)]
mod query_tests;
