//! Tests of the public calls of the crates `view_ports` (sources and sinks), `crash_disk`, `child_pool` and `real_ports`;
//! nothing else.
#![tactic(auto)]

#[cfg(test)]
mod child_pool_tests;
#[cfg(test)]
mod crash_disk_tests;
#[cfg(test)]
mod folders;
#[cfg(test)]
mod real_folder_tests;
#[cfg(test)]
mod real_servers_tests;
#[cfg(test)]
mod reduce_tests;
#[cfg(test)]
mod view_ports_tests;
