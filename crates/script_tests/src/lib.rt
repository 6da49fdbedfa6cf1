//! Random scripts of request lines over the whole engine, beside short models of it, with stops within the calls on the folder, and
//! with damaged nodes; nothing else.
#![tactic(auto)]

#[cfg(test)]
mod cleanup_tests;
#[cfg(test)]
mod damage_tests;
#[cfg(test)]
mod left;
#[cfg(test)]
mod maps;
#[cfg(test)]
mod model;
#[cfg(test)]
mod reduced;
#[cfg(test)]
mod reduced_tests;
#[cfg(test)]
mod requests;
#[cfg(test)]
mod sales;
#[cfg(test)]
mod script_tests;
#[cfg(test)]
mod scripts;
#[cfg(test)]
mod stage;
