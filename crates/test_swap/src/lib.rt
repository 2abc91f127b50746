//! Tests of the core's events on states that have swap slots and no file: tables of acts, and acts by chance, with what is told of each worked out by hand. There is
//! nothing here but tests.
#![tactic(auto)]

#[cfg(test)]
mod chance_tests;
#[cfg(test)]
mod copy_tests;
#[cfg(test)]
mod fork_tests;
#[cfg(test)]
mod histories;
#[cfg(test)]
mod many_tests;
#[cfg(test)]
mod swap_tests;
#[cfg(test)]
mod zero_object_tests;
