//! Tests of whole runs: scripts made by chance, beside flat memory. There is nothing here but tests.
#![tactic(auto)]

#[cfg(test)]
mod forest_tests;
#[cfg(test)]
mod random_tests;
#[cfg(test)]
mod turn_tests;
