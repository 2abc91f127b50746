//! Tests of whole runs: several processes on threads, and the files that they read, write and cut. There is nothing here but tests.
#![tactic(auto)]

#[cfg(test)]
mod cut_tests;
#[cfg(test)]
mod file_tests;
#[cfg(test)]
mod gated_rack;
#[cfg(test)]
mod overlap_tests;
#[cfg(test)]
mod tree_tests;
#[cfg(test)]
mod waiting_tests;
