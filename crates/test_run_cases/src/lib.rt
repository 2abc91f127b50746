//! Tests of whole runs: given words, scripts and traces, and what each prints. There is nothing here but tests.
#![tactic(auto)]

#[cfg(test)]
mod alone_tests;
#[cfg(test)]
mod case_tests;
#[cfg(test)]
mod mapping_tests;
#[cfg(test)]
mod word_tests;
