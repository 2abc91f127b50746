//! Tests of scripts, of every printed text, of tables of files and of words in a page, with values worked out by hand. There is nothing here but tests.
#![tactic(auto)]

#[cfg(test)]
mod chance_tests;
#[cfg(test)]
mod entry_tests;
#[cfg(test)]
mod fault_tests;
#[cfg(test)]
mod generated_tests;
#[cfg(test)]
mod list_tests;
#[cfg(test)]
mod memory_word_tests;
#[cfg(test)]
mod opening_tests;
#[cfg(test)]
mod plan_tests;
#[cfg(test)]
mod report_tests;
#[cfg(test)]
mod volume_tests;
