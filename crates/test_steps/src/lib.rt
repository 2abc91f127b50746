//! Tests of the small steps below the segments, and of files that change: tables of acts on one world, with what is told of each worked out by hand.
//! There is nothing here but tests.
#![tactic(auto)]

#[cfg(test)]
mod file_tests;
#[cfg(test)]
mod page_tests;
#[cfg(test)]
mod slot_tests;
