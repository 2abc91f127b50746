//! Tests of the core's events on states that have files: tables of acts on one state, with what is told of each worked out by hand. There is nothing here but tests.
#![tactic(auto)]

#[cfg(test)]
mod file_tests;
#[cfg(test)]
mod lane_tests;
#[cfg(test)]
mod lanes;
#[cfg(test)]
mod mapping_tests;
#[cfg(test)]
mod mark_tests;
#[cfg(test)]
mod moving_tests;
#[cfg(test)]
mod segment_tests;
#[cfg(test)]
mod tests;
