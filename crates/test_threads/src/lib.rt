//! Tests of the threads' calls: callers on one thread, turn by turn, and on two, over disks that wait. There is nothing here but tests, and the callers that they work with.
#![tactic(auto)]

#[cfg(test)]
mod acts;
#[cfg(test)]
mod file_setups;
#[cfg(test)]
mod file_tests;
#[cfg(test)]
mod gated_disk;
#[cfg(test)]
mod overlaps;
#[cfg(test)]
mod setups;
#[cfg(test)]
mod swap_tests;
#[cfg(test)]
mod thread_tests;
#[cfg(test)]
mod trial;
pub mod worker;
