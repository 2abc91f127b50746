//! Tests of whole runs: outsides that fail, faults of scripts, volumes and set-up, and what the disks hold then. There is nothing here but tests.
#![tactic(auto)]

#[cfg(test)]
mod beside_tests;
#[cfg(test)]
mod fault_tests;
#[cfg(test)]
mod given_tests;
#[cfg(test)]
mod kept_tests;
#[cfg(test)]
mod stream_tests;
