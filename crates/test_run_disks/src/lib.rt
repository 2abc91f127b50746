//! Tests of whole runs: disks that are mounted, joined or fail. There is nothing here but tests.
#![tactic(auto)]

#[cfg(test)]
mod block_tests;
#[cfg(test)]
mod disk_tests;
#[cfg(test)]
mod file_rack;
#[cfg(test)]
mod joined_tests;
#[cfg(test)]
mod member_tests;
#[cfg(test)]
mod path_tests;
