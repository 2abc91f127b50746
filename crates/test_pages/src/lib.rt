//! Tests of disks and of pages by name: tables of acts on a store over disks in memory, on a stripe, on a mirror and on paired
//! disks of a rack, which fail at listed calls; and the calls of each kind of disk. There is nothing here but tests.
#![tactic(auto)]

#[cfg(test)]
mod acts;
#[cfg(test)]
mod device_tests;
#[cfg(test)]
mod file_tests;
#[cfg(test)]
mod mirror_tests;
#[cfg(test)]
mod page_tests;
#[cfg(test)]
mod pair_tests;
#[cfg(test)]
mod stripe_tests;
#[cfg(test)]
mod transfer_tests;
#[cfg(test)]
mod trips;
#[cfg(test)]
mod volume_tests;
