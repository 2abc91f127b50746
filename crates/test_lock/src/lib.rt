//! Tests of the kernel lock: seats on threads, over a list of numbers and over a state that is generic in a disk. There is nothing here but tests.
#![tactic(auto)]

#[cfg(test)]
mod adders;
#[cfg(test)]
mod store;
#[cfg(test)]
mod tally;
#[cfg(test)]
mod tests;
