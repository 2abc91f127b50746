//! A run up to where its processes can run: its disks are attached, its files placed, and the opening part of a trace written.
#![tactic(auto)]

mod ready;

pub use ready::{Ready, ready_plan};
