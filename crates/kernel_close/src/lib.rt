//! The kernel is closed: modified and blank pages of files go to their disks, which come out with the history.
#![tactic(auto)]

mod blanks;
mod closing;
mod finish;
mod history;

pub use finish::{Finished, finish_world, within_counts};
pub use history::KernelHistory;
