//! What is known of the blocks of disks that have pages of files: a mark for each, and of each seat the push that it has out.
#![tactic(auto)]

mod marks;
mod row;
mod table;

pub use marks::{Mark, MarkRow, Pushing};
pub use table::DiskMarks;
