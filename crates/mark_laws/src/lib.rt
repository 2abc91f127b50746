//! What marks say of the disks' blocks, and that transfers, raises and entries keep it. Each function does nothing: its contract is the law.
#![tactic(auto)]

mod laws;

pub use disk_marks::{DiskMarks, Mark, MarkRow, Pushing};
pub use laws::{
    accounts_law, cuts_law, entries_law, failures_law, files_stay_law, marks_law, raises_law,
};
