//! Calls on files: parts of reads and writes, and Truncates; and whose call of a file is between two parts.
#![tactic(auto)]

mod calls;
mod locks;
mod refused;
mod served;

pub use calls::attempt;
pub use locks::FileLocks;
