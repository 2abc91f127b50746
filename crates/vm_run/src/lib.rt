//! The call `run`: a script's disks are attached, its files opened, its processes run on the kernel, its files closed, and its report
//! written.
#![tactic(auto)]

mod beginning;
mod ending_files;
mod running;
mod threadless;

pub use run_endings::RunFault;
pub use run_outcome::Outcome;
pub use running::{run, run_on_threads};
pub use threadless::{ReadScript, run_alone};
