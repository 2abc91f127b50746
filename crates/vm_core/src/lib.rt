//! The events of the virtual memory system on one state: pages by name over frames, disks and translations, for any number of
//! seats, with transfers that are out between two events; and the end, with the history that the state kept.
#![tactic(auto)]

mod begins;
mod calls;
mod clock;
mod cuts;
mod ends;
mod files;
mod finish;
mod forks;
mod hits;
mod kept;
mod ledger;
mod marks;
mod raises;
mod setup;
mod start;
mod state;
mod syncs;

pub use disk_marks::Mark;
pub use fault_entry::{Answer, Attempt, Call, Disk, Entry, Flight, Hold, Plan, Reply};
pub use kept::Kept;
pub use kernel_close::{Finished, KernelHistory};
pub use setup::Setup;
pub use state::VmState;
