//! The blocks of a plan, run on threads: each makes its lines by the kernel's calls, and each fork is a join.
#![tactic(auto)]

mod blocks;
mod calls;
mod laws;
mod lines;
mod parts;
mod tops;

pub use blocks::{Stretch, run_block};
pub use calls::Calls;
pub use laws::{closed_law, closing_law};
pub use parts::{bytes_in, cut_write};
pub use tops::{run_all, run_tops};
