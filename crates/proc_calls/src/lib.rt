//! Calls that bear a process, and that end one.
#![tactic(auto)]

mod exits;
mod forks;
mod pieces;

pub use exits::attempt;
pub use forks::fork;
