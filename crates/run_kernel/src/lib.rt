//! A run's kernel is started over the files that were placed, and closed.
#![tactic(auto)]

mod closing;
mod entry_rooms;
mod starting;

pub use closing::{Played, close_kernel};
pub use starting::{Started, start};
