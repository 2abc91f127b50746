//! The lines of a plan are made: those of one block in the thread that calls, or those of all blocks on threads.
#![tactic(auto)]

mod lines;
mod making;
mod playing;

pub use playing::{play_alone, play_blocks};
