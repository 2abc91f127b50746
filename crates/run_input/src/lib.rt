//! What a run is asked: its words, and the script or the trace that they name, are read.
#![tactic(auto)]

mod checking;
mod informing;
mod reading;

pub use checking::tell_answer;
pub use informing::tell_inquiry;
pub use reading::{Request, ask, needs_no_thread};
