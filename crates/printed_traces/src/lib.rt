//! What a run prints of a trace is a text that stands for its flat memory and its history.
#![tactic(auto)]

mod counts;
mod printed_laws;

pub use counts::counts_law;
pub use printed_laws::printed_trace_law;
