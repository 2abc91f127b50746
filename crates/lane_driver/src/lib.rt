//! Lanes: processes that make their calls by a given order of turns, on one state of the core, in one thread.
#![tactic(auto)]

mod calls;
mod driving;
mod lane;
pub mod laws;
mod turn;

pub use calls::are_lane_calls;
pub use driving::drive;
pub use lane::Lane;
