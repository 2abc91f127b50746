//! One state, one history, and the seats that change it in turn.
#![tactic(auto)]

mod bell;
mod board;
pub mod closing;
pub mod guarded;
pub mod lock;
mod plays;
pub mod seat;
mod starting;
