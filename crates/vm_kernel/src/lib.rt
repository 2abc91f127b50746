//! The threads' calls: one state of the system behind one lock, and callers that make calls on it in turns.
#![tactic(auto)]

pub mod births;
mod boxed;
pub mod caller;
mod closing;
mod halves;
mod hits;
pub mod kernel;
mod looks;
mod sent;
pub mod starting;
mod steps;
pub mod turn;
mod visits;
