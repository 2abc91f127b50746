//! How seats wait for each other at the lock and are woken: the protocol as a small machine of specs and proofs. Each function does nothing: its contract is a law.
#![tactic(auto)]

mod laws;

pub use laws::{nobody_sleeps_for_good_law, somebody_slept_law};
