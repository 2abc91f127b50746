//! The zero objects of a system, by their numbers.
#![tactic(auto)]

mod zeros;

pub use zeros::ZeroObjects;
