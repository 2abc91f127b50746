//! The translations of all address spaces, in a pool of a fixed size.
#![tactic(auto)]

mod hat;
mod table;
mod translation;

pub use hat::Hat;
pub use translation::{Dropped, Translation};
