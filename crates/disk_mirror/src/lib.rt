//! A disk whose blocks lie on two disks each.
#![tactic(auto)]

mod bits;
mod mirror;

pub use mirror::Mirror;
