//! A disk whose blocks lie on two disks in turn.
#![tactic(auto)]

mod stripe;

pub use block_device::{Disk, Failed, Pairing};
pub use stripe::Stripe;
