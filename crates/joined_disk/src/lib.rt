//! A disk that stands for one disk, or for two that are striped or mirrored.
#![tactic(auto)]

mod joined;
mod laws;

pub use joined::JoinedDisk;
pub use laws::joined_blocks_law;
