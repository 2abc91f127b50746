//! The disks of a volume, that of one spec or those of two: they are attached, their sizes are tested, and they are paired.
#![tactic(auto)]

mod attaching;
mod single;
mod sizes;
mod stops;
mod volume_spec;

pub use attaching::{attach_single, attach_volume};
pub use single::Single;
pub use stops::{Unattached, VolumeStop};
pub use volume_spec::VolumeSpec;
