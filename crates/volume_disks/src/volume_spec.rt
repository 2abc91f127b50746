//! Volumes that are wanted.
use block_device::Spec;

/// A volume that is wanted: a disk on which files may lie. It has the number of its first disk.
#[derive(Debug, Drop)]
pub enum VolumeSpec {
    /// The disk of a spec.
    Plain(Spec),
    /// Two disks as one: with each block on both where it is a mirror, and else with the blocks of both in turn.
    Joined {
        first: Spec,
        second: Spec,
        mirror: bool,
    },
}
