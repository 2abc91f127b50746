//! Why a volume wasn't attached.
use block_device::{Disk, OpenFault, Unopened};

/// Why a volume wasn't attached.
#[derive(Debug, PartialEq, Eq, Drop)]
pub enum VolumeStop {
    /// There is no memory left.
    Memory,
    /// The rack failed.
    Failed(OpenFault),
    /// The disk of this number has fewer than 2 or more than 16,384 blocks.
    Size { disk: u32 },
    /// The one disk has more blocks than the other.
    Unequal,
}

/// The disks of a volume that wasn't attached, as they are handed back, and why.
#[derive(Drop)]
pub struct Unattached<D: Disk> {
    pub why: VolumeStop,
    /// The first disk, where it was attached.
    pub first: Option<Unopened<D>>,
    /// The second disk, where it was.
    pub second: Option<Unopened<D>>,
}
