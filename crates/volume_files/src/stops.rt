//! Why files weren't opened.
use block_device::{Disk, OpenFault};

/// The set-up rule that is broken.
#[derive(Clone, Copy, Debug, PartialEq, Eq)]
pub enum Refusal {
    /// The rule of this number.
    Rule(u32),
    /// Rule 9: a disk has too few or too many blocks, or its block 0 breaks a rule of volumes.
    Volume { disk: u32, rule: u32 },
}

/// Why the files of a script weren't opened.
#[derive(Debug, Drop)]
pub enum OpenStop {
    /// There is no memory left.
    Memory,
    /// A set-up rule is broken.
    Refused(Refusal),
    /// The rack or a disk failed.
    Failed(OpenFault),
}

/// The disks of files that weren't opened, as they are handed back, and why.
#[derive(Drop)]
pub struct HandedBack<D: Disk> {
    pub why: OpenStop,
    /// The disks that were attached, in rising number.
    pub disks: Vec<D>,
    pub swap: Option<D>,
}
