//! A transfer that failed, as its disk counted it.
ghost use Rattle.block_device.specs.Counts.{HasRisen};

use thiserror::Error;

/// A transfer failed: the disk's number, and its count of faults before and after the transfer. The count
/// rose, or stands at 2^64 - 1.
#[derive(Clone, Copy, Debug, PartialEq, Eq, Error)]
#[error("disk {disk} failed: its faults went from {before} to {after}")]
pub struct DiskFault {
    pub disk: u32,
    pub before: u64,
    pub after: u64,
    ghost risen: { HasRisen before after },
}
