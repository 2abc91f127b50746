//! Faults that a disk meets before the machine runs.
ghost use Rattle.std.specs.Prelude.{◌≡◌, Some, None};
ghost use Rattle.block_device.specs.OpenSeen.{HasRisenCounts};

use crate::DiskFault;
use std::marker::Model;
use thiserror::Error;

/// A transfer of an unopened disk failed, or its rack did. Only `Unopened` makes one.
#[derive(Debug, PartialEq, Eq, Drop, Error)]
#[error("disk {disk} failed before it was opened")]
pub struct OpenFault {
    disk: u32,
    counts: Option<(u64, u64)>,
}

impl Model for OpenFault {
    ghost use Rattle.block_device.specs.OpenSeen.{OpenFaultSeen, HasRisenCounts};

    ghost Value = { OpenFaultSeen };

    ghost view = { λ fault. record { disk = fault.disk; counts = fault.counts } };

    ghost invariant = { λ fault. HasRisenCounts fault.counts };

    ghost inverse = { λ fault. record { disk = fault.disk; counts = fault.counts } };
}

impl OpenFault {
    // The rack failed to attach the disk.
    pub(crate) fn of_rack(disk: u32) -> OpenFault
        ensures { result ≡ record { disk = disk; counts = None } }
    {
        OpenFault { disk, counts: None }
    }

    // A transfer of the disk failed.
    pub(crate) fn of_disk(fault: DiskFault) -> OpenFault
        ensures { result ≡ record { disk = fault.disk; counts = Some (fault.before, fault.after) } }
    {
        OpenFault {
            disk: fault.disk,
            counts: Some((fault.before, fault.after)),
        }
    }

    /// The number of the disk.
    pub fn disk(&self) -> u32
        ensures { result ≡ self.now.disk }
    {
        self.disk
    }

    /// The disk's count of faults before and after the transfer that failed, or None where the rack
    /// failed.
    pub fn counts(&self) -> Option<(u64, u64)>
        ensures counts { result ≡ self.now.counts }
        ensures risen { HasRisenCounts result }
    {
        self.counts
    }
}
