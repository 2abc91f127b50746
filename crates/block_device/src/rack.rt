//! Racks, which attach disks.
ghost use Rattle.std.specs.Prelude.{◌≡◌};
ghost use Rattle.block_device.specs.RackSeen.{RackSeen, Attaches, spec_number};

use crate::{Disk, PathText};
use thiserror::Error;

/// A disk that is wanted, with its number.
#[derive(Debug, Drop)]
pub enum Spec {
    /// A disk of so many blocks, all zeros.
    Blank { number: u32, blocks: u32 },
    /// The disk that is kept under a path.
    Path { number: u32, path: PathText },
}

impl Spec {
    /// The number of the disk.
    pub fn number(&self) -> u32
        ensures { result ≡ spec_number self.now }
    {
        match self {
            Spec::Blank { number, .. } => *number,
            Spec::Path { number, .. } => *number,
        }
    }
}

/// Why no disk was attached.
#[derive(Clone, Copy, Debug, PartialEq, Eq, Drop, Error)]
pub enum RackFault {
    /// The rack did not attach it, and has counted a fault.
    #[error("the rack failed")]
    Failed,
    /// There is no memory left.
    #[error("out of memory")]
    Memory,
}

/// What attaches disks. A rack need not tell what its disks hold.
pub trait Rack {
    ghost use Rattle.block_device.specs.RackSeen.{RackSeen, Attaches};

    type D: Disk + Send;

    ghost seen: { Self → RackSeen };

    /// How often attaching has failed. The count never falls, and stays at 2^64 - 1.
    fn faults(&self) -> u64
        ensures { result ≡ (seen self.now).faults };

    /// Attaches the disk of a spec, and counts it. Where memory lacks, the rack is as it was.
    fn attach(&mut self, spec: &Spec) -> Result<Self::D, RackFault>
        ensures { Attaches (seen self.old) (seen self.new) spec.now Self.D.seen result };
}
