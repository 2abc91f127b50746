//! A disk that tells nothing.
ghost use Rattle.std.specs.Prelude.{◌≡◌};

use crate::{Disk, Failed};

/// A disk that doesn't tell its content, whatever the disk in it tells. It serves tests of callers that
/// know nothing of what their disks hold.
#[derive(Drop)]
pub struct Untold<D: Disk> {
    pub disk: D,
}

impl<D: Disk> Disk for Untold<D> {
    ghost use Rattle.std.specs.Prelude.{None};

    ghost seen = { λ d. record (D.seen d.disk) { content = None } };

    fn blocks(&self) -> u32 {
        self.disk.blocks()
    }

    fn faults(&self) -> u64 {
        self.disk.faults()
    }

    fn calls(&self) -> u64 {
        self.disk.calls()
    }

    fn read(&mut self, block: u32, into: &mut [u8]) -> Result<(), Failed> {
        self.disk.read(block, into)
    }

    fn write(&mut self, block: u32, from: &[u8]) -> Result<(), Failed> {
        self.disk.write(block, from)
    }

    ghost has_blocks = { λ d. tt };
}
