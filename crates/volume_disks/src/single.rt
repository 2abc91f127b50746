//! The disk of a rack, as one disk.
use block_device::{Disk, Failed, Pairing};
use std::alloc::Global;

/// A disk of a rack. It counts as one disk, whatever is seen of it else: so of two that are joined it is known that they are two.
#[derive(Drop)]
pub struct Single<D: Disk> {
    pub disk: D,
}

impl<D: Disk> Disk for Single<D> {
    ghost use Rattle.volume_disks.specs.Singles.{single_seen};

    ghost seen = { single_seen D.seen };

    fn blocks(&self) -> u32 {
        self.disk.blocks()
    }

    fn faults(&self) -> u64 {
        self.disk.faults()
    }

    fn calls(&self) -> u64 {
        self.disk.calls()
    }

    fn read(&mut self, block: u32, into: &mut [u8]) -> Result<(), Failed> {
        self.disk.read(block, into)
    }

    fn write(&mut self, block: u32, from: &[u8]) -> Result<(), Failed> {
        self.disk.write(block, from)
    }

    ghost has_blocks = { λ d. D.has_blocks d.disk };
}

impl<D: Disk> Pairing<D> for Single<D> {
    ghost use Rattle.std.specs.Prelude.{◌≡◌, false, None, IfOk, IfErr};
    ghost use Rattle.block_device.specs.Pairs.{CanPair};
    ghost use Rattle.volume_disks.specs.Singles.{StandsAlone};

    ghost pairs = { StandsAlone };

    fn pair(_alloc: Global, a: D, b: Option<D>, mirror: bool) -> Result<Single<D>, (D, Option<D>)>
        requires { CanPair D.seen a b mirror }
        ensures pair { IfOk result (StandsAlone a b mirror) }
        ensures back { IfErr result (λ disks. disks ≡ (a, b)) }
    {
        match b {
            None => Ok(Single { disk: a }),
            Some(b) => Err((a, Some(b))),
        }
    }

    fn alone(a: D) -> Single<D>
        ensures { StandsAlone a None false result }
    {
        Single { disk: a }
    }
}
