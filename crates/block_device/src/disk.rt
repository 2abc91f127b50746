//! Disks of blocks of 4096 bytes.
ghost use Rattle.std.specs.Prelude.{◌≡◌, ◌<◌, length};
ghost use Rattle.block_device.specs.DiskSeen.{DiskSeen, HasBlocks, Reads, Writes};

use thiserror::Error;

/// The device did not do what was asked, and has counted a fault.
#[derive(Clone, Copy, Debug, PartialEq, Eq, Drop, Error)]
#[error("the device failed")]
pub struct Failed;

/// A block device. A block has 4096 bytes, and blocks are numbered from 0.
///
/// A disk need not tell its content: clauses on content hold where it is told. Whether it is told is
/// the same before and after each call.
pub trait Disk: Drop {
    ghost seen: { Self → DiskSeen };

    /// How many blocks the disk has. The number never changes.
    fn blocks(&self) -> u32
        ensures { result ≡ (seen self.now).size };

    /// How often a transfer has failed. The count never falls, and stays at 2^64 - 1.
    fn faults(&self) -> u64
        ensures { result ≡ (seen self.now).faults };

    /// How often a transfer was asked for. The count rises with each, and stays at 2^64 - 1.
    fn calls(&self) -> u64
        ensures { result ≡ (seen self.now).calls };

    /// Reads a block. After `Failed` what `into` holds is arbitrary, and the disk holds what it held.
    fn read(&mut self, block: u32, into: &mut [u8]) -> Result<(), Failed>
        requires block { block < (seen self.old).size }
        requires size { length into.old ≡ 4096 }
        // It gives the block where the disk tells, changes none, and fails only with a fault counted.
        ensures { Reads (seen self.old) (seen self.new) block into.new result };

    /// Writes a block. After `Failed` what that block holds is arbitrary.
    fn write(&mut self, block: u32, from: &[u8]) -> Result<(), Failed>
        requires block { block < (seen self.old).size }
        requires size { length from.now ≡ 4096 }
        // It changes that block alone, and fails only with a fault counted.
        ensures { Writes (seen self.old) (seen self.new) block from.now result };

    ghost has_blocks: { (disk : Self) → HasBlocks (seen disk).content (seen disk).size };
}
