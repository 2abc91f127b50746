//! Disks with their numbers, whose transfers say what was counted where they fail.
ghost use Rattle.std.specs.Prelude.{◌≡◌, ◌<◌, length, IfErr};
ghost use Rattle.block_device.specs.DiskSeen.{Reads, Writes};
ghost use Rattle.block_device.specs.Faults.{IsFaultOf};

use crate::{Disk, DiskFault};

/// Reads a block of the disk of this number.
pub fn read_block<D: Disk>(
    number: u32,
    disk: &mut D,
    block: u32,
    into: &mut [u8],
) -> Result<(), DiskFault>
    requires block { block < (D.seen disk.old).size }
    requires size { length into.old ≡ 4096 }
    ensures reads { Reads (D.seen disk.old) (D.seen disk.new) block into.new result }
    ensures fault { IfErr result (IsFaultOf number (D.seen disk.old) (D.seen disk.new)) }
{
    let before = disk.faults();
    match disk.read(block, into) {
        Ok(()) => Ok(()),
        Err(_) => Err(DiskFault {
            disk: number,
            before,
            after: disk.faults(),
        }),
    }
}

/// Writes a block of the disk of this number.
pub fn write_block<D: Disk>(
    number: u32,
    disk: &mut D,
    block: u32,
    from: &[u8],
) -> Result<(), DiskFault>
    requires block { block < (D.seen disk.old).size }
    requires size { length from.now ≡ 4096 }
    ensures writes { Writes (D.seen disk.old) (D.seen disk.new) block from.now result }
    ensures fault { IfErr result (IsFaultOf number (D.seen disk.old) (D.seen disk.new)) }
{
    let before = disk.faults();
    match disk.write(block, from) {
        Ok(()) => Ok(()),
        Err(_) => Err(DiskFault {
            disk: number,
            before,
            after: disk.faults(),
        }),
    }
}

/// A disk with its number.
#[derive(Drop)]
pub struct NumberedDisk<D: Disk> {
    pub number: u32,
    pub disk: D,
}

impl<D: Disk> NumberedDisk<D> {
    /// Reads a block, as the disk does.
    pub fn read(&mut self, block: u32, into: &mut [u8]) -> Result<(), DiskFault>
        requires block { block < (D.seen self.old.disk).size }
        requires size { length into.old ≡ 4096 }
        ensures reads { Reads (D.seen self.old.disk) (D.seen self.new.disk) block into.new result }
        ensures fault { IfErr result
            (IsFaultOf self.old.number (D.seen self.old.disk) (D.seen self.new.disk)) }
        // What stays.
        ensures number { self.new.number ≡ self.old.number }
    {
        read_block(self.number, &mut self.disk, block, into)
    }

    /// Writes a block, as the disk does.
    pub fn write(&mut self, block: u32, from: &[u8]) -> Result<(), DiskFault>
        requires block { block < (D.seen self.old.disk).size }
        requires size { length from.now ≡ 4096 }
        ensures writes { Writes
            (D.seen self.old.disk) (D.seen self.new.disk) block from.now result }
        ensures fault { IfErr result
            (IsFaultOf self.old.number (D.seen self.old.disk) (D.seen self.new.disk)) }
        // What stays.
        ensures number { self.new.number ≡ self.old.number }
    {
        write_block(self.number, &mut self.disk, block, from)
    }
}
