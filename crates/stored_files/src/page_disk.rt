//! Disks from which pages are read, before and after the processes run.
ghost use Rattle.std.specs.Prelude.{◌≡◌, ◌<◌, length, IfErr, OnOk};

use block_device::{Disk, DiskFault, OpenFault, Unopened, read_block};

/// A disk with its number. A transfer that fails tells the disk's number and its counts of faults before and after.
pub trait PageDisk {
    ghost use Rattle.std.specs.Prelude.{ℕ, ◌≡◌, ◌<◌, length, IsTrue, IfErr, OnOk};
    ghost use Rattle.block_device.specs.DiskSeen.{DiskSeen, HasBlocks, Reads, failures_told};
    ghost use Rattle.stored_files.specs.Written.{IsReadFault, FaultCounts};

    type Fault: Drop;

    ghost numbered: { Self → ℕ × DiskSeen };

    ghost counts: { Self.Fault → FaultCounts };

    /// The number of the disk.
    fn number(&self) -> u32
        ensures { result ≡ (numbered self.now).0 };

    /// Reads a block.
    fn read(&mut self, block: u32, into: &mut [u8]) -> Result<(), Self::Fault>
        requires block { block < (numbered self.old).1.size }
        requires size { length into.old ≡ 4096 }
        // What is read, and what a fault counts.
        ensures reads { Reads (numbered self.old).1 (numbered self.new).1 block into.new result }
        ensures number { (numbered self.new).0 ≡ (numbered self.old).0 }
        ensures failures { OnOk result
            (failures_told (numbered self.new).1 ≡ failures_told (numbered self.old).1) }
        ensures fault { IfErr result (IsReadFault counts (numbered self.old) (numbered self.new)) };

    ghost has_blocks: { (disk : Self) → HasBlocks (numbered disk).1.content (numbered disk).1.size };
}

impl<D: Disk> PageDisk for Unopened<D> {
    ghost use Rattle.stored_files.specs.Written.{numbered_seen};
    ghost use Rattle.stored_files.specs.Written.{open_fault_counts};

    type Fault = OpenFault;

    ghost numbered = { numbered_seen D.seen };

    ghost counts = { open_fault_counts };

    fn number(&self) -> u32 {
        Unopened::number(self)
    }

    fn read(&mut self, block: u32, into: &mut [u8]) -> Result<(), OpenFault> {
        Unopened::read(self, block, into)
    }

    ghost has_blocks = { λ d. D.has_blocks d.disk };
}

impl<D: Disk> PageDisk for (u32, D) {
    ghost use Rattle.stored_files.specs.Written.{disk_fault_counts};

    type Fault = DiskFault;

    ghost numbered = { λ d. (d.0, D.seen d.1) };

    ghost counts = { disk_fault_counts };

    fn number(&self) -> u32 {
        self.0
    }

    fn read(&mut self, block: u32, into: &mut [u8]) -> Result<(), DiskFault> {
        read_block(self.0, &mut self.1, block, into)
    }

    ghost has_blocks = { λ d. D.has_blocks d.1 };
}
