//! The tables of the disks are written.
ghost use Rattle.std.specs.Prelude.{◌≡◌, ◌<◌, length, Some, IfErr, OnOk};
ghost use Rattle.std.specs.FinMap as finite;
ghost use Rattle.block_device.specs.DiskSeen.{failures_told};
ghost use Rattle.stored_files.specs.Written.{HaveVolumeNames, paired_seen};
ghost use Rattle.stored_files.specs.Closed.{SayTables, SaysItsTable};
ghost use Rattle.stored_files.specs.DiskTables.{MakeTables, IsOneTableStop};
ghost use Rattle.stored_files.specs.Uncut.{counts_of};
ghost use Rattle.stored_files.specs.Written.{infos_made};
ghost use Rattle.stored_files.specs.Written.{LieWell, HaveDisks, HaveExtents, HaveFirstBlocks, KeepsBlocks, WriteTables, IsTableStop};

use crate::disk_tables::table_of;
use block_device::{Disk, DiskFault, write_block};
use std::alloc::Global;
use volume_format::{Files, encode};

/// Why a table wasn't written.
#[derive(Clone, Copy, Debug, PartialEq, Eq)]
pub enum TableStop {
    /// There is no memory left.
    Memory,
    /// The transfer failed.
    Fault(DiskFault),
}

// Writes the table of a disk to its block 0.
fn write_table<D: Disk>(
    alloc: Global,
    files: &Files,
    disk: &mut (u32, D),
    block: &mut [u8],
) -> Result<(), TableStop>
    requires make { MakeTables files.now }
    requires number { finite.get files.now.disks disk.old.0 ≡ Some (D.seen disk.old.1).size }
    requires some { 0 < (D.seen disk.old.1).size }
    requires whole { length block.old ≡ 4096 }
    // The table stands in block 0, and every other block is as it was.
    ensures says { OnOk result
        (SaysItsTable (infos_made files.now) (disk.new.0, D.seen disk.new.1)) }
    ensures number { disk.new.0 ≡ disk.old.0 }
    ensures keeps { KeepsBlocks (D.seen disk.old.1) (D.seen disk.new.1) }
    ensures steady { OnOk result
        (failures_told (D.seen disk.new.1) ≡ failures_told (D.seen disk.old.1)) }
    // Why it doesn't.
    ensures stop { IfErr result
        (IsOneTableStop (disk.old.0, D.seen disk.old.1) (disk.new.0, D.seen disk.new.1)) }
{
    let Ok(table) = table_of(alloc, files, disk.0, disk.1.blocks()) else {
        return Err(TableStop::Memory);
    };
    encode(&table, block);
    match write_block(disk.0, &mut disk.1, 0, block) {
        Ok(()) => Ok(()),
        Err(fault) => Err(TableStop::Fault(fault)),
    }
}

/// Writes to block 0 of each disk, in rising number, the table of its files. It stops at the first transfer that fails.
pub fn write_tables<D: Disk>(
    alloc: Global,
    files: &Files,
    disks: &mut [(u32, D)],
) -> Result<(), TableStop>
    requires lie { LieWell files.now }
    requires names { HaveVolumeNames (infos_made files.now) }
    requires extents { HaveExtents (infos_made files.now) }
    requires disks { HaveDisks files.now (paired_seen D.seen disks.old) }
    requires some { HaveFirstBlocks (paired_seen D.seen disks.old) }
    // Each disk says its table, and every block but block 0 is as it was.
    ensures tables { OnOk result (SayTables (paired_seen D.seen disks.new) (infos_made files.now)) }
    ensures keeps { WriteTables (paired_seen D.seen disks.old) (paired_seen D.seen disks.new) }
    ensures uncounted { OnOk result (counts_of (paired_seen D.seen disks.new)
        ≡ counts_of (paired_seen D.seen disks.old)) }
    // Why a table wasn't written, and up to which disk they were.
    ensures stop { IfErr result (IsTableStop (infos_made files.now)
        (paired_seen D.seen disks.old) (paired_seen D.seen disks.new)) }
{
    let mut block = [0; 4096];
    for place in 0..disks.len() {
        write_table(alloc, files, &mut disks[place], &mut block)?;
    }
    Ok(())
}
