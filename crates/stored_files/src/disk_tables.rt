//! The table of a disk, made of its files.
ghost use Rattle.std.specs.Prelude.{◌≡◌, ◌<◌, ◌+◌, ◌^◌, length, Some, IfOk, OnOk};
ghost use Rattle.std.specs.FinMap as finite;
ghost use Rattle.volume_format.specs.Volume.{IsVolumeTable};
ghost use Rattle.stored_files.specs.Closed.{table_of_disk};
ghost use Rattle.stored_files.specs.DiskTables.{MakeTables, TableSoFar};
ghost use Rattle.stored_files.specs.Closed.{info_on};
ghost use Rattle.stored_files.specs.Written.{infos_made};

use std::alloc::{AllocError, Global};
use volume_format::{Extents, FileInfo, Files, Table};

// A file's length, in bytes: a number of 32 bits.
fn length_of(info: &FileInfo) -> u32
    ensures { result ≡ info.now.length }
{
    info.length
}

// A file's record as a table has it.
fn table_entry(alloc: Global, info: &FileInfo) -> Result<FileInfo, AllocError>
    ensures copy { IfOk result (λ entry. entry ≡ info_on 0 info.now) }
    ensures number { IfOk result (λ entry. entry.length < 2 ^ 32) }
{
    let extents = Extents::new(alloc, info.extents.list())?;
    let length = length_of(info);
    Ok(FileInfo {
        name: info.name,
        disk: 0,
        extents,
        length,
        writable: info.writable,
    })
}

// Adds a file to the table of a disk, if it lies there.
fn add_file(
    alloc: Global,
    files: &Files,
    file: u32,
    disk: u32,
    table: &mut Table,
) -> Result<(), AllocError>
    requires make { MakeTables files.now }
    requires there { file < length files.now.files }
    requires so_far { TableSoFar files.now disk file table.old }
    ensures { OnOk result (TableSoFar files.now disk (file + 1) table.new) }
{
    let info = files.info(file);
    if info.disk != disk {
        return Ok(());
    }
    let entry = table_entry(alloc, info)?;
    table.add(entry)?;
    Ok(())
}

// The table of a disk of so many blocks.
pub(crate) fn table_of(
    alloc: Global,
    files: &Files,
    disk: u32,
    blocks: u32,
) -> Result<Table, AllocError>
    requires make { MakeTables files.now }
    requires number { finite.get files.now.disks disk ≡ Some blocks }
    ensures table { IfOk result (λ t. t ≡ table_of_disk disk blocks (infos_made files.now)) }
    ensures volume { IfOk result IsVolumeTable }
{
    let mut table = Table::new(alloc, blocks);
    for file in 0..files.count() {
        add_file(alloc, files, file, disk, &mut table)?;
    }
    Ok(table)
}
