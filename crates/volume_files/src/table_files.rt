//! The files of the disks' tables.
ghost use Rattle.std.specs.Prelude.{◌≡◌, ◌<◌, ◌+◌, ◌++◌, [], All, IfOk, IfErr, OnOk, IsSome, length, map};
ghost use Rattle.std.specs.FinMap as finite;
ghost use Rattle.volume_files.specs.Opened.{mounted_infos};
ghost use Rattle.stored_files.specs.Closed.{info_on};
ghost use Rattle.volume_files.specs.Placing.{AreSet, HaveAddable, IsAddable, IsTooMany, attached_numbers, sizes_by_number, with_infos};

use block_device::{Disk, OpenFault, Unopened};
use std::alloc::{AllocError, AllocFailed, Global};
use volume_format::{Extents, FileInfo, FileName, Files, Table};

/// Why files weren't placed.
#[derive(Debug, Drop)]
pub(crate) enum PlaceStop {
    /// There is no memory left.
    Memory,
    /// The set-up rule of this number is broken.
    Rule(u32),
    /// A transfer of a disk failed.
    Fault(OpenFault),
}

impl From<AllocError> for PlaceStop {
    ghost use Rattle.std.specs.Prelude.{◌≡◌};
    ghost use Rattle.volume_files.specs.declared.table_files.PlaceStop.TheVariants.{Memory};

    ghost from_gives = { λ _ stop. stop ≡ Memory };

    fn from(_: AllocError) -> PlaceStop {
        PlaceStop::Memory
    }
}

impl From<OpenFault> for PlaceStop {
    ghost use Rattle.std.specs.Prelude.{◌≡◌};
    ghost use Rattle.volume_files.specs.declared.table_files.PlaceStop.TheVariants as stops;

    ghost from_gives = { λ fault stop. stop ≡ stops.Fault fault };

    fn from(fault: OpenFault) -> PlaceStop {
        PlaceStop::Fault(fault)
    }
}

// A file's record, on the disk of a number.
fn record_on(alloc: Global, entry: &FileInfo, disk: u32) -> Result<FileInfo, AllocError>
    ensures { IfOk result (λ info. info ≡ info_on disk entry.now) }
{
    Ok(FileInfo {
        name: FileName::new(entry.name.bytes()),
        disk,
        extents: Extents::new(alloc, entry.extents.list())?,
        length: entry.length,
        writable: entry.writable,
    })
}

// Adds the files of a table, on the disk of a number.
fn add_table(alloc: Global, disk: u32, table: &Table, files: &mut Files) -> Result<(), PlaceStop>
    requires set { IsSome (finite.get files.old.disks disk) }
    requires addable { All IsAddable table.now.entries }
    ensures ok { OnOk result
        (files.new ≡ with_infos files.old (map (info_on disk) table.now.entries)) }
    ensures stop { IfErr result
        (IsTooMany (length files.old.files + length table.now.entries)) }
{
    for entry in table.entries() {
        if files.count() >= 64 {
            return Err(PlaceStop::Rule(10));
        }
        let info = record_on(alloc, entry, disk)?;
        files.add(info)?;
    }
    Ok(())
}

// Adds the files of tables, disk by disk.
fn add_tables<D: Disk>(
    alloc: Global,
    disks: &[Unopened<D>],
    tables: &[Table],
    files: &mut Files,
) -> Result<(), PlaceStop>
    requires count { length tables.now ≡ length disks.now }
    requires set { AreSet files.old.disks (attached_numbers disks.now) }
    requires addable { HaveAddable tables.now }
    ensures ok { OnOk result (files.new
        ≡ with_infos files.old (mounted_infos (attached_numbers disks.now) tables.now)) }
    ensures stop { IfErr result (IsTooMany (length files.old.files
        + length (mounted_infos (attached_numbers disks.now) tables.now))) }
{
    for i in 0..disks.len() {
        add_table(alloc, disks[i].number(), &tables[i], files)?;
    }
    Ok(())
}

// Files without a file, with these disks.
fn files_on<D: Disk>(alloc: Global, disks: &[Unopened<D>]) -> Result<Files, AllocError>
    ensures { IfOk result (λ files. files ≡ record {
      disks = finite.from_entries (sizes_by_number D.seen disks.now);
      files = [];
    }) }
{
    let mut files = Files::new(alloc);
    let mut i = disks.len();
    while i > 0 {
        i -= 1;
        files.set_disk(disks[i].number(), disks[i].blocks())?;
    }
    Ok(files)
}

/// The files of tables, disk by disk, each on its disk.
///
/// An error is want of memory, or rule 10 where there are more than 64 files.
pub(crate) fn mount<D: Disk>(
    alloc: Global,
    disks: &[Unopened<D>],
    tables: &[Table],
) -> Result<Files, PlaceStop>
    requires count { length tables.now ≡ length disks.now }
    requires addable { HaveAddable tables.now }
    ensures ok { IfOk result (λ files. files ≡ with_infos
        (record { disks = finite.from_entries (sizes_by_number D.seen disks.now); files = [] })
        (mounted_infos (attached_numbers disks.now) tables.now)) }
    ensures stop { IfErr result
        (IsTooMany (length (mounted_infos (attached_numbers disks.now) tables.now))) }
{
    let mut files = files_on(alloc, disks)?;
    add_tables(alloc, disks, tables, &mut files)?;
    Ok(files)
}
