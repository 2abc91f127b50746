//! The pages of the files of a script's lines are written.
ghost use Rattle.std.specs.Prelude.{◌≡◌, ◌≤◌, ◌<◌, ◌+◌, ◌-◌, ◌^◌, length, option_map, map, IfErr, OnOk, slice_index_or, [], All};
ghost use Rattle.block_device.specs.DiskSeen.{failures_told};
ghost use Rattle.vm_report.specs.flat_model.Words.{pages_in};
ghost use Rattle.volume_format.specs.vnode_files.Files.{vnode_at};
ghost use Rattle.volume_format.specs.Table.{front_block};
ghost use Rattle.stored_files.specs.Written.{numbered_seen};
ghost use Rattle.volume_files.specs.Handed.{LiesBeside, SpareBlock, SparesBlock};
ghost use Rattle.volume_files.specs.Placing.{KeepThere, KeepsThere, HasPlaceOn, HasPlaces, HavePlaces, IsFaultOne, IsFaultThere, RemainThere, RemainsThere, WroteEach, WroteOne, bytes_given, filled_pages, line_files, with_block_pages, with_file};
ghost use Rattle.stored_files.specs.Uncut.{counts_of};

use block_device::{Disk, OpenFault, Unopened};
use vm_report::{SetupAct, SetupLine};
use volume_format::{FileInfo, Files};

// A page of bytes, with zeros behind them.
fn page_of(bytes: &[u8], page: usize) -> [u8; 4096]
    requires { page < pages_in (length bytes.now) }
    ensures { result ≡ slice_index_or (filled_pages bytes.now) page [] }
{
    let from = page * 4096;
    let end = bytes.len().min(from + 4096);
    let mut block = [0; 4096];
    block[..end - from].copy_from_slice(&bytes[from..end]);
    block
}

// Writes the pages that bytes fill to the blocks from a block on.
fn write_pages<D: Disk>(disk: &mut Unopened<D>, start: u32, bytes: &[u8]) -> Result<(), OpenFault>
    requires inside { start + pages_in (length bytes.now) ≤ (D.seen disk.old.disk).size }
    requires fits { start + pages_in (length bytes.now) < 2 ^ 32 }
    // The pages are there, and no other block changes, whatever fails.
    ensures ok { OnOk result ((D.seen disk.new.disk).content
        ≡ with_block_pages (D.seen disk.old.disk).content start (filled_pages bytes.now)) }
    ensures keeps { KeepsThere D.seen
        (λ number block. LiesBeside start (pages_in (length bytes.now)) block) disk.old disk.new }
    ensures stays { RemainsThere D.seen disk.old disk.new }
    ensures fault { IfErr result (IsFaultOne D.seen disk.new) }
    ensures failures { OnOk result
        (failures_told (D.seen disk.new.disk) ≡ failures_told (D.seen disk.old.disk)) }
{
    for page in 0..bytes.len().div_ceil(4096) {
        disk.write(start + page as u32, &page_of(bytes, page))?;
    }
    Ok(())
}

// The first block of a file.
fn front_block(info: &FileInfo) -> u32
    ensures { result ≡ front_block info.now.extents }
{
    match info.extents.list().first() {
        Some(extent) => extent.start,
        None => 0,
    }
}

// Writes the pages of a file to a disk, where the file lies on it.
fn write_on<D: Disk>(disk: &mut Unopened<D>, info: &FileInfo, bytes: &[u8]) -> Result<(), OpenFault>
    requires { HasPlaceOn D.seen info.now bytes.now disk.old }
    ensures ok { OnOk result ((D.seen disk.new.disk).content
        ≡ with_file disk.old.number (D.seen disk.old.disk).content info.now bytes.now) }
    // What stays.
    ensures keeps { KeepsThere D.seen (SparesBlock info.now bytes.now) disk.old disk.new }
    ensures stays { RemainsThere D.seen disk.old disk.new }
    ensures fault { IfErr result (IsFaultOne D.seen disk.new) }
    ensures failures { OnOk result
        (failures_told (D.seen disk.new.disk) ≡ failures_told (D.seen disk.old.disk)) }
{
    if info.disk == disk.number() {
        return write_pages(disk, front_block(info), bytes);
    }
    Ok(())
}

// Writes the pages of a file to the disk of its number.
fn write_file<D: Disk>(
    disks: &mut [Unopened<D>],
    info: &FileInfo,
    bytes: &[u8],
) -> Result<(), OpenFault>
    requires { HasPlaces D.seen disks.old info.now bytes.now }
    ensures ok { OnOk result (WroteOne D.seen info.now bytes.now disks.old disks.new) }
    // What stays.
    ensures keep { KeepThere D.seen (SparesBlock info.now bytes.now) disks.old disks.new }
    ensures stay { RemainThere D.seen disks.old disks.new }
    ensures fault { IfErr result (IsFaultThere D.seen disks.new) }
    ensures failures { OnOk result (counts_of (map (numbered_seen D.seen) disks.new)
        ≡ counts_of (map (numbered_seen D.seen) disks.old)) }
{
    for i in 0..disks.len() {
        write_on(&mut disks[i], info, bytes)?;
    }
    Ok(())
}

// The bytes that a line's file begins with, if the line gives a file.
fn file_bytes(act: &SetupAct) -> Option<&[u8]>
    ensures { option_map (λ b. b.now) result ≡ bytes_given act.now }
{
    match act {
        SetupAct::File { bytes, .. } => Some(bytes.bytes()),
        _ => None,
    }
}

/// Writes the pages that the bytes of file lines fill, file by file; the files are those from a number on.
///
/// An error is the fault of a disk.
pub(crate) fn write_lines<D: Disk>(
    setup: &[SetupLine],
    first: u32,
    files: &Files,
    disks: &mut [Unopened<D>],
) -> Result<(), OpenFault>
    // The files are there, and their pages have places on their disks.
    requires count { first + length (line_files files.now first setup.now)
        ≤ length files.now.files }
    requires few { length files.now.files ≤ 64 }
    requires places { HavePlaces D.seen disks.old (line_files files.now first setup.now) }

    // Each disk has its files' pages; or one of them failed, and counted it.
    ensures ok { OnOk result
        (WroteEach D.seen (line_files files.now first setup.now) disks.old disks.new) }
    ensures keep { KeepThere D.seen
        (SpareBlock (line_files files.now first setup.now)) disks.old disks.new }
    ensures stay { RemainThere D.seen disks.old disks.new }
    ensures fault { IfErr result (IsFaultThere D.seen disks.new) }
    ensures failures { OnOk result (counts_of (map (numbered_seen D.seen) disks.new)
        ≡ counts_of (map (numbered_seen D.seen) disks.old)) }
{
    let mut file = first;
    for line in setup {
        if let Some(bytes) = file_bytes(&line.act) {
            write_file(disks, files.info(file), bytes)?;
            file += 1;
        }
    }
    Ok(())
}
