//! Block 0 read as a table.
ghost use Rattle.std.specs.Prelude.{◌≡◌, ◌≢◌, ◌<◌, ◌≤◌, ◌+◌, length, map, IfOk, None, true};
ghost use Rattle.std.specs.List.{range_with_len};
ghost use Rattle.volume_format.specs.Layout.{version, name_field, table_extent, extents_of_file, first_extent, extents_number, file_in, table_in};
ghost use Rattle.volume_format.specs.Volume.{IsVolumeTable};
ghost use Rattle.volume_format.specs.Writing.{encoding};
ghost use Rattle.volume_format.specs.Rules.{first_failed, is_name_field, tests, reading};

use crate::bytes::{are_zeros, number_at};
use crate::rules::{
    BadVolume, entry_number, failed_rule, name_field, own_extent, table_extent, text_before_zero,
};
use crate::table::Table;
use std::alloc::{AllocError, Global};
use vnode_files::{Extent, Extents, FileInfo, FileName};

/// The table that block 0 says, on a disk of so many blocks. A block of zeros says the table without files.
///
/// The first error is want of memory; the second is the first rule of the grammar that the block breaks. Both versions are read:
/// in version 1 each file has one extent.
pub fn decode(
    alloc: Global,
    block: &[u8],
    blocks: u32,
) -> Result<Result<Table, BadVolume>, AllocError>
    requires { length block.now ≡ 4096 }
    ensures exact { IfOk result (λ told. told ≡ reading block.now blocks) }
    ensures volume { IfOk result (λ told. IfOk told IsVolumeTable) }
    ensures spelling { IfOk result (λ told.
        IfOk told (λ table. version block.now ≡ 2 → encoding table ≡ block.now)) }
{
    if are_zeros(block) {
        return Ok(Ok(Table::new(alloc, blocks)));
    }
    if let Some(rule) = failed_rule(block, blocks) {
        return Ok(Err(BadVolume { rule }));
    }
    let table = table_in(alloc, block, blocks)?;
    Ok(Ok(table))
}

// The table that the fields of a block say, in which every rule holds.
fn table_in(alloc: Global, block: &[u8], blocks: u32) -> Result<Table, AllocError>
    requires whole { length block.now ≡ 4096 }
    requires passed { first_failed (tests block.now blocks) ≡ None }
    ensures { IfOk result (λ table. table ≡ table_in block.now blocks) }
{
    let count = number_at(block, 16);
    let mut entries = Vec::with_capacity(alloc, count as usize)?;
    for i in 0..count {
        let entry = file_in(alloc, block, i)?;
        entries.push(entry)?;
    }
    Ok(Table::from_entries(alloc, blocks, entries))
}

// A file, as its fields say.
fn file_in(alloc: Global, block: &[u8], i: u32) -> Result<FileInfo, AllocError>
    requires whole { length block.now ≡ 4096 }
    requires there { i < 64 }
    requires name { is_name_field (name_field block.now i) ≡ true }
    requires within { version block.now ≢ 1
        → first_extent block.now i + extents_number block.now i ≤ 252 }
    ensures { IfOk result (λ file. file ≡ file_in block.now i) }
{
    let extents = if number_at(block, 8) == 1 {
        Extents::new(alloc, &[own_extent(block, i)])?
    } else {
        extents_in(alloc, block, i)?
    };
    Ok(FileInfo {
        name: FileName::new(text_before_zero(name_field(block, i))),
        disk: 0,
        extents,
        length: entry_number(block, i, 16),
        writable: entry_number(block, i, 28) == 1,
    })
}

// The extents of a file in a block of version 2.
fn extents_in(alloc: Global, block: &[u8], i: u32) -> Result<Extents, AllocError>
    requires whole { length block.now ≡ 4096 }
    requires there { i < 64 }
    requires within { first_extent block.now i + extents_number block.now i ≤ 252 }
    ensures { IfOk result (λ extents. extents
        ≡ map (table_extent block.now)
        (range_with_len (first_extent block.now i) (extents_number block.now i))) }
{
    let first = entry_number(block, i, 20);
    let end = first + entry_number(block, i, 24);
    let mut extents: Vec<Extent> = Vec::with_capacity(alloc, 252)?;
    for j in first..end {
        extents.push(table_extent(block, j))?;
    }
    Extents::new(alloc, &extents)
}
