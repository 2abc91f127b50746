//! A table written as block 0.
ghost use Rattle.std.specs.Prelude.{◌≡◌, ◌<◌, ◌≤◌, ◌+◌, ◌*◌, length, replicate, Ok};
ghost use Rattle.std.specs.List.{flat_map};
ghost use Rattle.volume_format.specs.Table.{all_extents};
ghost use Rattle.volume_format.specs.Rules.{reading};
ghost use Rattle.volume_format.specs.Volume.{IsVolumeTable};
ghost use Rattle.volume_format.specs.Writing.{padded_field, number_bytes, extent_bytes, file_entry_bytes, entries_bytes, extents_bytes, header_bytes, encoding, with_block_bytes};

use crate::table::Table;
use vnode_files::{Extent, FileInfo, FileName};

/// Writes a table as block 0, in version 2. It takes no memory.
pub fn encode(table: &Table, into: &mut [u8])
    requires { length into.old ≡ 4096 }
    ensures new { into.new ≡ encoding table.now }
    ensures told { IsVolumeTable table.now → reading into.new table.now.blocks ≡ Ok table.now }
{
    clear(into);
    put_header(table, into);
    put_entries(table.entries(), into);
    put_extents(table.entries(), into);
}

// Makes all bytes zeros.
fn clear(into: &mut [u8])
    ensures { into.new ≡ replicate (length into.old) 0 }
{
    into.fill(0);
}

// Writes bytes from a place on.
#[tactic(auto, unfolding(crate::specs::Writing::with_block_bytes))]
fn put(bytes: &[u8], into: &mut [u8], at: usize)
    requires { at + length bytes.now ≤ length into.old }
    ensures { into.new ≡ with_block_bytes into.old at bytes.now }
{
    into[at..at + bytes.len()].copy_from_slice(bytes);
}

// Writes a number from a place on.
#[tactic(auto, unfolding(crate::specs::Writing::number_bytes))]
fn put_number(n: u32, into: &mut [u8], at: usize)
    requires { at + 4 ≤ length into.old }
    ensures { into.new ≡ with_block_bytes into.old at (number_bytes n) }
{
    put(&n.to_be_bytes(), into, at);
}

// A name with zeros behind it.
fn name_field(name: &FileName) -> [u8; 16]
    ensures field { result ≡ padded_field 16 name.now }
    ensures short { length name.now ≤ 16 }
{
    let bytes = name.bytes();
    let mut field = [0; 16];
    field[..bytes.len()].copy_from_slice(bytes);
    field
}

// Writes the header.
fn put_header(table: &Table, into: &mut [u8])
    requires { length into.old ≡ 4096 }
    ensures { into.new ≡ with_block_bytes into.old 0 (header_bytes table.now) }
{
    put(b"SUNVMVOL", into, 0);
    put_number(2, into, 8);
    put_number(table.blocks(), into, 12);
    put_number(table.entries().len() as u32, into, 16);
    put_number(table.extents(), into, 20);
    put(&[0; 8], into, 24);
}

// Writes the entry of a file, whose first extent is at this place in the table.
fn put_file(file: &FileInfo, first: u32, into: &mut [u8], at: usize)
    requires within { at + 32 ≤ length into.old }
    requires few { length file.now.extents ≤ 252 }
    ensures new { into.new ≡ with_block_bytes into.old at (file_entry_bytes file.now first) }
    ensures size { length (file_entry_bytes file.now first) ≡ 32 }
{
    put(&name_field(&file.name), into, at);
    put_number(file.length, into, at + 16);
    put_number(first, into, at + 20);
    put_number(file.extents.list().len() as u32, into, at + 24);
    put_number(file.writable as u32, into, at + 28);
}

// Writes the entries.
fn put_entries(entries: &[FileInfo], into: &mut [u8])
    requires whole { length into.old ≡ 4096 }
    requires files { length entries.now ≤ 64 }
    requires extents { length (all_extents entries.now) ≤ 252 }
    ensures new { into.new ≡ with_block_bytes into.old 32 (entries_bytes entries.now) }
    ensures size { length (entries_bytes entries.now) ≡ 32 * length entries.now }
{
    let mut first = 0;
    for (i, file) in entries.iter().enumerate() {
        put_file(file, first, into, 32 + 32 * i);
        first += file.extents.list().len() as u32;
    }
}

// Writes extents one after another from a place on.
fn put_extents_of(extents: &[Extent], into: &mut [u8], at: usize)
    requires { at + 8 * length extents.now ≤ length into.old }
    ensures { into.new ≡ with_block_bytes into.old at (flat_map extent_bytes extents.now) }
{
    for (i, extent) in extents.iter().enumerate() {
        put_number(extent.start, into, at + 8 * i);
        put_number(extent.pages, into, at + 8 * i + 4);
    }
}

// Writes the extents of all files.
fn put_extents(entries: &[FileInfo], into: &mut [u8])
    requires whole { length into.old ≡ 4096 }
    requires extents { length (all_extents entries.now) ≤ 252 }
    ensures { into.new ≡ with_block_bytes into.old 2080 (extents_bytes entries.now) }
{
    let mut place = 0;
    for file in entries {
        put_extents_of(file.extents.list(), into, 2080 + 8 * place);
        place += file.extents.list().len();
    }
}
