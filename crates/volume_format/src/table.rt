//! A disk's table of files.
ghost use Rattle.std.specs.Prelude.{◌≡◌, ◌<◌, ◌≤◌, ◌+◌, ◌*◌, OnOk, OnErr, length, nat_lt, remove};
ghost use Rattle.std.specs.List.{find, prefix_len};
ghost use Rattle.vnode_files.specs.Grow.{page_count};
ghost use Rattle.volume_format.specs.Table.{HasRoom, empty_table, all_extents, front_block, entry_at, with_changed, with_table_entry, AreOnDisk, AreFree, IsLeastPlace};
ghost use Rattle.volume_format.specs.Volume.{IsVolumeFile, IsVolumeTable, IsNewName, AreDisjointExtents};
ghost use Rattle.volume_format.specs.Place.{is_in_way};

use std::alloc::{AllocError, Global};
use std::marker::Model;
use vnode_files::{Extent, Extents, FileInfo};

/// The files of a disk, at most 64 with at most 252 extents in all, in the order of their first blocks; seen with the disk's blocks.
#[derive(Drop)]
pub struct Table {
    blocks: u32,
    entries: Vec<FileInfo>,
    alloc: Global,
}

impl Model for Table {
    ghost use Rattle.volume_format.specs.Table.{TableSeen, HasRoom};

    ghost Value = { TableSeen };

    ghost view = { λ t. record { blocks = t.blocks; entries = t.entries.items } };

    ghost invariant = { λ t. HasRoom t.entries.items };
}

impl Table {
    /// A table without files, of a disk of so many blocks. It takes no memory.
    pub fn new(alloc: Global, blocks: u32) -> Table
        ensures new { result ≡ empty_table blocks }
        ensures volume { IsVolumeTable result }
    {
        Table {
            blocks,
            entries: Vec::new(alloc),
            alloc,
        }
    }

    // A table of these files.
    pub(crate) fn from_entries(alloc: Global, blocks: u32, entries: Vec<FileInfo>) -> Table
        requires { HasRoom entries.items }
        ensures { result ≡ record { blocks = blocks; entries = entries.items } }
    {
        Table {
            blocks,
            entries,
            alloc,
        }
    }

    /// The disk's blocks.
    pub fn blocks(&self) -> u32
        ensures { result ≡ self.now.blocks }
    {
        self.blocks
    }

    /// The files in order; their field `disk` is 0 where they were read.
    pub fn entries(&self) -> &[FileInfo]
        ensures entries { result.now ≡ self.now.entries }
        ensures room { HasRoom self.now.entries }
    {
        &self.entries
    }

    // How many extents the files have in all.
    pub(crate) fn extents(&self) -> u32
        ensures { result ≡ length (all_extents self.now.entries) }
    {
        count_extents(&self.entries)
    }

    /// The least block from block 1 on from which so many blocks lie on the disk and in no extent, if there is one.
    ///
    /// Looks at each extent for each extent that is in the way, at most 252.
    pub fn place(&self, pages: u32) -> Option<u32>
        ensures { IsLeastPlace self.now.blocks (all_extents self.now.entries) pages result }
    {
        least_place(&self.entries, self.blocks, pages)
    }

    /// Adds a file, behind those that begin before it.
    pub fn add(&mut self, entry: FileInfo) -> Result<(), AllocError>
        requires disk { entry.disk ≡ 0 }
        requires free { AreFree entry.extents (all_extents self.old.entries) }
        requires files { length self.old.entries < 64 }
        requires extents { length (all_extents self.old.entries) + length entry.extents ≤ 252 }

        // The file stands in its place, and the others stay.
        ensures new { OnOk result
            (self.new ≡ record self.old { entries = with_table_entry self.old.entries entry }) }
        ensures err { OnErr result (self.new ≡ self.old) }

        // A table that keeps the rules still does with a file that does.
        ensures volume { OnOk result (IsVolumeTable self.old
            → IsVolumeFile self.old.blocks entry → IsNewName entry.name self.old.entries
            → AreDisjointExtents entry.extents → IsVolumeTable self.new) }
    {
        let place = place_in_order(&self.entries, front_block(entry.extents.list()));
        self.entries.insert(place, entry)?;
        Ok(())
    }

    /// Gives a file another length, in bytes, and other extents.
    pub fn set(&mut self, i: u32, bytes: u32, extents: &Extents) -> Result<(), AllocError>
        requires there { i < length self.old.entries }
        requires first { front_block extents.now
            ≡ front_block (entry_at self.old.entries i).extents }
        requires disk { AreOnDisk self.old.blocks extents.now }
        requires free { AreFree extents.now (all_extents (remove self.old.entries i)) }
        requires room { length (all_extents (remove self.old.entries i))
            + length extents.now ≤ 252 }
        requires within { bytes ≤ page_count extents.now * 4096 }

        // That file's length and extents alone.
        ensures new { OnOk result
            (self.new ≡ record self.old { entries = with_changed self.old.entries i bytes extents.now }) }
        ensures err { OnErr result (self.new ≡ self.old) }

        // A table that keeps the rules still does where that file does.
        ensures volume { OnOk result (IsVolumeTable self.old
            → IsVolumeFile self.old.blocks
            (record (entry_at self.old.entries i) { length = bytes; extents = extents.now })
            → AreDisjointExtents extents.now → IsVolumeTable self.new) }
    {
        let copy = Extents::new(self.alloc, extents.list())?;
        let entry = &mut self.entries[i as usize];
        entry.length = bytes;
        entry.extents = copy;
        Ok(())
    }
}

// The first block of a file.
fn front_block(extents: &[Extent]) -> u32
    ensures { result ≡ front_block extents.now }
{
    match extents.first() {
        Some(extent) => extent.start,
        None => 0,
    }
}

// The least block from which so many blocks lie on a disk and in no extent.
fn least_place(entries: &[FileInfo], blocks: u32, pages: u32) -> Option<u32>
    ensures { IsLeastPlace blocks (all_extents entries.now) pages result }
{
    let mut start: u64 = 1;
    while start + pages as u64 <= blocks as u64 {
        match extent_in_way(entries, start, start + pages as u64) {
            Some(extent) => start = extent.start as u64 + extent.pages as u64,
            None => return Some(start as u32),
        }
    }
    None
}

// How many extents files have in all.
fn count_extents(entries: &[FileInfo]) -> u32
    requires { length (all_extents entries.now) ≤ 252 }
    ensures { result ≡ length (all_extents entries.now) }
{
    let mut count = 0;
    for entry in entries {
        count += entry.extents.list().len();
    }
    count as u32
}

// How many files begin before a block, up to the first that doesn't.
fn place_in_order(entries: &[FileInfo], start: u32) -> usize
    ensures place { result ≡ prefix_len (λ f. nat_lt (front_block f.extents) start) entries.now }
    ensures within { result ≤ length entries.now }
{
    for (i, file) in entries.iter().enumerate() {
        if front_block(file.extents.list()) >= start {
            return i;
        }
    }
    entries.len()
}

// The first of extents that has one of the blocks from `start` up to `end`, if one has.
fn first_in_way(extents: &[Extent], start: u64, end: u64) -> Option<Extent>
    ensures { result ≡ find (is_in_way start end) extents.now }
{
    for extent in extents {
        let first = extent.start as u64;
        let past = first + extent.pages as u64;
        if first < end && start < past && first < past && start < end {
            return Some(*extent);
        }
    }
    None
}

// The same, of the extents of files.
fn extent_in_way(entries: &[FileInfo], start: u64, end: u64) -> Option<Extent>
    ensures { result ≡ find (is_in_way start end) (all_extents entries.now) }
{
    for entry in entries {
        if let Some(extent) = first_in_way(entry.extents.list(), start, end) {
            return Some(extent);
        }
    }
    None
}
