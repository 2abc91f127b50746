//! The files by number, and the disks that they lie on.
ghost use Rattle.std.specs.Prelude.{◌≡◌, ◌≢◌, ◌<◌, ◌≤◌, ◌+◌, ◌*◌, ◌^◌, All, OnOk, OnErr, IfOk, IsSome, is_some, length, option_map, if◌then◌else◌, None};
ghost use Rattle.std.specs.Bool.{OnTrue};
ghost use Rattle.std.specs.List.{last_or};
ghost use Rattle.std.specs.FinMap as map;
ghost use Rattle.vnode_files.specs.Grow.{page_count, extent_end};
ghost use Rattle.vnode_files.specs.Vnode.{IsSoundVnode, fresh_vnode, block_at, is_blank, with_blank, with_length};
ghost use Rattle.vnode_files.specs.Files.{no_files, vnode_at, with_vnode, with_next_file, with_disk, growth_of, with_growth, IsNumberOf};
ghost use Rattle.vnode_files.specs.Layout.{KeepsLayout, HasPlaceBeside, GrowsFile};
ghost use Rattle.vnode_files.specs.Step.{end_block, new_block, next_extents};

use crate::growth::{free_end, is_full, least_free};
use crate::name::FileName;
use crate::vnode::{FileInfo, Vnode};
use std::alloc::{AllocError, Global};
use std::marker::Model;

/// The files by number, at most 64, and the blocks of the disks that they lie on.
#[derive(Drop)]
pub struct Files {
    // Each disk with its blocks, the newest first.
    disks: Vec<(u32, u32)>,
    vnodes: Vec<Vnode>,
    alloc: Global,
}

impl Model for Files {
    ghost use Rattle.std.specs.Prelude.{map};
    ghost use Rattle.std.specs.FinMap.{from_entries};
    ghost use Rattle.vnode_files.specs.Files.{FilesSeen};
    ghost use Rattle.vnode_files.specs.FilesCode.{files_code};
    ghost use Rattle.vnode_files.specs.Room.{IsSoundFiles};

    ghost Value = { FilesSeen };

    ghost coded = { files_code };

    ghost view = { λ f. record {
      disks = from_entries f.disks.items;
      files = map (λ v. v.seen) f.vnodes.items;
    } };

    ghost invariant = { λ f. IsSoundFiles (from_entries f.disks.items) f.vnodes.items };
}

impl Files {
    /// No files and no disks. It takes no memory.
    pub fn new(alloc: Global) -> Files
        ensures { result ≡ no_files }
    {
        Files {
            disks: Vec::new(alloc),
            vnodes: Vec::new(alloc),
            alloc,
        }
    }

    /// Says how many blocks a disk has, before files are added on it.
    pub fn set_disk(&mut self, disk: u32, blocks: u32) -> Result<(), AllocError>
        requires { All (λ v. v.info.disk ≢ disk) self.old.files }
        ensures new { OnOk result (self.new ≡ with_disk self.old disk blocks) }
        ensures err { OnErr result (self.new ≡ self.old) }
        ensures layout { KeepsLayout self.old self.new }
    {
        self.disks.insert(0, (disk, blocks))?;
        Ok(())
    }

    /// The blocks of a disk; none where it wasn't set.
    pub fn disk_blocks(&self, disk: u32) -> Option<u32>
        ensures { result ≡ map.get self.now.disks disk }
    {
        for &(number, blocks) in &self.disks {
            if number == disk {
                return Some(blocks);
            }
        }
        None
    }

    /// Adds a file under the next number. Its pages at or past its length are blank.
    ///
    /// Takes time and memory for a flag a page and for a flag a block of its disk, so that the file grows without taking memory.
    pub fn add(&mut self, info: FileInfo) -> Result<u32, AllocError>
        requires few { length self.old.files < 64 }
        requires disk { IsSome (map.get self.old.disks info.disk) }
        requires blocks { All (λ e. extent_end e ≤ 2 ^ 32) info.extents }
        requires pages { page_count info.extents < 2 ^ 32 }
        requires within { info.length ≤ page_count info.extents * 4096 }

        // The file has the next number, and is as its record says.
        ensures number { IfOk result (λ number. number ≡ length self.old.files) }
        ensures new { OnOk result (self.new ≡ with_next_file self.old (fresh_vnode info)) }
        ensures err { OnErr result (self.new ≡ self.old) }

        // Where the file has a place beside those of its disk, the files lie on it as before.
        ensures layout { HasPlaceBeside self.old info → KeepsLayout self.old self.new }
    {
        let Some(blocks) = self.disk_blocks(info.disk) else {
            unreachable!()
        };
        let vnode = Vnode::new(self.alloc, info, blocks)?;
        let number = self.vnodes.len() as u32;
        self.vnodes.push(vnode)?;
        Ok(number)
    }

    /// The least file of a name, if a file has it.
    ///
    /// Looks at each file, at most 64.
    pub fn number(&self, name: &FileName) -> Option<u32>
        ensures { IsNumberOf self.now.files name.now result }
    {
        for (number, vnode) in self.vnodes.iter().enumerate() {
            if vnode.is_named(name) {
                return Some(number as u32);
            }
        }
        None
    }

    /// A file's record.
    pub fn info(&self, file: u32) -> &FileInfo
        requires { file < length self.now.files }
        ensures info { result.now ≡ (vnode_at self.now file).info }
        ensures sound { IsSoundVnode (vnode_at self.now file) }
    {
        self.vnodes[file as usize].info()
    }

    /// How many files there are.
    pub fn count(&self) -> u32
        ensures count { result ≡ length self.now.files }
        ensures few { length self.now.files ≤ 64 }
    {
        self.vnodes.len() as u32
    }

    /// The pages that a file keeps.
    pub fn kept(&self, file: u32) -> u32
        requires { file < length self.now.files }
        ensures { result ≡ page_count (vnode_at self.now file).info.extents }
    {
        self.vnodes[file as usize].page_count()
    }

    /// The block of a page that a file keeps, in the logarithm of the number of its extents.
    pub fn block(&self, file: u32, page: u32) -> u32
        requires file { file < length self.now.files }
        requires page { page < page_count (vnode_at self.now file).info.extents }
        ensures { result ≡ block_at (vnode_at self.now file).info.extents page }
    {
        self.vnodes[file as usize].block(page)
    }

    /// Whether a page that a file keeps was never written.
    pub fn blank(&self, file: u32, page: u32) -> bool
        requires file { file < length self.now.files }
        requires page { page < page_count (vnode_at self.now file).info.extents }
        ensures { result ≡ is_blank (vnode_at self.now file) page }
    {
        self.vnodes[file as usize].blank(page)
    }

    /// Says of a page that a file keeps whether it was never written.
    pub fn set_blank(&mut self, file: u32, page: u32, blank: bool)
        requires file { file < length self.old.files }
        requires page { page < page_count (vnode_at self.old file).info.extents }
        ensures new { self.new
            ≡ with_vnode self.old file (with_blank (vnode_at self.old file) page blank) }
        ensures layout { KeepsLayout self.old self.new }
    {
        self.vnodes[file as usize].set_blank(page, blank);
    }

    /// Gives a file another length, in bytes.
    pub fn set_length(&mut self, file: u32, bytes: u32)
        requires file { file < length self.old.files }
        requires within { bytes ≤ page_count (vnode_at self.old file).info.extents * 4096 }
        ensures new { self.new
            ≡ with_vnode self.old file (with_length (vnode_at self.old file) bytes) }
        ensures layout { KeepsLayout self.old self.new }
    {
        self.vnodes[file as usize].set_length(bytes);
    }

    /// Gives a file the blocks that it needs to keep so many pages, each the next by the rule of growth; the new pages are blank.
    /// False, and nothing changes, where its disk has no block for one of them.
    ///
    /// Takes no memory. For each new page it looks at the extents of the disk's files.
    pub fn grow(&mut self, file: u32, pages: u32) -> bool
        requires { file < length self.old.files }
        ensures new { self.new ≡ with_growth self.old file (growth_of self.old file pages) }
        ensures answer { result ≡ is_some (growth_of self.old file pages) }

        // The new pages lie in blocks that were free, the old ones where they lay.
        ensures grows { OnTrue result (GrowsFile self.old self.new file pages) }
        ensures layout { KeepsLayout self.old self.new }
    {
        let before = self.vnodes[file as usize].savepoint_of();
        while self.kept(file) < pages {
            if !self.take_block(file) {
                self.vnodes[file as usize].cut_back(before);
                return false;
            }
        }
        true
    }

    /// Whether a file can get the blocks that it needs to keep so many pages. Nothing changes.
    ///
    /// Takes no memory, and as much time as such a growth.
    pub fn can_grow(&mut self, file: u32, pages: u32) -> bool
        requires { file < length self.old.files }
        ensures answer { result ≡ is_some (growth_of self.old file pages) }
        ensures same { self.new ≡ self.old }
    {
        let before = self.vnodes[file as usize].savepoint_of();
        let grows = self.grow(file, pages);
        self.vnodes[file as usize].cut_back(before);
        grows
    }

    // The block after a file's last extent, where it is free.
    fn end_block(&self, file: u32) -> Option<u32>
        requires { file < length self.now.files }
        ensures { result ≡ end_block self.now file }
    {
        let vnode = &self.vnodes[file as usize];
        let disk = vnode.info().disk;
        let blocks = self.disk_blocks(disk).unwrap_or(0);
        match vnode.last() {
            Some(last) => free_end(&self.vnodes, disk, blocks, last),
            None => None,
        }
    }

    // The block at which a file's next extent begins, where there may be one more.
    fn new_block(&self, file: u32) -> Option<u32>
        requires { file < length self.now.files }
        ensures { result ≡ new_block self.now file }
    {
        let disk = self.vnodes[file as usize].info().disk;
        let blocks = self.disk_blocks(disk).unwrap_or(0);
        if is_full(&self.vnodes, disk) {
            return None;
        }
        least_free(&self.vnodes, disk, blocks)
    }

    // Gives a file one more block, if there is one for it.
    fn take_block(&mut self, file: u32) -> bool
        requires file { file < length self.old.files }
        requires pages { page_count (vnode_at self.old file).info.extents + 1 < 2 ^ 32 }
        ensures new { self.new ≡ with_growth self.old file (next_extents self.old file) }
        ensures answer { result ≡ is_some (next_extents self.old file) }
    {
        if let Some(block) = self.end_block(file) {
            self.vnodes[file as usize].lengthen(block);
            return true;
        }
        if let Some(block) = self.new_block(file) {
            self.vnodes[file as usize].push_extent(block);
            return true;
        }
        false
    }
}
