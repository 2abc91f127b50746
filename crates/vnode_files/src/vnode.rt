//! One file: its record, where its pages lie, and which of them are blank.
ghost use Rattle.std.specs.Prelude.{◌≡◌, ◌≢◌, ◌<◌, ◌≤◌, ◌+◌, ◌-◌, ◌*◌, ◌^◌, ◌↔◌, ◌∷◌, ◌++◌, [], All, IsTrue, IsSomeAnd, IfOk, Some, None, length, slice_index_or};
ghost use Rattle.std.specs.List.{last_or, list_any};

use crate::extent::{Extent, Extents, MOST_EXTENTS};
use crate::name::FileName;
use std::alloc::{AllocError, Global};
use std::marker::Model;

/// A file: its name, its extents on a disk, its length and its mode.
#[derive(Drop, Debug)]
pub struct FileInfo {
    pub name: FileName,
    /// The number of the disk that has the file's blocks.
    pub disk: u32,
    /// The blocks of the file's pages.
    pub extents: Extents,
    /// Bytes.
    pub length: u32,
    pub writable: bool,
}

// Where a file stood before it grew: its extents, the pages of the last one, and its pages in all.
#[derive(Clone, Copy)]
pub(crate) struct Savepoint {
    extents: usize,
    last: u32,
    pages: u32,
}

// A file, with the page ends of its extents, and a flag for each page: whether it was never written.
#[derive(Drop)]
pub(crate) struct Vnode {
    info: FileInfo,
    ends: Vec<u32>,
    blanks: Vec<bool>,
    // The pages with which the file began.
    opened: u32,
}

impl Model for Vnode {
    ghost use Rattle.std.specs.Prelude.{vec_capacity};
    ghost use Rattle.vnode_files.specs.Room.{RoomyVnode, HasPageEnds};

    ghost Value = { RoomyVnode };

    ghost view = { λ v. record {
      seen = record { info = v.info; blanks = v.blanks.items };
      opened = v.opened;
      room = vec_capacity v.blanks;
    } };

    ghost invariant = { λ v.
        HasPageEnds (record { info = v.info; blanks = v.blanks.items }) v.ends.items (vec_capacity v.ends) };
}

impl Vnode {
    ghost use Rattle.vnode_files.specs.Grow.{extent_end, has_block, page_count, with_longer_last};
    ghost use Rattle.vnode_files.specs.Vnode.{IsSoundVnode, fresh_vnode, block_at, is_blank, with_blank, with_length, with_extents};
    ghost use Rattle.vnode_files.specs.Room.{savepoint_of, cut_vnode};
    ghost use Rattle.vnode_files.specs.Files.{extents_on};
    ghost use Rattle.std.specs.List.{find};

    // A file as it begins, with room for all blocks of its disk.
    pub(crate) fn new(alloc: Global, info: FileInfo, blocks: u32) -> Result<Vnode, AllocError>
        requires pages { page_count info.extents < 2 ^ 32 }
        requires blocks { All (λ e. extent_end e ≤ 2 ^ 32) info.extents }
        requires within { info.length ≤ page_count info.extents * 4096 }

        // The file is as its record says, and has room for what it may take.
        ensures seen { IfOk result (λ v. v.seen ≡ fresh_vnode info) }
        ensures opened { IfOk result (λ v. v.opened ≡ page_count info.extents) }
        ensures room { IfOk result (λ v. v.opened + blocks ≤ v.room) }
    {
        let ends = ends_of(alloc, info.extents.list())?;
        let pages: u32 = info.extents.list().iter().map(|e| e.pages).sum();
        let blanks = blanks_of(alloc, info.length, pages, blocks)?;
        Ok(Vnode {
            info,
            ends,
            blanks,
            opened: pages,
        })
    }

    pub(crate) fn info(&self) -> &FileInfo
        ensures info { result.now ≡ self.now.seen.info }
        ensures sound { IsSoundVnode self.now.seen }
    {
        &self.info
    }

    pub(crate) fn is_named(&self, name: &FileName) -> bool
        ensures { IsTrue result ↔ (self.now.seen.info.name ≡ name.now) }
    {
        self.info.name.bytes() == name.bytes()
    }

    // The pages that the file keeps.
    pub(crate) fn page_count(&self) -> u32
        ensures { result ≡ page_count self.now.seen.info.extents }
    {
        self.blanks.len() as u32
    }

    pub(crate) fn block(&self, page: u32) -> u32
        requires { page < page_count self.now.seen.info.extents }
        ensures { result ≡ block_at self.now.seen.info.extents page }
    {
        let place = self.ends.partition_point(|end| *end <= page);
        let extent = self.info.extents.list()[place];
        extent.start + (page - (self.ends[place] - extent.pages))
    }

    pub(crate) fn blank(&self, page: u32) -> bool
        requires { page < page_count self.now.seen.info.extents }
        ensures { result ≡ is_blank self.now.seen page }
    {
        self.blanks[page as usize]
    }

    pub(crate) fn set_blank(&mut self, page: u32, blank: bool)
        requires { page < page_count self.old.seen.info.extents }
        ensures { self.new ≡ record self.old { seen = with_blank self.old.seen page blank } }
    {
        self.blanks[page as usize] = blank;
    }

    pub(crate) fn set_length(&mut self, bytes: u32)
        requires { bytes ≤ page_count self.old.seen.info.extents * 4096 }
        ensures { self.new ≡ record self.old { seen = with_length self.old.seen bytes } }
    {
        self.info.length = bytes;
    }

    // The last extent, if the file has one.
    pub(crate) fn last(&self) -> Option<Extent>
        ensures { result ≡ last_or None self.now.seen.info.extents }
    {
        self.info.extents.list().last().copied()
    }

    // The extent that has a block, if one has it.
    pub(crate) fn extent_with(&self, block: u32) -> Option<Extent>
        ensures { result ≡ find (has_block block) self.now.seen.info.extents }
    {
        for extent in self.info.extents.list() {
            if extent.has_block(block) {
                return Some(*extent);
            }
        }
        None
    }

    // The file's extent that has a block of a disk, if the file lies there and one has it.
    pub(crate) fn extent_on(&self, disk: u32, block: u32) -> Option<Extent>
        ensures { result ≡ find (has_block block) (extents_on disk (self.now.seen ∷ [])) }
    {
        if self.info.disk != disk {
            return None;
        }
        self.extent_with(block)
    }

    // How many extents the file has on a disk.
    pub(crate) fn count_on(&self, disk: u32) -> usize
        ensures { result ≡ length (extents_on disk (self.now.seen ∷ [])) }
    {
        if self.info.disk != disk {
            return 0;
        }
        self.info.extents.list().len()
    }

    // Takes the block after the last extent.
    pub(crate) fn lengthen(&mut self, block: u32)
        requires last { IsSomeAnd (last_or None self.old.seen.info.extents)
            (λ e. extent_end e ≡ block) }
        requires pages { page_count self.old.seen.info.extents + 1 < 2 ^ 32 }
        requires room { page_count self.old.seen.info.extents < self.old.room }
        ensures { self.new ≡ record self.old {
          seen = with_extents self.old.seen (with_longer_last self.old.seen.info.extents);
        } }
    {
        let last = self.ends.len() - 1;
        let _ = block;
        self.info.extents.lengthen_last();
        self.ends[last] += 1;
        self.blanks.push_reserved(true);
    }

    // Takes a block as a new last extent.
    pub(crate) fn push_extent(&mut self, block: u32)
        requires few { length self.old.seen.info.extents < MOST_EXTENTS }
        requires pages { page_count self.old.seen.info.extents + 1 < 2 ^ 32 }
        requires room { page_count self.old.seen.info.extents < self.old.room }
        ensures { self.new ≡ record self.old {
          seen = with_extents self.old.seen
              (self.old.seen.info.extents ++ record { start = block; pages = 1 } ∷ []);
        } }
    {
        let end = self.page_count() + 1;
        self.info.extents.push(Extent {
            start: block,
            pages: 1,
        });
        self.ends.push_reserved(end);
        self.blanks.push_reserved(true);
    }

    // Where the file stands.
    pub(crate) fn savepoint_of(&self) -> Savepoint
        ensures savepoint { result ≡ savepoint_of self.now.seen }
        ensures sound { IsSoundVnode self.now.seen }
    {
        let last = match self.last() {
            Some(extent) => extent.pages,
            None => 0,
        };
        Savepoint {
            extents: self.info.extents.list().len(),
            last,
            pages: self.page_count(),
        }
    }

    // Brings the file back to where it stood.
    pub(crate) fn cut_back(&mut self, to: Savepoint)
        requires extents { to.extents ≤ length self.old.seen.info.extents }
        requires pages { to.pages ≡ page_count (cut_vnode self.old.seen to).info.extents }
        requires sound { IsSoundVnode (cut_vnode self.old.seen to) }
        ensures { self.new ≡ record self.old { seen = cut_vnode self.old.seen to } }
    {
        self.info.extents.cut_extents(to.extents, to.last);
        cut_ends(&mut self.ends, to.extents, to.pages);
        self.blanks.truncate(to.pages as usize);
    }
}

ghost use Rattle.std.specs.Prelude.{map, nat_le, vec_capacity, take, slice_set};
ghost use Rattle.std.specs.List.{range_with_len};
ghost use Rattle.vnode_files.specs.Grow.{page_count};
ghost use Rattle.vnode_files.specs.Room.{page_ends};

// For each extent the pages up to its end, with room for as many extents as a file may come to have.
fn ends_of(alloc: Global, extents: &[Extent]) -> Result<Vec<u32>, AllocError>
    requires { page_count extents.now < 2 ^ 32 }
    ensures ends { IfOk result (λ ends. ends.items ≡ page_ends 0 extents.now) }
    ensures room { IfOk result (λ ends. 252 ≤ vec_capacity ends) }
{
    let mut ends = Vec::with_capacity(alloc, MOST_EXTENTS as usize)?;
    let mut end = 0;
    for extent in extents {
        end += extent.pages;
        ends.push(end)?;
    }
    Ok(ends)
}

// Cuts page ends back to so many, the last of them at this end.
fn cut_ends(ends: &mut Vec<u32>, count: usize, end: u32)
    requires { count ≤ length ends.old.items }
    ensures items { ends.new.items ≡ slice_set (take count ends.old.items) (count - 1) end }
    ensures room { vec_capacity ends.new ≡ vec_capacity ends.old }
{
    ends.truncate(count);
    if count > 0 {
        ends[count - 1] = end;
    }
}

// The blank pages of a file that begins with this length, with room for more pages.
fn blanks_of(alloc: Global, bytes: u32, pages: u32, more: u32) -> Result<Vec<bool>, AllocError>
    ensures blanks { IfOk result (λ blanks. blanks.items
        ≡ map (λ page. nat_le bytes (page * 4096)) (range_with_len 0 pages)) }
    ensures room { IfOk result (λ blanks. pages + more ≤ vec_capacity blanks) }
{
    let mut blanks = Vec::with_capacity(alloc, pages as usize + more as usize)?;
    for page in 0..pages {
        blanks.push(bytes as u64 <= page as u64 * 4096)?;
    }
    Ok(blanks)
}
