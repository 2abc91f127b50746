//! Extents: runs of blocks of one disk, in the order in which a file keeps them.
ghost use Rattle.std.specs.Prelude.{◌≡◌, ◌<◌, ◌≤◌, ◌+◌, ◌-◌, ◌^◌, ◌∷◌, ◌++◌, [], IfOk, length, slice_index_or};
ghost use Rattle.vnode_files.specs.Grow.{with_longer_last};
ghost use Rattle.vnode_files.specs.Room.{cut_extents};

use std::alloc::{AllocError, Global};
use std::marker::Model;

/// The most extents that the files of one disk have in all: as many as a disk's table has room for.
pub const MOST_EXTENTS: u32 = 252;

/// A run of blocks of a disk.
#[derive(Clone, Copy, PartialEq, Eq, Debug)]
pub struct Extent {
    /// The first block.
    pub start: u32,
    /// How many blocks, each of one page.
    pub pages: u32,
}

/// The extents of a file in the order of its pages, seen as their list.
#[derive(Drop, Debug)]
pub struct Extents {
    // With room for as many as the files of a disk have, so that a file grows without taking memory.
    items: Vec<Extent>,
}

impl Model for Extents {
    ghost use Rattle.std.specs.Prelude.{List, ◌≤◌, vec_capacity};
    ghost use Rattle.vnode_files.specs.declared.extent.Extent.{Extent};

    ghost Value = { List Extent };

    ghost view = { λ e. e.items.items };

    ghost invariant = { λ e. 252 ≤ vec_capacity e.items };
}

impl Extents {
    /// These extents, with room for as many more as a file may come to have.
    pub fn new(alloc: Global, from: &[Extent]) -> Result<Extents, AllocError>
        ensures { IfOk result (λ extents. extents ≡ from.now) }
    {
        let mut items = Vec::with_capacity(alloc, from.len().max(MOST_EXTENTS as usize))?;
        items.extend_from_slice(from)?;
        Ok(Extents { items })
    }

    /// The extents in order.
    pub fn list(&self) -> &[Extent]
        ensures { result.now ≡ self.now }
    {
        &self.items
    }

    // Makes the last extent one block longer.
    pub(crate) fn lengthen_last(&mut self)
        requires some { 0 < length self.old }
        requires fits { (d : Extent)
            → (slice_index_or self.old (length self.old - 1) d).pages + 1 < 2 ^ 32 }
        ensures { self.new ≡ with_longer_last self.old }
    {
        let last = self.items.len() - 1;
        self.items[last].pages += 1;
    }

    // Adds an extent at the end.
    pub(crate) fn push(&mut self, extent: Extent)
        requires { length self.old < MOST_EXTENTS }
        ensures { self.new ≡ self.old ++ extent ∷ [] }
    {
        self.items.push_reserved(extent);
    }

    // Cuts the extents back to so many, the last of them to so many pages.
    pub(crate) fn cut_extents(&mut self, count: usize, pages: u32)
        requires { count ≤ length self.old }
        ensures { self.new ≡ cut_extents self.old count pages }
    {
        self.items.truncate(count);
        if count > 0 {
            self.items[count - 1].pages = pages;
        }
    }
}

impl Extent {
    ghost use Rattle.vnode_files.specs.Grow.{has_block};

    // Whether a block lies in the extent.
    pub(crate) fn has_block(&self, block: u32) -> bool
        ensures { result ≡ has_block block self.now }
    {
        self.start <= block && block - self.start < self.pages
    }
}
