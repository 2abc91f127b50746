//! Pages of files that shared mappings show, where a Sync wants them clean.
ghost use Rattle.std.specs.Prelude.{◌≡◌, ◌≤◌, ◌+◌, ◌<◌, ◌^◌, ℕ, Some};
ghost use Rattle.seg_ops.specs.vm_world.Segments.{Spaces, spot_at};
ghost use Rattle.seg_ops.specs.vm_world.Words.{memory, Fits};
ghost use Rattle.seg_ops.specs.Rooms.{MakesRoom};
ghost use Rattle.seg_vn.specs.CleanPlaces.{CleansPlaces, shared_file};

use crate::segment::VnSeg;
use seg_ops::{Disk, Object, Wants, World, clean_pages, pages_in};

impl VnSeg {
    /// The file whose pages it shows, if it is shared and shows one.
    pub fn shared_file(&self) -> Option<u32>
        ensures { result ≡ shared_file self.now }
    {
        if self.segment.own.is_some() {
            return None;
        }
        match self.segment.object {
            Object::File(file) => Some(file),
            _ => None,
        }
    }

    /// The page of its object that its first page shows.
    pub fn index(&self) -> u32
        ensures index { result ≡ self.now.index }
        ensures end { result + self.now.pages < 2 ^ 32 }
    {
        self.segment.index
    }

    /// What must come first of the pages that a Sync wants clean, at its places from one up to another: None where all are clean;
    /// else a place whose page isn't, and that page's push, or whom the call waits for. Each page is looked at once, up to that one.
    /// Takes no memory and makes no disk call. Time: constant where it is private or shows no file; else the pages that the file has
    /// at these places, and their translations.
    pub fn clean_places<D: Disk>(
        &self,
        world: &mut World<D>,
        from: u32,
        to: u32,
    ) -> Option<(u32, Wants)>
        requires range { from ≤ to }
        requires within { to ≤ self.now.pages }
        requires fits { (spaces : Spaces) × (p : ℕ) × (q : ℕ) × (at : ℕ) × Fits world.old spaces
            × (spot_at spaces p q ≡ Some (self.now, at)) }
        ensures cleans { (spaces : Spaces) (p q at : ℕ) → Fits world.old spaces
            → spot_at spaces p q ≡ Some (self.now, at)
            → CleansPlaces (memory world.new spaces) self.now from to result }
        // What stays.
        ensures makes { MakesRoom world.old world.new }
    {
        let Some(file) = self.shared_file() else {
            return None;
        };
        let index = self.index();
        let end = pages_in(world.files.info(file).length).min(index + to);
        match clean_pages(world, file, index + from, end) {
            None => None,
            Some((page, wants)) => Some((page - index, wants)),
        }
    }
}
