//! What the object of a segment shows at a place.
ghost use Rattle.std.specs.Prelude.{◌≡◌, ◌<◌, ℕ, Some, None};
ghost use Rattle.seg_ops.specs.vm_world.Segments.{Spaces, spot_at, own_slot};
ghost use Rattle.seg_ops.specs.vm_world.Words.{Fits};
ghost use Rattle.seg_ops.specs.vm_world.World.{world_seen};
ghost use Rattle.seg_vn.specs.Shown.{IsAtSpot, ObjectShows};

use crate::segment::VnSeg;
use seg_ops::{Disk, Object, PageName, SWAP_OBJECT, World, pages_in};

/// What the object of a segment shows at a place.
#[derive(Clone, Copy, PartialEq, Eq, Debug)]
pub(crate) enum Shown {
    /// This page.
    Page(PageName),
    /// Zeros, for which this place of this anon map is.
    Zeros(u32, u32),
    /// Nothing: the place is past the object's end.
    Past,
}

impl VnSeg {
    /// The slot of a place's own.
    pub(crate) fn own_slot<D: Disk>(&self, world: &World<D>, at: u32) -> Option<u32>
        requires fits { IsAtSpot world.now (self.now, at) }
        ensures { result ≡ own_slot world.now.maps (self.now, at) }
    {
        match self.own() {
            None => None,
            Some(map) => world.maps.get(map, at),
        }
    }

    /// What the object shows at a place that has no slot of its own.
    pub(crate) fn object_page<D: Disk>(&self, world: &World<D>, at: u32) -> Shown
        requires within { at < self.now.pages }
        requires empty { own_slot world.now.maps (self.now, at) ≡ None }
        requires fits { IsAtSpot world.now (self.now, at) }
        ensures shows { (spaces : Spaces) (p q : ℕ) → Fits world.now spaces
            → spot_at spaces p q ≡ Some (self.now, at)
            → ObjectShows (world_seen world.now) spaces (self.now, at) result }
    {
        let (object, index) = self.object(at);
        match object {
            Object::File(file) => {
                if index >= pages_in(world.files.info(file).length) {
                    return Shown::Past;
                }
                Shown::Page(PageName {
                    object: file,
                    page: index,
                })
            }
            Object::NewZero => {
                let Some(map) = self.own() else {
                    unreachable!();
                };
                Shown::Zeros(map, at)
            }
            Object::Zero(_) => {
                let Some(map) = self.shown() else {
                    unreachable!();
                };
                if index >= world.maps.pages(map) {
                    return Shown::Past;
                }
                match world.maps.get(map, index) {
                    None => Shown::Zeros(map, index),
                    Some(slot) => Shown::Page(PageName {
                        object: SWAP_OBJECT,
                        page: slot,
                    }),
                }
            }
        }
    }
}
