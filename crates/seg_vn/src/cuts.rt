//! Segments that are cut in two.
ghost use Rattle.std.specs.Prelude.{◌≡◌, ◌≢◌, ◌≤◌, ◌<◌, ◌-◌, ◌+◌, ◌^◌, ℕ, [], length, Some, IsSome, IfOk, OnErr, option_map, vec_capacity};
ghost use Rattle.seg_ops.specs.anon_map.Maps.{IsMapThere, IsUnused, places_of, holders_of, free_numbers};
ghost use Rattle.seg_ops.specs.vm_world.MapSteps.{maps_cut, maps_held};
ghost use Rattle.seg_ops.specs.vm_world.Words.{OnlyMaps};
ghost use Rattle.seg_ops.specs.vm_world.World.{world_seen};
ghost use Rattle.seg_vn.specs.Cuts.{IsCutInTwo, MayBeCut};

use crate::segment::VnSeg;
use seg_ops::{Disk, Segment, World};
use std::alloc::AllocError;

// Cuts a segment's own map, if it has one, and answers the new map, which has the later places.
fn cut_own<D: Disk>(
    world: &mut World<D>,
    own: Option<u32>,
    at: u32,
    room: Vec<Option<u32>>,
) -> Option<u32>
    requires there { (map : ℕ) → own ≡ Some map → IsMapThere world.old.maps map
        × (holders_of world.old.maps map ≡ 1) × (at ≤ length (places_of world.old.maps map))
        × (length (places_of world.old.maps map) - at ≤ vec_capacity room) }
    requires some { 0 < free_numbers world.old.maps }
    requires empty { room.items ≡ [] }
    ensures cut { (number : ℕ)
        × (result ≡ option_map (λ (map : ℕ). number) own)
        × (IsSome own → IsUnused world.old.maps number)
        × (world.new ≡ record world.old { maps = maps_cut world.old.maps own number at }) }
    ensures free { free_numbers world.old.maps ≤ free_numbers world.new.maps + 1 }
{
    let map = own?;
    Some(world.maps.cut_into(map, at, room))
}

// One holder more of the map of a zero object, if there is one.
pub(crate) fn hold_shown<D: Disk>(world: &mut World<D>, shown: Option<u32>)
    requires there { (map : ℕ) → shown ≡ Some map → IsMapThere world.old.maps map
        × (holders_of world.old.maps map < 2 ^ 32 - 1) }
    ensures held { world.new ≡ record world.old { maps = maps_held world.old.maps shown } }
    ensures free { free_numbers world.new.maps ≡ free_numbers world.old.maps }
{
    if let Some(map) = shown {
        world.maps.hold(map);
    }
}

impl VnSeg {
    /// Cuts a segment in two: its first pages stay, and the result has the others, with the later places of its own map, if it
    /// has one, in room that was taken before. Both show its zero object, if it shows one. Takes no memory. Time: the places
    /// that go over.
    pub fn cut_into<D: Disk>(
        &mut self,
        world: &mut World<D>,
        at: u32,
        room: Vec<Option<u32>>,
    ) -> VnSeg
        requires some { 0 < at }
        requires below { at < self.old.pages }
        requires may { MayBeCut world.old.maps self.old }
        requires free { 0 < free_numbers world.old.maps }
        requires empty { room.items ≡ [] }
        requires roomy { IsSome self.old.own → self.old.pages - at ≤ vec_capacity room }
        ensures cut { IsCutInTwo (world_seen world.old) (world_seen world.new)
            self.old self.new result at }
        // At most one number is used; no map has more than one holder more; and each but its own keeps its places.
        ensures numbers { free_numbers world.old.maps ≤ free_numbers world.new.maps + 1 }
        ensures unused { (number : ℕ) → result.own ≡ Some number
            → IsUnused world.old.maps number }
        ensures held { (number : ℕ)
            → holders_of world.new.maps number ≤ holders_of world.old.maps number + 1 }
        ensures lengths { (number : ℕ) → self.old.own ≢ Some number
            → IsMapThere world.old.maps number → length (places_of world.new.maps number)
            ≡ length (places_of world.old.maps number) }
        // What stays.
        ensures rest { OnlyMaps world.old world.new }
    {
        let whole = self.segment;
        let own = cut_own(world, whole.own, at, room);
        hold_shown(world, whole.shown);
        self.segment.pages = at;
        VnSeg {
            segment: Segment {
                pages: whole.pages - at,
                index: whole.index + at,
                own,
                ..whole
            },
        }
    }

    /// Room for the places of its own map, if it has one, from a place on, for `cut_into`. The only error is want of memory.
    pub fn room_from<D: Disk>(
        &self,
        world: &World<D>,
        at: u32,
    ) -> Result<Vec<Option<u32>>, AllocError>
        requires { at ≤ self.now.pages }
        ensures empty { IfOk result (λ room. room.items ≡ []) }
        ensures roomy { IfOk result
            (λ room. IsSome self.now.own → self.now.pages - at ≤ vec_capacity room) }
    {
        match self.segment.own {
            Some(_) => world.maps.room(self.segment.pages - at),
            None => world.maps.room(0),
        }
    }

    /// Cuts a segment in two: its first pages stay, and the result has the others, with the later places of its own map, if it
    /// has one. Both show its zero object, if it shows one. The only error is want of memory, or of numbers; then nothing
    /// changed. Time: the places that go over.
    pub fn cut<D: Disk>(&mut self, world: &mut World<D>, at: u32) -> Result<VnSeg, AllocError>
        requires some { 0 < at }
        requires below { at < self.old.pages }
        requires may { MayBeCut world.old.maps self.old }
        ensures cut { IfOk result (λ upper. IsCutInTwo (world_seen world.old)
            (world_seen world.new) self.old self.new upper at) }
        ensures err { OnErr result ((world.new ≡ world.old) × (self.new ≡ self.old)) }
        // What stays.
        ensures rest { OnlyMaps world.old world.new }
    {
        let room = self.room_from(world, at)?;
        world.maps.reserve(1)?;
        Ok(self.cut_into(world, at, room))
    }
}
