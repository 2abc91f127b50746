//! Segments that go from memory.
ghost use Rattle.std.specs.Prelude.{◌≡◌, ◌≤◌, ◌-◌, ℕ, Some, IsSome};
ghost use Rattle.seg_ops.specs.addr_space.Space.{without_part};
ghost use Rattle.seg_ops.specs.anon_map.Maps.{IsMapThere, AreEmpty, places_of, holders_of};
ghost use Rattle.seg_ops.specs.anon_slots.Slots.{slots_in_use};
ghost use Rattle.seg_ops.specs.flat_model.Mapping.{without_pages};
ghost use Rattle.seg_ops.specs.vm_world.MapSteps.{maps_released, places_released};
ghost use Rattle.seg_ops.specs.vm_world.Segments.{Spaces};
ghost use Rattle.seg_ops.specs.vm_world.Words.{OnlyAnonymous, SameFilesAndTails, SameFilesHatAndTails};
ghost use Rattle.seg_ops.specs.vm_world.World.{world_seen};
ghost use Rattle.seg_ops.specs.vm_world.ZeroObjects.{KnowsZeros, free_number};
ghost use Rattle.seg_vn.specs.Clears.{GivesBack};
ghost use Rattle.seg_vn.specs.Leaves.{IsUnloadedPart, LosesObject, LosesPart};
ghost use Rattle.seg_vn.specs.Words.{IsKnownPart, PartBecomes, with_maps_and_reserved};

use crate::segment::VnSeg;
use seg_ops::{Disk, Object, Segment, World, drop_object, drop_places};

// Empties the map of a segment's private pages, if it has one.
fn empty_own<D: Disk>(world: &mut World<D>, segment: Segment, space: u32, first: u32)
    requires part { (spaces : Spaces)
        × IsUnloadedPart (world_seen world.old) spaces space first segment }
    ensures own { (map : ℕ) → segment.own ≡ Some map
        → AreEmpty (places_of world.new.maps map) }
    ensures gives { GivesBack (world_seen world.old) (world_seen world.new) }
    ensures rest { OnlyAnonymous world.old world.new }
    ensures changes { LosesPart world.old world.new space first segment }
{
    if let Some(map) = segment.own {
        drop_places(world, map, 0, segment.pages);
    }
}

// Empties the map of the zero object that a segment shows, if no other segment shows it; then the object's number is free.
fn empty_shown<D: Disk>(world: &mut World<D>, segment: Segment, space: u32, first: u32)
    requires part { (spaces : Spaces)
        × IsUnloadedPart (world_seen world.old) spaces space first segment
        × KnowsZeros world.old.zeros spaces }
    ensures shown { (map : ℕ) → segment.shown ≡ Some map → holders_of world.new.maps map ≡ 1
        → AreEmpty (places_of world.new.maps map) }
    ensures still { (map : ℕ) → AreEmpty (places_of world.old.maps map)
        → AreEmpty (places_of world.new.maps map) }
    ensures list { LosesObject world.new.maps segment world.old.zeros world.new.zeros }
    ensures objects { IsSome (free_number world.old.zeros) → IsSome (free_number world.new.zeros) }
    ensures gives { GivesBack (world_seen world.old) (world_seen world.new) }
    // What stays.
    ensures rest { SameFilesHatAndTails world.old world.new }
    ensures changes { LosesPart world.old world.new space first segment }
{
    let Object::Zero(number) = segment.object else {
        return;
    };
    let Some(map) = segment.shown else {
        return;
    };
    if world.maps.holders(map) == 1 {
        drop_object(world, map);
        world.zeros.remove(number);
    }
}

// Gives up a hold of a map, if there is one. With its last holder the map goes, and what is reserved for its places.
fn release<D: Disk>(world: &mut World<D>, map: Option<u32>)
    requires there { (number : ℕ) → map ≡ Some number → IsMapThere world.old.maps number }
    requires empty { (number : ℕ) → map ≡ Some number → holders_of world.old.maps number ≡ 1
        → AreEmpty (places_of world.old.maps number) }
    requires room { places_released world.old.maps map
        ≤ world.old.anon.reserved - slots_in_use world.old.anon }
    ensures released { world.new ≡ with_maps_and_reserved world.old
        (maps_released world.old.maps map)
        (world.old.anon.reserved - places_released world.old.maps map) }
{
    let Some(number) = map else {
        return;
    };
    let places = world.maps.pages(number);
    if world.maps.release(number) {
        world.anon.unreserve(places);
    }
}

impl VnSeg {
    /// Takes a segment out of memory that begins with this page of the process: its translations, its private pages with
    /// their slots, its own map, and what is reserved for it; and the zero object that it shows, if no other segment shows it.
    /// Takes no memory. Time: its pages, and those of the zero object that goes.
    pub fn leave<D: Disk>(&mut self, world: &mut World<D>, space: u32, first: u32)
        requires part { IsKnownPart world.old space first self.old }
        // Memory fits without the part, and flat memory has none of its cells.
        ensures changes { PartBecomes world.old world.new space first self.old
            (without_part first) world.new.zeros
            (λ F. without_pages F space first self.old.pages) }
        ensures gives { GivesBack (world_seen world.old) (world_seen world.new) }
        ensures objects { IsSome (free_number world.old.zeros)
            → IsSome (free_number world.new.zeros) }
        // What stays.
        ensures segment { self.new ≡ self.old }
        ensures rest { SameFilesAndTails world.old world.new }
    {
        self.unmap(world, space, first);
        let segment = self.segment;
        empty_own(world, segment, space, first);
        empty_shown(world, segment, space, first);
        release(world, segment.own);
        release(world, segment.shown);
    }
}
