//! A page of anonymous memory that other places hold too is copied before it is written.
ghost use Rattle.std.specs.Prelude.{◌≡◌, ◌<◌, ◌-◌, length, true, Some, IsSome, IsTrue};
ghost use Rattle.page_store.specs.core_arena.Bytes.{zeros};
ghost use Rattle.page_store.specs.Seen.{residence};
ghost use Rattle.page_store.specs.Steps.{next_frame, after_fill};
ghost use Rattle.vm_world.specs.anon_map.Maps.{IsMapThere, places_of};
ghost use Rattle.vm_world.specs.anon_slots.Slots.{count_at, with_new_slot};
ghost use Rattle.vm_world.specs.Words.{SameFilesAndHat};
ghost use Rattle.vm_world.specs.World.{world_seen, slot_name, slot_in, is_unpushed};
ghost use Rattle.seg_ops.specs.Owners.{IsOwned, OwnerBecomes, with_one_less, with_place, PageMade};
ghost use Rattle.seg_ops.specs.Copies.{HasBytes, IsFront, copied_bytes};
ghost use Rattle.seg_ops.specs.Frames.{next_cleared};

use crate::anon::{make_copy, make_zero};
use crate::empties::leave_slot;
use crate::sources::Front;
use page_store::{Disk, Residence};
use vm_world::World;

/// Gives a place of a private mapping's map, whose slot other places hold too, a slot of its own, with the bytes of the front of a
/// frame, which the page of that slot has, wherever it is. The page that the place is for has no translation. The name that the
/// next frame held is cut at its valid bytes. Time: one page, and as `AnonSlots::make`.
pub fn copy_slot<D: Disk>(
    world: &mut World<D>,
    front: Front,
    map: u32,
    place: u32,
    slot: u32,
) -> u32
    requires there { IsMapThere world.old.maps map }
    requires within { place < length (places_of world.old.maps map) }
    requires holds { slot_in world.old.maps map place ≡ Some slot }
    requires shared { 1 < count_at world.old.anon slot }
    requires bytes { HasBytes (world_seen world.old) (slot_name slot)
        (copied_bytes world.old.store front) }
    requires front { IsFront world.old.store front }
    requires available { IsSome (next_frame world.old.store) }
    requires owned { IsOwned world.old map place }
    // The old slot is counted once less, the new one is made for the place, and its page is home, in the frame that was taken;
    // the tail of the file whose last page lost the frame is pending.
    ensures anon { world.new.anon ≡ with_new_slot (with_one_less world.old.anon slot) result }
    ensures maps { world.new.maps ≡ with_place world.old.maps map place (Some result) }
    ensures store { world.new.store ≡ after_fill world.old.store (slot_name result)
        (copied_bytes world.old.store front) true }
    ensures made { PageMade world.old world.new result }
    // What stays.
    ensures rest { SameFilesAndHat world.old world.new }
    // Flat memory loses that tail, and nothing else changes.
    ensures changes { OwnerBecomes world.old world.new map place
        (λ p q F. next_cleared world.old F) }
{
    leave_slot(world, map, place, slot);
    make_copy(world, front, map, place)
}

/// Gives a place of a private mapping's map, whose slot other places hold too, a slot of its own with a page of zeros,
/// where that slot's page is zeros that no frame holds. The page that the place is for has no translation. The name that
/// the next frame held is cut at its valid bytes. Time: one page, and as `AnonSlots::make`.
pub fn zero_slot<D: Disk>(world: &mut World<D>, map: u32, place: u32, slot: u32) -> u32
    requires there { IsMapThere world.old.maps map }
    requires within { place < length (places_of world.old.maps map) }
    requires holds { slot_in world.old.maps map place ≡ Some slot }
    requires shared { 1 < count_at world.old.anon slot }
    requires absent { residence world.old.store (slot_name slot) ≡ Residence.Absent }
    requires blank { IsTrue (is_unpushed world.old.files world.old.anon (slot_name slot)) }
    requires available { IsSome (next_frame world.old.store) }
    requires owned { IsOwned world.old map place }
    // The old slot is counted once less, the new one is made for the place, and its page is home, in the frame that was taken;
    // the tail of the file whose last page lost the frame is pending.
    ensures anon { world.new.anon ≡ with_new_slot (with_one_less world.old.anon slot) result }
    ensures maps { world.new.maps ≡ with_place world.old.maps map place (Some result) }
    ensures store { world.new.store ≡ after_fill world.old.store (slot_name result) zeros true }
    ensures made { PageMade world.old world.new result }
    // What stays.
    ensures rest { SameFilesAndHat world.old world.new }
    // Flat memory loses that tail, and nothing else changes.
    ensures changes { OwnerBecomes world.old world.new map place
        (λ p q F. next_cleared world.old F) }
{
    leave_slot(world, map, place, slot);
    make_zero(world, map, place)
}
