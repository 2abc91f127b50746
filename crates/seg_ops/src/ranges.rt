//! Ranges of places of anon maps that are emptied.
ghost use Rattle.std.specs.Prelude.{◌≡◌, ◌<◌, ◌≤◌, ◌-◌, ℕ, length, None};
ghost use Rattle.vm_world.specs.anon_map.Maps.{IsMapThere, places_of, with_places};
ghost use Rattle.vm_world.specs.anon_slots.Slots.{count_at};
ghost use Rattle.vm_world.specs.CallSteps.{ChangesMemory};
ghost use Rattle.vm_world.specs.Segments.{Spaces};
ghost use Rattle.vm_world.specs.Serving.{ModifiesNone};
ghost use Rattle.vm_world.specs.Words.{memory, Fits, IsFit, OnlyAnonymous};
ghost use Rattle.vm_world.specs.World.{world_seen};
ghost use Rattle.seg_ops.specs.Empties.{EmptiesPlaces, IsUnloadedZero, OwnsPlaces, places_emptied};
ghost use Rattle.seg_ops.specs.OwnPages.{without_own_pages};
ghost use Rattle.seg_ops.specs.Owners.{with_place, KeepsHeldPages, OwnerLoses};

use crate::empties::{drop_slot, leave_slot};
use page_store::Disk;
use vm_world::World;

/// Empties a place, whether it holds a slot or not.
pub(crate) fn empty_place<D: Disk>(world: &mut World<D>, map: u32, place: u32)
    requires there { IsMapThere world.old.maps map }
    requires within { place < length (places_of world.old.maps map) }
    requires fits { IsFit world.old }
    // The place is empty, and nothing is reserved or given up.
    ensures maps { world.new.maps ≡ with_place world.old.maps map place None }
    ensures reserved { world.new.anon.reserved ≡ world.old.anon.reserved }
    // No slot is counted more often.
    ensures fall { (slot : ℕ) → count_at world.new.anon slot ≤ count_at world.old.anon slot }
    // What stays: each page of a file, and that of each slot that is still held, is where it was.
    ensures stay { KeepsHeldPages world.old world.new }
    ensures modified { ModifiesNone (world_seen world.old) (world_seen world.new) }
    ensures rest { OnlyAnonymous world.old world.new }
    // In flat memory the cell of its page loses its own page, and nothing else changes.
    ensures changes { OwnerLoses world.old world.new map place }
    // A zero object's is emptied alone.
    ensures zeros { (spaces : Spaces) (z : ℕ) → Fits world.old spaces
        → IsUnloadedZero world.old.hat.places spaces z map
        → EmptiesPlaces (world_seen world.old) (world_seen world.new) spaces map
        (λ i. i ≡ place) }
{
    let Some(slot) = world.maps.get(map, place) else {
        return;
    };
    if world.anon.count(slot) == 1 {
        drop_slot(world, map, place, slot);
    } else {
        leave_slot(world, map, place, slot);
    }
}

/// Empties the places of a private mapping's map from one on, up to another. The pages that they are for have no
/// translation. Time: the places.
pub fn drop_places<D: Disk>(world: &mut World<D>, map: u32, from: u32, end: u32)
    requires there { IsMapThere world.old.maps map }
    requires range { from ≤ end }
    requires within { end ≤ length (places_of world.old.maps map) }
    requires owned { (spaces : Spaces) × (p : ℕ) × (first : ℕ) × Fits world.old spaces
        × OwnsPlaces world.old.hat.places spaces p first map from (end - from) }
    // The places are empty, and nothing is reserved or given up.
    ensures maps { world.new.maps ≡ with_places world.old.maps map
        (places_emptied (places_of world.old.maps map) from (end - from)) }
    ensures reserved { world.new.anon.reserved ≡ world.old.anon.reserved }
    // No slot is counted more often.
    ensures fall { (slot : ℕ) → count_at world.new.anon slot ≤ count_at world.old.anon slot }
    // What stays: each page of a file, and that of each slot that is still held, is where it was.
    ensures stay { KeepsHeldPages world.old world.new }
    ensures modified { ModifiesNone (world_seen world.old) (world_seen world.new) }
    ensures rest { OnlyAnonymous world.old world.new }
    // In flat memory the cells of their pages lose their own pages, and nothing else changes.
    ensures changes { (spaces : Spaces) (p first : ℕ) → Fits world.old spaces
        → OwnsPlaces world.old.hat.places spaces p first map from (end - from)
        → ChangesMemory p (memory world.old spaces) (memory world.new spaces)
        (λ F. without_own_pages F p first (end - from)) }
{
    for place in from..end {
        empty_place(world, map, place);
    }
}
