//! Zero objects that nothing shows any more.
ghost use Rattle.std.specs.Prelude.{◌≡◌, ◌<◌, ◌≤◌, ℕ, length, replicate, None};
ghost use Rattle.vm_world.specs.anon_map.Maps.{IsMapThere, places_of, with_places};
ghost use Rattle.vm_world.specs.anon_slots.Slots.{count_at};
ghost use Rattle.vm_world.specs.CallSteps.{ChangesMemory};
ghost use Rattle.vm_world.specs.SegmentSteps.{with_zero_object};
ghost use Rattle.vm_world.specs.Segments.{Spaces};
ghost use Rattle.vm_world.specs.Serving.{ModifiesNone};
ghost use Rattle.vm_world.specs.Words.{memory, Fits, OnlyAnonymous};
ghost use Rattle.vm_world.specs.World.{world_seen};
ghost use Rattle.seg_ops.specs.Empties.{IsUnloadedZero};
ghost use Rattle.seg_ops.specs.Owners.{KeepsHeldPages};

use crate::ranges::empty_place;
use page_store::Disk;
use vm_world::World;

/// Empties the map of a zero object: its slots are free, and their pages are given up, each frame at once, or at the end of
/// its flight where its page is moving. No page that shows the object has a translation. Time: the map's places.
pub fn drop_object<D: Disk>(world: &mut World<D>, map: u32)
    requires there { IsMapThere world.old.maps map }
    requires shown { (spaces : Spaces) × (z : ℕ) × Fits world.old spaces
        × IsUnloadedZero world.old.hat.places spaces z map }
    // The places are empty, and nothing is reserved or given up.
    ensures maps { world.new.maps ≡ with_places world.old.maps map
        (replicate (length (places_of world.old.maps map)) None) }
    ensures reserved { world.new.anon.reserved ≡ world.old.anon.reserved }
    // No slot is counted more often.
    ensures fall { (slot : ℕ) → count_at world.new.anon slot ≤ count_at world.old.anon slot }
    // What stays: each page of a file, and that of each slot that is still held, is where it was.
    ensures stay { KeepsHeldPages world.old world.new }
    ensures modified { ModifiesNone (world_seen world.old) (world_seen world.new) }
    ensures rest { OnlyAnonymous world.old world.new }
    // In flat memory the zero object is zeros, and nothing else changes.
    ensures changes { (spaces : Spaces) (p z : ℕ) → Fits world.old spaces
        → IsUnloadedZero world.old.hat.places spaces z map
        → ChangesMemory p (memory world.old spaces) (memory world.new spaces)
        (λ F. with_zero_object F z (length (places_of world.old.maps map))) }
{
    for place in 0..world.maps.pages(map) {
        empty_place(world, map, place);
    }
}
