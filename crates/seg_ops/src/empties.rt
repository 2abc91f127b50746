//! Places of anon maps that are emptied.
ghost use Rattle.std.specs.Prelude.{◌≡◌, ◌≢◌, ◌<◌, ℕ, length, Some, None};
ghost use Rattle.page_store.specs.page_hash.declared.PageName.{PageName};
ghost use Rattle.page_store.specs.Seen.{residence};
ghost use Rattle.page_store.specs.Steps.{after_abort};
ghost use Rattle.vm_world.specs.anon_map.Maps.{IsMapThere, places_of};
ghost use Rattle.vm_world.specs.anon_slots.Slots.{count_at, with_count};
ghost use Rattle.vm_world.specs.Segments.{Spaces};
ghost use Rattle.vm_world.specs.Serving.{ModifiesNone};
ghost use Rattle.vm_world.specs.Words.{Fits, IsFit, OnlySlotsAndMaps, OnlyAnonymous};
ghost use Rattle.vm_world.specs.World.{world_seen, slot_name, slot_in};
ghost use Rattle.seg_ops.specs.Empties.{EmptiesPlace, IsUnloadedZero, LeavesSlot};
ghost use Rattle.seg_ops.specs.OwnPages.{OwnPagesLaw, OwnShownLaw};
ghost use Rattle.seg_ops.specs.Owners.{with_one_less, with_place, OwnerLoses, OwnerLeaves};

use page_store::{Disk, PageName, Residence, SWAP_OBJECT};
use vm_world::World;

/// Takes a slot out of a place, and counts it once less.
fn take_out<D: Disk>(world: &mut World<D>, map: u32, place: u32, slot: u32)
    requires there { IsMapThere world.old.maps map }
    requires within { place < length (places_of world.old.maps map) }
    requires holds { slot_in world.old.maps map place ≡ Some slot }
    requires fits { IsFit world.old }
    // The slot is counted once less, and the place is empty.
    ensures anon { world.new.anon ≡ with_one_less world.old.anon slot }
    ensures maps { world.new.maps ≡ with_place world.old.maps map place None }
    ensures leaves { LeavesSlot world.old.anon world.new.anon world.old.maps
        world.new.maps map place slot }
    // What stays.
    ensures rest { OnlySlotsAndMaps world.old world.new }
{
    world.anon.drop_one(slot);
    world.maps.set(map, place, None);
}

/// Empties a place of a private mapping's map, whose slot other places hold too. The page that the place is for has no
/// translation. Constant time.
pub fn leave_slot<D: Disk>(world: &mut World<D>, map: u32, place: u32, slot: u32)
    requires there { IsMapThere world.old.maps map }
    requires within { place < length (places_of world.old.maps map) }
    requires holds { slot_in world.old.maps map place ≡ Some slot }
    requires shared { 1 < count_at world.old.anon slot }
    requires fits { IsFit world.old }
    // The slot is counted once less, and the place is empty.
    ensures anon { world.new.anon ≡ with_one_less world.old.anon slot }
    ensures maps { world.new.maps ≡ with_place world.old.maps map place None }
    // What stays.
    ensures rest { OnlySlotsAndMaps world.old world.new }
    ensures empties { OwnerLeaves world.old world.new map place slot }
    // In flat memory the cell of that page loses its own page, and nothing else changes.
    ensures changes { OwnerLoses world.old world.new map place }
{
    take_out(world, map, place, slot);
}

/// Empties the one place that holds a slot, a private mapping's or a zero object's, and gives up the slot's page. The slot
/// is free then. The frame of its page comes free, or does at the end of its flight where the page is moving. No page
/// that the place is for has a translation. Constant expected time.
pub fn drop_slot<D: Disk>(world: &mut World<D>, map: u32, place: u32, slot: u32)
    requires there { IsMapThere world.old.maps map }
    requires within { place < length (places_of world.old.maps map) }
    requires holds { slot_in world.old.maps map place ≡ Some slot }
    requires alone { count_at world.old.anon slot ≡ 1 }
    requires fits { IsFit world.old }
    // The slot is free, the place is empty, and no frame has the slot's page.
    ensures anon { world.new.anon ≡ with_count world.old.anon slot 0 }
    ensures maps { world.new.maps ≡ with_place world.old.maps map place None }
    ensures store { world.new.store ≡ after_abort world.old.store (slot_name slot) }
    ensures absent { residence world.new.store (slot_name slot) ≡ Residence.Absent }
    // What stays.
    ensures stay { (name : PageName) → name ≢ slot_name slot
        → residence world.new.store name ≡ residence world.old.store name }
    ensures modified { ModifiesNone (world_seen world.old) (world_seen world.new) }
    ensures rest { OnlyAnonymous world.old world.new }
    ensures empties { OwnerLeaves world.old world.new map place slot }
    ensures zeros { (spaces : Spaces) (z : ℕ) → Fits world.old spaces
        → IsUnloadedZero world.old.hat.places spaces z map
        → EmptiesPlace (world_seen world.old) (world_seen world.new) spaces map place slot }
    // In flat memory the cell of that page loses its own page, and nothing else changes.
    ensures changes { OwnerLoses world.old world.new map place }
{
    take_out(world, map, place, slot);
    let page = PageName {
        object: SWAP_OBJECT,
        page: slot,
    };
    world.store.abort(page);
}

/// Flat memory as cells lose their own pages or get one.
#[tactic(auto, using(crate::proofs::OwnPageLaws::own_pages_law))]
pub fn own_pages_law()
    ensures { OwnPagesLaw }
{}

/// Flat memory as a private cell gets the page that it shows.
#[tactic(auto, using(crate::proofs::OwnShown::own_shown_law))]
pub fn own_shown_law()
    ensures { OwnShownLaw }
{}
