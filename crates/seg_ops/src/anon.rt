//! Pages of anonymous memory: a slot is made for an empty place of an anon map, with its page.
ghost use Rattle.std.specs.Prelude.{◌≡◌, ◌<◌, ℕ, length, true, Some, None, IsSome};
ghost use Rattle.page_store.specs.core_arena.Bytes.{zeros};
ghost use Rattle.vm_world.specs.hat_layer.Pool.{translation_at};
ghost use Rattle.page_store.specs.page_hash.Names.{is_name};
ghost use Rattle.page_store.specs.Steps.{next_frame, next_name, after_fill};
ghost use Rattle.vm_world.specs.anon_map.Maps.{IsMapThere, places_of};
ghost use Rattle.vm_world.specs.anon_slots.Slots.{with_new_slot};
ghost use Rattle.vm_world.specs.CallSteps.{ChangesMemory};
ghost use Rattle.vm_world.specs.Segments.{Spaces, Spot};
ghost use Rattle.vm_world.specs.Words.{memory, Fits, IsFit, SameFilesAndHat};
ghost use Rattle.vm_world.specs.World.{world_seen, slot_name, slot_in};
ghost use Rattle.seg_ops.specs.Copies.{IsFront, copied_bytes};
ghost use Rattle.seg_ops.specs.Slots.{MakesPage, IsNewZero, OwnsAlone, PlacesLaw, with_own_page};
ghost use Rattle.seg_ops.specs.Owners.{OwnerBecomes, with_place, PageMade};
ghost use Rattle.seg_ops.specs.Frames.{next_cleared};

use crate::sources::Front;
use crate::tails::pend_tail;
use page_store::{Disk, PageName, SWAP_OBJECT};
use vm_world::World;

/// Makes a slot with a page of zeros for an empty place of an anon map: one of new zero memory, of a zero object, or of a
/// private page that has no translation. The name that the next frame held is cut at its valid bytes. Time: one page, and as `AnonSlots::make`.
pub fn make_zero<D: Disk>(world: &mut World<D>, map: u32, place: u32) -> u32
    requires there { IsMapThere world.old.maps map }
    requires within { place < length (places_of world.old.maps map) }
    requires empty { slot_in world.old.maps map place ≡ None }
    requires available { IsSome (next_frame world.old.store) }
    requires fits { IsFit world.old }
    // The slot is made for the place, and its page is home, in the frame that was taken; the tail of the file whose last page
    // lost the frame is pending.
    ensures anon { world.new.anon ≡ with_new_slot world.old.anon result }
    ensures maps { world.new.maps ≡ with_place world.old.maps map place (Some result) }
    ensures store { world.new.store ≡ after_fill world.old.store (slot_name result) zeros true }
    ensures made { PageMade world.old world.new result }
    // What stays.
    ensures rest { SameFilesAndHat world.old world.new }
    ensures makes { (spaces : Spaces) → Fits world.old spaces → IsNewZero spaces map place
        → MakesPage (world_seen world.old) (world_seen world.new) spaces
        (is_name (next_name world.old.store)) map place result zeros }
    // Flat memory loses that tail, and nothing else changes: the place showed zeros before.
    ensures changes { (spaces : Spaces) (p : ℕ) → Fits world.old spaces
        → IsNewZero spaces map place
        → ChangesMemory p (memory world.old spaces) (memory world.new spaces)
        (λ F. next_cleared world.old F) }
    // Where the place is a private page's, without a translation, that gets a page of zeros of its own.
    ensures owned { OwnerBecomes world.old world.new map place
        (λ p q F. next_cleared world.old (with_own_page F p q zeros)) }
{
    let lost = world.store.next_name();
    let slot = world.anon.make();
    world.maps.set(map, place, Some(slot));
    world.store.fill_zero(PageName {
        object: SWAP_OBJECT,
        page: slot,
    });
    pend_tail(world, lost);
    slot
}

/// Makes a slot for an empty place of a private mapping's map, with the bytes of the front of a frame: the page that the place is
/// for, which has no translation, gets a page of its own. The name that the next frame held is cut at its valid bytes. Time: one
/// page, and as `AnonSlots::make`; where the frame is the next one its bytes aren't copied.
pub fn make_copy<D: Disk>(world: &mut World<D>, front: Front, map: u32, place: u32) -> u32
    requires there { IsMapThere world.old.maps map }
    requires within { place < length (places_of world.old.maps map) }
    requires empty { slot_in world.old.maps map place ≡ None }
    requires front { IsFront world.old.store front }
    requires available { IsSome (next_frame world.old.store) }
    requires fits { IsFit world.old }
    // The slot is made for the place, and its page is home, in the frame that was taken; the tail of the file whose last page
    // lost the frame is pending.
    ensures anon { world.new.anon ≡ with_new_slot world.old.anon result }
    ensures maps { world.new.maps ≡ with_place world.old.maps map place (Some result) }
    ensures store { world.new.store ≡ after_fill world.old.store (slot_name result)
        (copied_bytes world.old.store front) true }
    ensures made { PageMade world.old world.new result }
    // What stays.
    ensures rest { SameFilesAndHat world.old world.new }
    ensures makes { (spaces : Spaces) (p q : ℕ) (x : Spot) → Fits world.old spaces
        → OwnsAlone spaces p q map place x → translation_at world.old.hat.places p q ≡ None
        → MakesPage (world_seen world.old) (world_seen world.new) spaces
        (is_name (next_name world.old.store)) map place result
        (copied_bytes world.old.store front) }
    // In flat memory the cell of that page gets a page of its own, and the tail is lost.
    ensures changes { OwnerBecomes world.old world.new map place
        (λ p q F. next_cleared world.old (with_own_page F p q
        (copied_bytes world.old.store front))) }
{
    let lost = world.store.next_name();
    let slot = world.anon.make();
    world.maps.set(map, place, Some(slot));
    let name = PageName {
        object: SWAP_OBJECT,
        page: slot,
    };
    world.store.fill_from(name, front.frame, front.valid);
    pend_tail(world, lost);
    slot
}

/// Whose own place a place of an anon map is, where memory fits.
#[tactic(auto, using(crate::proofs::SlotOwners::places_law))]
pub fn places_law()
    ensures { PlacesLaw }
{}
