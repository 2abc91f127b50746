//! Segments that are copied for another process.
ghost use Rattle.std.specs.Prelude.{◌≡◌, ◌<◌, ◌≤◌, ◌+◌, ◌^◌, ◌-◌, ℕ, [], ◌∷◌, length, option_map, Some, None, IsSome, vec_capacity};
ghost use Rattle.seg_ops.specs.anon_map.Maps.{IsMapThere, IsUnused, free_numbers, holders_of, places_of};
ghost use Rattle.seg_ops.specs.anon_slots.Slots.{IsHeldSlot, count_at};
ghost use Rattle.seg_ops.specs.vm_world.ForkSteps.{CountsMore, maps_copied, slots_held};
ghost use Rattle.seg_ops.specs.vm_world.Segments.{Spaces};
ghost use Rattle.seg_ops.specs.vm_world.Serving.{ModifiesNone};
ghost use Rattle.seg_ops.specs.vm_world.Words.{Fits, KeepsEveryPage, KeepsPages, OnlyHat};
ghost use Rattle.seg_ops.specs.vm_world.World.{world_seen, slot_in};
ghost use Rattle.seg_ops.specs.Writers.{HasNoWriter, WritersStay};
ghost use Rattle.seg_vn.specs.Copied.{AreProtected, HasNoWriters, IsCopied, KeepsPlaces};
ghost use Rattle.seg_vn.specs.Cuts.{IsPartAt};
ghost use Rattle.seg_vn.specs.Words.{IsPart, OnlyCopies, slots_for_segment, with_map_copied};

use crate::cuts::hold_shown;
use crate::segment::VnSeg;
use seg_ops::{AnonSlots, Disk, Segment, World, protect};

// Counts a slot once more, if there is one.
fn count_more(anon: &mut AnonSlots, slot: Option<u32>)
    requires used { (s : ℕ) → slot ≡ Some s → IsHeldSlot anon.old s }
    requires few { (s : ℕ) → slot ≡ Some s → count_at anon.old s < 2 ^ 32 - 1 }
    ensures more { CountsMore anon.old.counts anon.new.counts (slot ∷ []) }
    ensures rest { anon.new ≡ record anon.old { counts = anon.new.counts } }
{
    if let Some(slot) = slot {
        anon.dup(slot);
    }
}

// A new map that holds the slots of another, in room that was taken before; each slot is counted once more, and as many slots
// more are reserved. Takes no memory. Time: the places.
fn copy_map<D: Disk>(world: &mut World<D>, map: u32, room: Vec<Option<u32>>) -> u32
    requires there { IsMapThere world.old.maps map }
    requires numbers { 0 < free_numbers world.old.maps }
    requires empty { room.items ≡ [] }
    requires roomy { length (places_of world.old.maps map) ≤ vec_capacity room }
    requires used { (i s : ℕ) → slot_in world.old.maps map i ≡ Some s
        → IsHeldSlot world.old.anon s }
    requires few { (s : ℕ) → count_at world.old.anon s
        + length (places_of world.old.maps map) < 2 ^ 32 }
    requires room { world.old.anon.reserved + length (places_of world.old.maps map)
        ≤ length world.old.anon.counts }
    // The map and its slots.
    ensures unused { IsUnused world.old.maps result }
    ensures more { CountsMore world.old.anon.counts world.new.anon.counts
        (places_of world.old.maps map) }
    ensures new { world.new ≡ with_map_copied world.old world.new.anon.counts map result }
    ensures free { free_numbers world.new.maps + 1 ≡ free_numbers world.old.maps }
{
    let pages = world.maps.pages(map);
    let Ok(()) = world.anon.reserve(pages) else {
        unreachable!();
    };
    let mut places = room;
    for place in 0..pages {
        let slot = world.maps.get(map, place);
        count_more(&mut world.anon, slot);
        places.push_reserved(slot);
    }
    world.maps.put(places)
}

// Takes the right to write from the translation of a page whose place holds a slot.
fn protect_place<D: Disk>(world: &mut World<D>, map: u32, place: u32, space: u32, page: u32)
    requires there { IsMapThere world.old.maps map }
    requires within { place < length (places_of world.old.maps map) }
    ensures none { (slot : ℕ) → slot_in world.old.maps map place ≡ Some slot
        → HasNoWriter world.new.hat.places space page }
    ensures stay { WritersStay world.old.hat.places world.new.hat.places }
    // What stays.
    ensures rest { OnlyHat world.old world.new }
    ensures modified { ModifiesNone (world_seen world.old) (world_seen world.new) }
    ensures keeps { KeepsEveryPage world.old world.new }
{
    if world.maps.get(map, place).is_some() {
        protect(world, space, page);
    }
}

// Takes the right to write from the translations of the pages whose places hold slots. Time: the places.
fn protect_places<D: Disk>(world: &mut World<D>, map: u32, space: u32, first: u32)
    requires there { IsMapThere world.old.maps map }
    requires within { first + length (places_of world.old.maps map) ≤ 0x80000 }
    ensures none { AreProtected world.new.hat.places world.old.maps map space first
        (length (places_of world.old.maps map)) }
    ensures stay { WritersStay world.old.hat.places world.new.hat.places }
    // What stays.
    ensures rest { OnlyHat world.old world.new }
    ensures modified { ModifiesNone (world_seen world.old) (world_seen world.new) }
    ensures keeps { KeepsEveryPage world.old world.new }
{
    for place in 0..world.maps.pages(map) {
        protect_place(world, map, place, space, first + place);
    }
}

// The copy of a segment's own map, if it has one; no translation of its pages may write then.
fn copy_own<D: Disk>(
    world: &mut World<D>,
    segment: Segment,
    space: u32,
    first: u32,
    room: Vec<Option<u32>>,
) -> Option<u32>
    requires part { IsPart world.old space first segment }
    requires numbers { 0 < free_numbers world.old.maps }
    requires empty { room.items ≡ [] }
    requires roomy { IsSome segment.own → segment.pages ≤ vec_capacity room }
    requires room { world.old.anon.reserved + slots_for_segment first segment
        ≤ length world.old.anon.counts }
    // The right to write is taken from translations, which changes no page; and then the map is copied.
    ensures copied { (number : ℕ) × (result ≡ option_map (λ (map : ℕ). number) segment.own)
        × (IsSome segment.own → IsUnused world.old.maps number)
        × (world.new.maps ≡ maps_copied world.old.maps segment.own number) }
    ensures numbers { free_numbers world.old.maps ≤ free_numbers world.new.maps + 1 }
    ensures more { CountsMore world.old.anon.counts world.new.anon.counts
        (slots_held world.old.maps segment.own) }
    ensures alike { segment.own ≡ None → world.new.anon.counts ≡ world.old.anon.counts }
    ensures writers { (spaces : Spaces)
        → IsPartAt (world_seen world.old) spaces space first segment
        → HasNoWriters world.new.hat.places spaces segment.own }
    ensures modified { ModifiesNone (world_seen world.old) (world_seen world.new) }
    ensures rest { OnlyCopies world.old world.new (slots_for_segment first segment) }
    ensures keeps { (spaces : Spaces) → Fits world.old spaces
        → KeepsPages (world_seen world.old)
        (record (world_seen world.old) { hat = world.new.hat }) spaces }
{
    let map = segment.own?;
    protect_places(world, map, space, first);
    Some(copy_map(world, map, room))
}

impl VnSeg {
    /// A copy of the segment, which begins with this page of the process, for another process, at the same pages: it shows what
    /// the segment does, its private pages until one of both is written to. Its own map takes room that was taken before. Takes no
    /// memory. Time: its pages, where it is private; else constant.
    pub fn dup_into<D: Disk>(
        &self,
        world: &mut World<D>,
        space: u32,
        first: u32,
        room: Vec<Option<u32>>,
    ) -> VnSeg
        requires part { IsPart world.old space first self.now }
        requires numbers { 0 < free_numbers world.old.maps }
        requires empty { room.items ≡ [] }
        requires roomy { IsSome self.now.own → self.now.pages ≤ vec_capacity room }
        requires few { (map : ℕ) → self.now.shown ≡ Some map
            → holders_of world.old.maps map < 2 ^ 32 - 1 }
        requires room { world.old.anon.reserved + slots_for_segment first self.now
            ≤ length world.old.anon.counts }
        ensures copied { IsCopied (world_seen world.old) (world_seen world.new) space first
            self.now result }
        // Each slot of its own map is counted once more, and as many slots more are reserved as it reserves.
        ensures counted { CountsMore world.old.anon.counts world.new.anon.counts
            (slots_held world.old.maps self.now.own) }
        // At most one number is used, and each map keeps its places.
        ensures numbers { free_numbers world.old.maps ≤ free_numbers world.new.maps + 1 }
        ensures kept { (number : ℕ) → IsMapThere world.old.maps number
            → KeepsPlaces world.old.maps world.new.maps number }
        // What stays.
        ensures modified { ModifiesNone (world_seen world.old) (world_seen world.new) }
        ensures rest { OnlyCopies world.old world.new (slots_for_segment first self.now) }
    {
        let segment = self.segment;
        let own = copy_own(world, segment, space, first, room);
        hold_shown(world, segment.shown);
        VnSeg {
            segment: Segment { own, ..segment },
        }
    }
}
