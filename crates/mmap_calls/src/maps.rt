//! Map.
ghost use Rattle.std.specs.Prelude.{◌≡◌, ◌<◌, ◌≤◌, ◌+◌, ◌-◌, ◌^◌, ◌++◌, ℕ, length, replicate, IfOk, OnErr, IsSome, Some, None, vec_capacity, Option};
ghost use Rattle.seg_vn.specs.anon_map.Maps.{IsMapThere, IsUnused, free_numbers, holders_of};
ghost use Rattle.seg_vn.specs.flat_model.Mapping.{with_mapping};
ghost use Rattle.seg_vn.specs.flat_model.Words.{page};
ghost use Rattle.seg_vn.specs.vm_world.MapSteps.{maps_made, maps_held};
ghost use Rattle.seg_vn.specs.vm_world.Words.{SameFilesAndTails};
ghost use Rattle.seg_vn.specs.vm_world.ZeroObjects.{AreSameZeros, free_number};
ghost use Rattle.seg_vn.specs.Clears.{MayBeAlive, MayBeSpace, SpaceBecomes};
ghost use Rattle.seg_vn.specs.Words.{OnlyReserves, with_maps_and_reserved};
ghost use Rattle.mmap_calls.specs.Answers.{CountsFall, IsAnswered, NoneModified, OnlyNumbers};
ghost use Rattle.mmap_calls.specs.Refusals.{IsMapRequest, IsMappingOf, IsRefused, map_call, map_request, slots_for_map};
ghost use Rattle.mmap_calls.specs.Rooms.{HasRoomAt, AreMade};

use crate::cuts::{check_holders, cut, room_at};
use crate::refusals::{MapRequest, NewMapping, new_mapping, refusal, slots_for_pages};
use seg_vn::{Disk, Kind, Object, PAGE_SIZE, Ranges, Reply, Segment, VnSeg, World, clear, page_of};
use std::alloc::AllocError;

/// The room that a mapping needs: for the later places of the pieces that go across the ends of its range, and for the places
/// of its own new map.
struct Rooms {
    begin: Vec<Option<u32>>,
    end: Vec<Option<u32>>,
    places: Vec<Option<u32>>,
}

/// The object of a new piece, and its anon maps: its own one, and that of the zero object that it shows.
struct Anons {
    object: Object,
    own: Option<u32>,
    shown: Option<u32>,
}

// Takes all the room for a mapping. The only error is want of memory, or of numbers; then nothing changed, but that a number of
// a zero object may be free.
fn take_rooms<D: Disk>(
    world: &mut World<D>,
    space: &mut Ranges<VnSeg>,
    map: &NewMapping,
) -> Result<Rooms, AllocError>
    requires fits { MayBeSpace world.old space.old.parts }
    requires mapping { IsMappingOf world.old map.now }
    // What is taken.
    ensures begin { IfOk result (λ rooms. HasRoomAt rooms.begin.items (vec_capacity rooms.begin) 3
        world.old.maps space.old.parts map.now.first) }
    ensures end { IfOk result (λ rooms. HasRoomAt rooms.end.items (vec_capacity rooms.end) 3
        world.old.maps space.old.parts (map.now.first + map.now.pages)) }
    ensures places { IfOk result (λ rooms. rooms.places.items
        ≡ replicate (slots_for_map map.now) None) }
    ensures numbers { IfOk result (λ rooms. 3 ≤ free_numbers world.new.maps) }
    ensures spare { IfOk result (λ rooms. 3 ≤ space.new.spare) }
    ensures object { IfOk result (λ rooms. IsSome (free_number world.new.zeros)) }
    ensures few { IfOk result (λ rooms. (number : ℕ) → map.now.held ≡ Some number
        → holders_of world.old.maps number + 3 < 2 ^ 32) }
    // The numbers are all that changes.
    ensures more { IfOk result (λ rooms. (more : ℕ) × (world.new ≡ record world.old {
      maps = world.old.maps ++ replicate more None;
      zeros = world.new.zeros;
    })) }
    ensures zeros { AreSameZeros world.old.zeros world.new.zeros }
    ensures parts { space.new.parts ≡ space.old.parts }
    ensures err { OnErr result (world.new ≡ record world.old { zeros = world.new.zeros }) }
{
    check_holders(world, map.held)?;
    let begin = room_at(world, space, map.first)?;
    let end = room_at(world, space, map.first + map.pages)?;
    let slots = slots_for_pages(map.request.kind, map.request.object, map.pages);
    let places = world.maps.no_slots(slots)?;
    space.reserve(3)?;
    world.zeros.reserve()?;
    world.maps.reserve(3)?;
    Ok(Rooms { begin, end, places })
}

// One holder more of a map, if there is one.
fn hold<D: Disk>(world: &mut World<D>, map: Option<u32>)
    requires there { (number : ℕ) → map ≡ Some number → IsMapThere world.old.maps number
        × (holders_of world.old.maps number < 2 ^ 32 - 1) }
    ensures held { world.new ≡ record world.old { maps = maps_held world.old.maps map } }
    ensures free { free_numbers world.new.maps ≡ free_numbers world.old.maps }
{
    if let Some(number) = map {
        world.maps.hold(number);
    }
}

// A new map with these places, and the slots that it reserves.
fn make_map<D: Disk>(world: &mut World<D>, pages: u32, places: Vec<Option<u32>>) -> u32
    requires places { places.items ≡ replicate pages None }
    requires numbers { 0 < free_numbers world.old.maps }
    requires room { world.old.anon.reserved + pages ≤ length world.old.anon.counts }
    ensures unused { IsUnused world.old.maps result }
    ensures new { world.new ≡ with_maps_and_reserved world.old
        (maps_made world.old.maps (Some result) pages) (world.old.anon.reserved + pages) }
{
    let Ok(()) = world.anon.reserve(pages) else {
        unreachable!();
    };
    world.maps.put(places)
}

// The anon maps of a mapping: a private one gets an own one, shared new zero memory that of a new zero object; and another zero
// object has the map that is held for it.
fn make_anons<D: Disk>(world: &mut World<D>, map: &NewMapping, places: Vec<Option<u32>>) -> Anons
    requires places { places.items ≡ replicate (slots_for_map map.now) None }
    requires numbers { 0 < free_numbers world.old.maps }
    requires object { IsSome (free_number world.old.zeros) }
    requires room { world.old.anon.reserved + slots_for_map map.now
        ≤ length world.old.anon.counts }
    // The new maps and the list of zero objects; and what stays.
    ensures made { AreMade world.old.maps world.new.maps world.old.zeros world.new.zeros
        map.now.held map.now.pages map.now.request.kind map.now.request.object result }
    ensures rest { OnlyReserves world.old world.new (slots_for_map map.now) }
{
    match (map.request.kind, map.request.object) {
        (Kind::Private, object) => Anons {
            object,
            own: Some(make_map(world, map.pages, places)),
            shown: map.held,
        },
        (Kind::Shared, Object::NewZero) => {
            let number = make_map(world, map.pages, places);
            Anons {
                object: Object::Zero(world.zeros.add(number)),
                own: None,
                shown: Some(number),
            }
        }
        (Kind::Shared, object) => Anons {
            object,
            own: None,
            shown: map.held,
        },
    }
}

// Puts the mapping in, in the place of what is mapped there. All room is taken first, so that where memory is wanting nothing
// changed. The map of a zero object that it names is held before the range is cleared, so that the object doesn't go with what
// is mapped there.
fn replace<D: Disk>(
    world: &mut World<D>,
    space: &mut Ranges<VnSeg>,
    process: u32,
    map: &NewMapping,
) -> Result<(), AllocError>
    requires request { IsMapRequest map.now.request }
    requires mapping { IsMappingOf world.old map.now }
    requires fits { MayBeAlive world.old process space.old.parts }
    requires due { IsRefused world.old space.old.parts map.now.request None }
    ensures done { IfOk result (λ _. SpaceBecomes world.old world.new process
        space.old.parts space.new.parts
        (λ F. with_mapping F process (map_request map.now.request) (page map.now.request.addr))) }
    ensures fall { IfOk result (λ _. CountsFall world.old world.new) }
    ensures modified { IfOk result (λ _. NoneModified world.old world.new) }
    // Where memory is wanting nothing changed, but that a number of a zero object may be free.
    ensures err { OnErr result (OnlyNumbers world.old world.new space.old.parts space.new.parts) }
    // What stays.
    ensures rest { SameFilesAndTails world.old world.new }
{
    let Rooms { begin, end, places } = take_rooms(world, space, map)?;
    let end_page = map.first + map.pages;
    cut(world, space, process, end_page, end);
    cut(world, space, process, map.first, begin);
    hold(world, map.held);
    clear(world, space, process, map.first, end_page);
    let Anons { object, own, shown } = make_anons(world, map, places);
    let segment = VnSeg::new(Segment {
        pages: map.pages,
        prot: map.request.prot,
        max: map.max,
        kind: map.request.kind,
        object,
        index: page_of(map.request.offset),
        own,
        shown,
    });
    space.insert(map.first, map.pages, segment);
    Ok(())
}

/// The reply to a Map at an address, which is done or refused. It takes its range from what is mapped there, which goes with its
/// translations, private pages, the zero objects that nothing else shows, and what is reserved for them. The only error is want
/// of memory, or of numbers. Time: the pages of the pieces that go or are cut and of the zero objects that go, a place for each
/// private page of the new piece, the numbers of the process's pieces and of zero objects.
pub(crate) fn map<D: Disk>(
    world: &mut World<D>,
    space: &mut Ranges<VnSeg>,
    process: u32,
    request: &MapRequest,
) -> Result<Reply, AllocError>
    requires request { IsMapRequest request.now }
    requires fits { MayBeAlive world.old process space.old.parts }
    ensures done { IfOk result (IsAnswered world.old world.new process space.old.parts
        space.new.parts (map_call request.now)) }
    ensures fall { IfOk result (λ _. CountsFall world.old world.new) }
    // Where memory is wanting nothing changed, but that a number of a zero object may be free.
    ensures err { OnErr result (OnlyNumbers world.old world.new space.old.parts space.new.parts) }
    // What stays.
    ensures rest { SameFilesAndTails world.old world.new }
{
    let wanted = match new_mapping(world, request) {
        Ok(wanted) => wanted,
        Err(errno) => return Ok(Reply::Refused(errno)),
    };
    if let Some(errno) = refusal(world, space, &wanted)? {
        return Ok(Reply::Refused(errno));
    }
    replace(world, space, process, &wanted)?;
    Ok(Reply::Mapped(wanted.first * PAGE_SIZE))
}
