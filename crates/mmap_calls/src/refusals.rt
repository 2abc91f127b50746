//! When a Map is refused.
ghost use Rattle.std.specs.Prelude.{◌≡◌, ◌+◌, ◌≤◌, ◌^◌, ℕ, List, Option, None, Some, length, slice_index, slice_index_or, IsTrue, IfErr, IfOk};
ghost use Rattle.seg_vn.specs.addr_space.Space.{FindsGap, Part};
ghost use Rattle.seg_vn.specs.vm_types.Pages.{pages_in};
ghost use Rattle.seg_vn.specs.flat_model.Mapping.{is_valid, prot_read_write};
ghost use Rattle.seg_vn.specs.vm_world.World.{world_seen};
ghost use Rattle.seg_vn.specs.Clears.{MayBeSpace};
ghost use Rattle.seg_vn.specs.vm_world.declared.segment.Segment.{Segment};
ghost use Rattle.mmap_calls.specs.GivenUp.{given_up, pages_given};
ghost use Rattle.mmap_calls.specs.RangeCounts.{shown_within};
ghost use Rattle.mmap_calls.specs.Refusals.{IsGapless, IsMapRequest, IsMappingOf, IsRefused, any_request, is_object_there, map_of_object, map_request, most_allowed, slots_for_pages};

use crate::counts::count_range;
use bitflags::Flags;
use seg_vn::{
    Disk, Errno, Kind, Object, PAGE_SIZE, Prot, Ranges, VnSeg, World, is_range, page_of, pages_in,
};
use std::alloc::AllocError;

/// The most mapped pages of a process.
const MOST_PAGES: u32 = 65_536;

/// What a Map at an address asks for: lengths and offsets in bytes.
#[derive(Clone, Copy)]
pub(crate) struct MapRequest {
    pub addr: u32,
    pub length: u32,
    pub prot: Prot,
    pub kind: Kind,
    pub object: Object,
    pub offset: u32,
}

/// A Map that asks for a range and an object that are there, with what is worked out from it once: its first page and its number
/// of pages, the most that may ever be done there, and the map of the zero object that it names, if it names one.
#[derive(Clone, Copy)]
pub(crate) struct NewMapping {
    pub request: MapRequest,
    pub first: u32,
    pub pages: u32,
    pub max: Prot,
    pub held: Option<u32>,
}

// Whether the range is one, and the offset begins a page, and is 0 for new zero memory.
fn is_valid(map: &MapRequest) -> bool
    ensures { result ≡ is_valid (map_request map.now) }
{
    let begins = map.offset % PAGE_SIZE == 0;
    let fits = !matches!(map.object, Object::NewZero) || map.offset == 0;
    is_range(map.addr, map.length) && begins && fits
}

// Whether a mapping's object is there.
fn is_object_there<D: Disk>(world: &World<D>, object: Object) -> bool
    ensures { result ≡ is_object_there (world_seen world.now) world.now.zeros object }
{
    match object {
        Object::File(file) => file < world.files.count(),
        Object::Zero(number) => world.zeros.map(number).is_some(),
        Object::NewZero => true,
    }
}

// The most that may be done with a mapping whose object is there.
fn most_allowed<D: Disk>(world: &World<D>, kind: Kind, object: Object) -> Prot
    requires { IsTrue (is_object_there (world_seen world.now) world.now.zeros object) }
    ensures { result ≡ most_allowed (world_seen world.now) kind object }
{
    match (kind, object) {
        (Kind::Shared, Object::File(file)) => {
            if world.files.info(file).writable {
                prot_read_write()
            } else {
                Prot::READ
            }
        }
        _ => prot_read_write(),
    }
}

fn prot_read_write() -> Prot
    ensures { result ≡ prot_read_write }
{
    Prot::READ.union(Prot::WRITE)
}

// The map of the zero object that a mapping names, if it names one.
fn map_of_object<D: Disk>(world: &World<D>, object: Object) -> Option<u32>
    ensures { result ≡ map_of_object world.now.zeros object }
{
    match object {
        Object::Zero(number) => world.zeros.map(number),
        _ => None,
    }
}

/// What a Map maps, or the refusal that is due to it whatever is mapped: its range, its object and its protection are looked at.
pub(crate) fn new_mapping<D: Disk>(
    world: &World<D>,
    request: &MapRequest,
) -> Result<NewMapping, Errno>
    ensures request { IfOk result (λ map. map.request ≡ request.now) }
    ensures mapping { IfOk result (IsMappingOf world.now) }
    ensures refused { IfErr result (λ errno. (parts : List (Part Segment))
        → IsRefused world.now parts request.now (Some errno)) }
{
    if !is_valid(request) {
        return Err(Errno::Invalid);
    }
    if !is_object_there(world, request.object) {
        return Err(Errno::NoObject);
    }
    let max = most_allowed(world, request.kind, request.object);
    if !request.prot.is_within(max) {
        return Err(Errno::Access);
    }
    Ok(NewMapping {
        request: *request,
        first: page_of(request.addr),
        pages: pages_in(request.length),
        max,
        held: map_of_object(world, request.object),
    })
}

/// Whether a Map at the lowest gap asks for a range: its length isn't 0, and its offset begins a page, and is 0 for new zero
/// memory.
pub(crate) fn is_valid_anywhere(map: &MapRequest) -> bool
    ensures { result ≡ is_valid (any_request map.now) }
{
    let begins = map.offset % PAGE_SIZE == 0;
    let fits = !matches!(map.object, Object::NewZero) || map.offset == 0;
    map.length != 0 && begins && fits
}

/// The refusal that is due to a Map whose pages fit no gap: that comes behind those of its object, its protection and the pages of
/// the process.
pub(crate) fn refusal_without_gap<D: Disk>(
    world: &World<D>,
    space: &Ranges<VnSeg>,
    request: &MapRequest,
) -> Errno
    requires request { IsMapRequest request.now }
    requires valid { IsTrue (is_valid (any_request request.now)) }
    requires none { FindsGap space.now.parts (pages_in request.now.length) None }
    requires fits { MayBeSpace world.now space.now.parts }
    ensures { IsGapless world.now space.now.parts request.now result }
{
    if !is_object_there(world, request.object) {
        return Errno::NoObject;
    }
    let max = most_allowed(world, request.kind, request.object);
    if !request.prot.is_within(max) {
        return Errno::Access;
    }
    let total = space.pages() + pages_in(request.length);
    if total > MOST_PAGES {
        return Errno::TooLarge;
    }
    Errno::NoRoom
}

/// How many slots a mapping of so many pages reserves.
pub(crate) fn slots_for_pages(kind: Kind, object: Object, pages: u32) -> u32
    ensures { result ≡ slots_for_pages kind object pages }
{
    match (kind, object) {
        (Kind::Private, _) => pages,
        (Kind::Shared, Object::NewZero) => pages,
        (Kind::Shared, _) => 0,
    }
}

// The pages of a zero object, if it is given up: as many pieces show it as are counted, and it isn't mapped. 0 where there is
// none.
fn pages_given<D: Disk>(world: &World<D>, object: Object, number: u32, count: u32) -> u32
    requires { (parts : List (Part Segment)) × MayBeSpace world.now parts }
    ensures { result ≡ pages_given world.now.maps object number count
        (slice_index_or world.now.zeros number None) }
{
    let Some(map) = world.zeros.map(number) else {
        return 0;
    };
    if object == Object::Zero(number) || count != world.maps.holders(map) {
        return 0;
    }
    world.maps.pages(map)
}

// The pages of the zero objects that a Map gives up: as many pieces as show one lie wholly in its range, and it isn't the object
// that is mapped. Time: the number of zero objects.
fn given_up<D: Disk>(
    world: &World<D>,
    space: &Ranges<VnSeg>,
    map: &NewMapping,
    shown: &Vec<u32>,
) -> u32
    requires mapping { IsMappingOf world.now map.now }
    requires fits { MayBeSpace world.now space.now.parts }
    requires len { length shown.now.items ≡ length world.now.zeros }
    requires few { length shown.now.items ≤ 2 ^ 32 }
    requires shown { (z : ℕ) → slice_index shown.now.items z
        ≡ shown_within space.now.parts map.now.first (map.now.first + map.now.pages) z }
    // What is given up.
    ensures { result ≡ given_up world.now.maps world.now.zeros space.now.parts
        map.now.first (map.now.first + map.now.pages) map.now.request.object
        (length world.now.zeros) }
{
    let mut up = 0;
    for number in 0..shown.len() {
        up += pages_given(world, map.request.object, number as u32, shown[number]);
    }
    up
}

/// The refusal that is due to a Map by the room for it, if one is: by the pages of the process and the slots that are reserved,
/// once what its range has is gone. The only error is want of memory. Time: the logarithm of the number of pieces for each piece
/// of the range; and the number of zero objects, as does its memory.
pub(crate) fn refusal<D: Disk>(
    world: &World<D>,
    space: &Ranges<VnSeg>,
    map: &NewMapping,
) -> Result<Option<Errno>, AllocError>
    requires mapping { IsMappingOf world.now map.now }
    requires fits { MayBeSpace world.now space.now.parts }
    ensures { IfOk result (IsRefused world.now space.now.parts map.now.request) }
{
    let counts = count_range(world, space, map.first, map.first + map.pages)?;
    if space.pages() - counts.pages + map.pages > MOST_PAGES {
        return Ok(Some(Errno::TooLarge));
    }
    let up = given_up(world, space, map, &counts.shown);
    let kept = world.anon.reserved() - counts.slots - up;
    let wanted = slots_for_pages(map.request.kind, map.request.object, map.pages);
    if u64::from(kept) + u64::from(wanted) > u64::from(world.anon.slots()) {
        return Ok(Some(Errno::NoSwap));
    }
    Ok(None)
}
