//! Pieces that go across an end of a range are cut there.
ghost use Rattle.std.specs.Prelude.{◌≡◌, ◌≤◌, ◌<◌, ◌+◌, ◌^◌, ℕ, List, Option, Some, None, IfOk, OnErr, length, option_map, slice_index_or, vec_capacity};
ghost use Rattle.seg_vn.specs.addr_space.Space.{piece_at};
ghost use Rattle.seg_vn.specs.anon_map.Maps.{IsMapThere, free_numbers, holders_of, places_of};
ghost use Rattle.seg_vn.specs.vm_world.Words.{OnlyMaps};
ghost use Rattle.seg_vn.specs.Clears.{MayBeAlive, MayBeSpace, SpaceBecomes, StartsAt};
ghost use Rattle.mmap_calls.specs.Looks.{kind_and_object};
ghost use Rattle.mmap_calls.specs.Protections.{most_at};
ghost use Rattle.mmap_calls.specs.Rooms.{HasRoomAt};
ghost use Rattle.mmap_calls.specs.Answers.{IsUnchanged};

use seg_vn::{Disk, Ranges, VnSeg, World};
use std::alloc::AllocError;

/// The most holders of a map that may be there before a Map, which adds some: one for each end of its range, and one for its
/// own piece.
const MOST_HOLDERS: u32 = u32::MAX - 3;

/// Whether so few hold the map of a zero object, if there is one, that a Map may add its holders. The only error is that there
/// are more.
pub(crate) fn check_holders<D: Disk>(world: &World<D>, shown: Option<u32>) -> Result<(), AllocError>
    requires there { (number : ℕ) → shown ≡ Some number → IsMapThere world.now.maps number }
    ensures { IfOk result (λ _. (number : ℕ) → shown ≡ Some number
        → holders_of world.now.maps number + 3 < 2 ^ 32) }
{
    if let Some(map) = shown {
        if world.maps.holders(map) > MOST_HOLDERS {
            return Err(AllocError);
        }
    }
    Ok(())
}

/// Room for the later places of the piece that has a page, if it is private, from the page on. The only error is want of memory,
/// or of numbers of holders.
pub(crate) fn room_at<D: Disk>(
    world: &World<D>,
    space: &Ranges<VnSeg>,
    page: u32,
) -> Result<Vec<Option<u32>>, AllocError>
    requires fits { MayBeSpace world.now space.now.parts }
    ensures { IfOk result (λ room. HasRoomAt room.items (vec_capacity room) 3
        world.now.maps space.now.parts page) }
{
    match space.find(page) {
        Some((first, _pages, segment)) => {
            check_holders(world, segment.shown())?;
            segment.room_from(world, page - first)
        }
        None => world.maps.room(0),
    }
}

/// Cuts the piece that goes across the begin of a page, if one does, with room that was taken before. Takes no memory. Time: the
/// pieces after it, and the places that go over.
pub(crate) fn cut<D: Disk>(
    world: &mut World<D>,
    space: &mut Ranges<VnSeg>,
    process: u32,
    page: u32,
    room: Vec<Option<u32>>,
)
    requires spare { 0 < space.old.spare }
    requires numbers { 0 < free_numbers world.old.maps }
    requires room { (more : ℕ) × HasRoomAt room.items (vec_capacity room) (more + 1)
        world.old.maps space.old.parts page }
    requires fits { MayBeAlive world.old process space.old.parts }
    // No piece goes across the begin of the page now, nor any other that none went across.
    ensures starts { StartsAt space.new.parts page }
    ensures kept { (q : ℕ) → StartsAt space.old.parts q → StartsAt space.new.parts q }
    // Room at pages before is enough for what is there now.
    ensures rooms { (items : List (Option ℕ)) (roomy more q : ℕ) → q ≤ page
        → HasRoomAt items roomy (more + 1) world.old.maps space.old.parts q
        → HasRoomAt items roomy more world.new.maps space.new.parts q }
    // No map has a holder more but that of the zero object which the piece shows.
    ensures held { (number : ℕ)
        → holders_of world.new.maps number ≤ holders_of world.old.maps number + 1 }
    // Each page looks as it did, and the maps of zero objects have as many places.
    ensures shows { (q : ℕ) → option_map kind_and_object (piece_at space.new.parts q)
        ≡ option_map kind_and_object (piece_at space.old.parts q) }
    ensures most { (q : ℕ) → most_at space.new.parts q ≡ most_at space.old.parts q }
    ensures lengths { (z number : ℕ) → slice_index_or world.old.zeros z None ≡ Some number
        → length (places_of world.new.maps number) ≡ length (places_of world.old.maps number) }
    // Flat memory is as it was.
    ensures changes { SpaceBecomes world.old world.new process space.old.parts space.new.parts
        (λ F. F) }
    // At most one number and one piece are used.
    ensures spare { space.old.spare ≤ space.new.spare + 1 }
    ensures numbers { free_numbers world.old.maps ≤ free_numbers world.new.maps + 1 }
    // What stays.
    ensures world { OnlyMaps world.old world.new }
{
    let Some((first, _pages, _segment)) = space.find(page) else {
        return;
    };
    if first == page {
        return;
    }
    let Some(segment) = space.find_mut(page) else {
        unreachable!();
    };
    let upper = segment.cut_into(world, page - first, room);
    space.split_at(page, upper);
}

/// Cuts the pieces that go across the ends of a range, so that none does. All room is taken first, so that where memory is wanting
/// nothing changed; that, or want of numbers, is the only error. Time: the number of pieces, and the places that go over.
pub(crate) fn cut_ends<D: Disk>(
    world: &mut World<D>,
    space: &mut Ranges<VnSeg>,
    process: u32,
    first: u32,
    end: u32,
) -> Result<(), AllocError>
    requires range { first ≤ end }
    requires fits { MayBeAlive world.old process space.old.parts }
    ensures low { IfOk result (λ _. StartsAt space.new.parts first) }
    ensures high { IfOk result (λ _. StartsAt space.new.parts end) }
    // What may be done at most at each page is as it was, and so is flat memory.
    ensures most { IfOk result (λ _. (q : ℕ)
        → most_at space.new.parts q ≡ most_at space.old.parts q) }
    ensures changes { IfOk result (λ _. SpaceBecomes world.old world.new process
        space.old.parts space.new.parts (λ F. F)) }
    // What stays.
    ensures world { OnlyMaps world.old world.new }
    ensures err { OnErr result (IsUnchanged world.old world.new space.old.parts space.new.parts) }
{
    let begin_room = room_at(world, space, first)?;
    let end_room = room_at(world, space, end)?;
    space.reserve(2)?;
    world.maps.reserve(2)?;
    cut(world, space, process, end, end_room);
    cut(world, space, process, first, begin_room);
    Ok(())
}
