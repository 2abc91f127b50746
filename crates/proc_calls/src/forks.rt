//! The birth of a process.
ghost use Rattle.std.specs.Prelude.{◌≡◌, ◌↔◌, ◌≤◌, ◌<◌, ◌+◌, ◌++◌, ◌^◌, ℕ, [], ◌∷◌, length, replicate, sum_by, IsTrue, Some, None, IsSome, IfOk, OnErr, List, Option};
ghost use Rattle.std.specs.FinMap as finite;
ghost use Rattle.std.specs.VecDeque.{deque_len};
ghost use Rattle.seg_vn.specs.anon_map.Maps.{IsMapThere, free_numbers, holders_of};
ghost use Rattle.seg_vn.specs.vm_world.CountsFit.{slots_for_part};
ghost use Rattle.seg_vn.specs.vm_world.Serving.{ModifiesNone};
ghost use Rattle.seg_vn.specs.vm_world.Words.{Fits, IsFit, memory};
ghost use Rattle.seg_vn.specs.vm_world.World.{world_seen};
ghost use Rattle.seg_vn.specs.vm_world.ZeroObjects.{KnowsZeros};
ghost use Rattle.seg_vn.specs.Clears.{MayBeSpace};
ghost use Rattle.proc_calls.specs.Forks.{IsCountedFork, IsForked};
ghost use Rattle.proc_calls.specs.Pieces.{AreFewHolders, CopiesParts, CountsParts, AreRoomsFor, MayBeForking, rooms_of};

use crate::pieces::{count_pieces, next_piece};
use seg_vn::{Disk, Errno, Ranges, Reply, Spaces, VnSeg, World};
use std::alloc::{AllocError, Global};
use std::collections::VecDeque;

// Whether so many holders more of the map of a zero object, if there is one, can be counted. The only error is that they can't.
fn check_holders<D: Disk>(world: &World<D>, shown: Option<u32>, more: u32) -> Result<(), AllocError>
    requires there { (number : ℕ) → shown ≡ Some number → IsMapThere world.now.maps number }
    ensures { IfOk result (λ _. (number : ℕ) → shown ≡ Some number
        → holders_of world.now.maps number + more < 2 ^ 32) }
{
    if let Some(map) = shown {
        if more > u32::MAX - world.maps.holders(map) {
            return Err(AllocError);
        }
    }
    Ok(())
}

// Whether so many slots more are more than there are.
fn lacks_swap<D: Disk>(world: &World<D>, slots: u32) -> bool
    requires fits { IsFit world.now }
    ensures { IsTrue result ↔ (length world.now.anon.counts < world.now.anon.reserved + slots) }
{
    slots > world.anon.slots() - world.anon.reserved()
}

// A space with room for so many pieces. The only error is want of memory.
fn new_space(alloc: Global, pieces: u32) -> Result<Ranges<VnSeg>, AllocError>
    ensures empty { IfOk result (λ space. space.parts ≡ []) }
    ensures spare { IfOk result (λ space. pieces ≤ space.spare) }
{
    let mut space = Ranges::new(alloc);
    space.reserve(pieces)?;
    Ok(space)
}

// Sees to it that so many numbers of maps are free. The only error is want of memory, or of numbers; then nothing changed.
fn take_numbers<D: Disk>(world: &mut World<D>, numbers: u32) -> Result<(), AllocError>
    ensures free { IfOk result (λ _. numbers ≤ free_numbers world.new.maps) }
    ensures more { IfOk result (λ _. (more : ℕ)
        × (world.new ≡ record world.old { maps = world.old.maps ++ replicate more None })) }
    ensures err { OnErr result (world.new ≡ world.old) }
{
    world.maps.reserve(numbers)
}

// Room for the copies of all pieces, in their order. The only error is want of memory, or of numbers of holders.
fn take_rooms<D: Disk>(
    world: &World<D>,
    space: &Ranges<VnSeg>,
    pieces: u32,
    alloc: Global,
) -> Result<VecDeque<Vec<Option<u32>>>, AllocError>
    requires fits { MayBeSpace world.now space.now.parts }
    requires pieces { pieces ≡ length space.now.parts }
    ensures rooms { IfOk result (λ rooms. AreRoomsFor (rooms_of rooms.items)
        space.now.parts) }
    ensures few { IfOk result (λ _. AreFewHolders world.now.maps pieces space.now.parts) }
{
    let mut rooms = VecDeque::with_capacity(alloc, pieces as usize)?;
    let mut from = 0;
    while let Some((first, pages, segment)) = next_piece(space, from) {
        check_holders(world, segment.shown(), pieces)?;
        let room = segment.room_from(world, 0)?;
        rooms.push_back_reserved(room);
        from = first + pages;
    }
    Ok(rooms)
}

// The first room.
fn take_first(rooms: &mut VecDeque<Vec<Option<u32>>>) -> Vec<Option<u32>>
    requires some { 0 < deque_len rooms.old }
    ensures { rooms.old.items ≡ result ∷ rooms.new.items }
{
    let Some(room) = rooms.pop_front() else {
        unreachable!();
    };
    room
}

// Copies all pieces of a process into the space of another one, which has none yet, in rooms that were taken before. Takes no
// memory.
fn copy_pieces<D: Disk>(
    world: &mut World<D>,
    space: &Ranges<VnSeg>,
    process: u32,
    kids: &mut Ranges<VnSeg>,
    rooms: VecDeque<Vec<Option<u32>>>,
)
    requires fits { MayBeForking world.old process space.now.parts kids.old.parts }
    requires empty { kids.old.parts ≡ [] }
    requires spare { length space.now.parts ≤ kids.old.spare }
    requires numbers { length space.now.parts ≤ free_numbers world.old.maps }
    requires rooms { AreRoomsFor (rooms_of rooms.items) space.now.parts }
    requires few { AreFewHolders world.old.maps (length space.now.parts) space.now.parts }
    requires room { world.old.anon.reserved + sum_by slots_for_part space.now.parts
        ≤ length world.old.anon.counts }
    // In flat memory the other process has all cells of the process.
    ensures copied { CopiesParts world.old world.new process space.now.parts
        kids.old.parts kids.new.parts }
    ensures counted { CountsParts world.old world.new.anon.counts process space.now.parts }
    // What stays.
    ensures modified { ModifiesNone (world_seen world.old) (world_seen world.new) }
    ensures rest { world.new ≡ record world.old {
      anon = world.new.anon;
      maps = world.new.maps;
      hat = world.new.hat;
    } }
{
    let mut rooms = rooms;
    let mut from = 0;
    while let Some((first, pages, segment)) = next_piece(space, from) {
        let room = take_first(&mut rooms);
        let copy = segment.dup_into(world, process, first, room);
        kids.insert(first, pages, copy);
        from = first + pages;
    }
}

/// The reply to a Fork, which is done or refused: a child is born with a copy of the space of the process, at its own number. It
/// shows what the process does; a private page is one of both until one of them is written to. It is refused NoSwap where the
/// slots that are reserved, and one for each private page of the process, are more than there are. All room is taken first: where
/// memory is wanting, nothing changed; that, or want of numbers, is the only error. Time: the pieces of the process, with the
/// logarithm of their number for each, the places of the private ones, and a look-up of a translation for each that has a slot.
pub fn fork<D: Disk>(
    world: &mut World<D>,
    spaces: &mut Spaces,
    process: u32,
    child: u32,
    alloc: Global,
) -> Result<Reply, AllocError>
    requires fits { Fits world.old spaces.old.spaces }
    requires zeros { KnowsZeros world.old.zeros spaces.old.spaces }
    requires alive { IsSome (finite.get spaces.old.spaces process) }
    requires absent { finite.get spaces.old.spaces child ≡ None }
    requires number { (1 ≤ child) × (child ≤ spaces.old.processes) }
    ensures done { IfOk result (IsForked (memory world.old spaces.old.spaces)
        (memory world.new spaces.new.spaces) process child) }
    ensures counted { IfOk result (IsCountedFork (memory world.old spaces.old.spaces)
        world.new.anon.counts process) }
    ensures zeros { KnowsZeros world.new.zeros spaces.new.spaces }
    ensures modified { ModifiesNone (world_seen world.old) (world_seen world.new) }
    ensures err { OnErr result ((world.new ≡ world.old)
        × (spaces.new.spaces ≡ spaces.old.spaces)) }
    // What stays.
    ensures rest { world.new ≡ record world.old {
      anon = world.new.anon;
      maps = world.new.maps;
      hat = world.new.hat;
    } }
    ensures processes { spaces.new.processes ≡ spaces.old.processes }
{
    let Some(space) = spaces.get(process) else {
        unreachable!();
    };
    let counts = count_pieces(space);
    if lacks_swap(world, counts.slots) {
        return Ok(Reply::Refused(Errno::NoSwap));
    }
    let rooms = take_rooms(world, space, counts.pieces, alloc)?;
    let mut kids = new_space(alloc, counts.pieces)?;
    take_numbers(world, counts.pieces)?;
    copy_pieces(world, space, process, &mut kids, rooms);
    spaces.insert(child, kids);
    Ok(Reply::Done)
}
