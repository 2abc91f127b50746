//! What calls that change mappings are answered.
ghost use Rattle.std.specs.Prelude.{◌≡◌, ℕ, IfOk, OnErr, IsSome, List, Option};
ghost use Rattle.std.specs.FinMap as finite;
ghost use Rattle.seg_vn.specs.vm_types.WellFormed.{IsPlace, IsWellFormed};
ghost use Rattle.seg_vn.specs.vm_world.Words.{Fits, SameFilesAndTails, memory};
ghost use Rattle.seg_vn.specs.vm_world.ZeroObjects.{KnowsZeros};
ghost use Rattle.seg_vn.specs.Clears.{MayBeAlive};
ghost use Rattle.seg_vn.specs.Serves.{Serves};
ghost use Rattle.mmap_calls.specs.Answers.{CountsFall, IsAnswered, OnlyNumbers};
ghost use Rattle.mmap_calls.specs.Calls.{ChangesMappings, IsDoneAtOnce, IsMappingAnswer, IsMappingCall};
ghost use Rattle.mmap_calls.specs.Refusals.{IsMapRequest, placed_call};

use crate::gaps::map_any;
use crate::maps::map;
use crate::protects::protect;
use crate::refusals::MapRequest;
use crate::syncs::sync;
use crate::unmaps::unmap;
use seg_vn::{Attempt, Call, Disk, Place, Ranges, Reply, Spaces, VnSeg, World, page_of};
use std::alloc::AllocError;

// The reply to a Map at this place.
fn map_placed<D: Disk>(
    world: &mut World<D>,
    space: &mut Ranges<VnSeg>,
    process: u32,
    place: Place,
    wanted: &MapRequest,
) -> Result<Reply, AllocError>
    requires place { IsPlace place }
    requires request { IsMapRequest wanted.now }
    requires fits { MayBeAlive world.old process space.old.parts }
    ensures done { IfOk result (IsAnswered world.old world.new process
        space.old.parts space.new.parts (placed_call place wanted.now)) }
    ensures fall { IfOk result (λ _. CountsFall world.old world.new) }
    // Where memory is wanting nothing changed, but that a number of a zero object may be free.
    ensures err { OnErr result (OnlyNumbers world.old world.new space.old.parts space.new.parts) }
    // What stays.
    ensures rest { SameFilesAndTails world.old world.new }
{
    match place {
        Place::At(addr) => map(world, space, process, &MapRequest { addr, ..*wanted }),
        Place::Any => map_any(world, space, process, wanted),
    }
}

// The reply to a call that changes the mappings of a space.
fn answer<D: Disk>(
    world: &mut World<D>,
    space: &mut Ranges<VnSeg>,
    process: u32,
    call: &Call,
) -> Result<Reply, AllocError>
    requires formed { IsWellFormed call.now }
    requires served { ChangesMappings call.now }
    requires fits { MayBeAlive world.old process space.old.parts }
    ensures done { IfOk result (IsAnswered world.old world.new process
        space.old.parts space.new.parts call.now) }
    ensures fall { IfOk result (λ _. CountsFall world.old world.new) }
    // Where memory is wanting nothing changed, but that a number of a zero object may be free.
    ensures err { OnErr result (OnlyNumbers world.old world.new space.old.parts space.new.parts) }
    // What stays.
    ensures rest { SameFilesAndTails world.old world.new }
{
    match *call {
        Call::Map {
            place,
            length,
            prot,
            kind,
            object,
            offset,
        } => {
            let wanted = MapRequest {
                addr: 0,
                length,
                prot,
                kind,
                object,
                offset,
            };
            map_placed(world, space, process, place, &wanted)
        }
        Call::Unmap { addr, length } => unmap(world, space, process, addr, length),
        Call::Protect { addr, length, prot } => protect(world, space, process, addr, length, prot),
        _ => unreachable!(),
    }
}

// What a call of a process is answered that changes its mappings.
fn change<D: Disk>(
    world: &mut World<D>,
    spaces: &mut Spaces,
    process: u32,
    call: &Call,
) -> Result<Attempt, AllocError>
    requires formed { IsWellFormed call.now }
    requires served { ChangesMappings call.now }
    requires fits { Fits world.old spaces.old.spaces }
    requires zeros { KnowsZeros world.old.zeros spaces.old.spaces }
    requires alive { IsSome (finite.get spaces.old.spaces process) }
    ensures done { IfOk result (λ answer. (calls : List (Option ℕ)) → Serves
        (memory world.old spaces.old.spaces) (memory world.new spaces.new.spaces)
        world.old.pending world.new.pending calls process call.now answer) }
    ensures answer { IfOk result IsDoneAtOnce }
    ensures fall { IfOk result (λ _. CountsFall world.old world.new) }
    ensures zeros { KnowsZeros world.new.zeros spaces.new.spaces }
    ensures alive { IsSome (finite.get spaces.new.spaces process) }
    // Where memory is wanting nothing changed, but that a number of a zero object may be free.
    ensures err { OnErr result ((world.new ≡ record world.old { zeros = world.new.zeros })
        × (spaces.new.spaces ≡ spaces.old.spaces)) }
    // What stays.
    ensures processes { spaces.new.processes ≡ spaces.old.processes }
{
    let Some(space) = spaces.get_mut(process) else {
        unreachable!();
    };
    let reply = answer(world, space, process, call)?;
    Ok(Attempt::Done(reply))
}

/// What a mapping call of a process is answered, where the history has so many entries. One that changes mappings needs no transfer
/// and never waits; a Sync is tried from its range's first page on, as `sync` tries it. The only error is want of memory, or of
/// numbers, which no Sync is answered; then nothing changed, but that a number of a zero object may be free. Time: the pages of the
/// pieces that go or are cut and of the zero objects that go, and the number of the process's pieces; for a Map, a place for each
/// private page of the new piece, and the number of zero objects; for a Sync as for `sync`.
pub fn attempt<D: Disk>(
    world: &mut World<D>,
    spaces: &mut Spaces,
    process: u32,
    call: &Call,
    from: u64,
) -> Result<Attempt, AllocError>
    requires formed { IsWellFormed call.now }
    requires served { IsMappingCall call.now }
    requires fits { Fits world.old spaces.old.spaces }
    requires zeros { KnowsZeros world.old.zeros spaces.old.spaces }
    requires alive { IsSome (finite.get spaces.old.spaces process) }
    ensures done { IfOk result (λ answer. (calls : List (Option ℕ)) → Serves
        (memory world.old spaces.old.spaces) (memory world.new spaces.new.spaces)
        world.old.pending world.new.pending calls process call.now answer) }
    ensures answer { IfOk result (IsMappingAnswer call.now from) }
    ensures fall { IfOk result (λ _. CountsFall world.old world.new) }
    ensures zeros { KnowsZeros world.new.zeros spaces.new.spaces }
    ensures alive { IsSome (finite.get spaces.new.spaces process) }
    // Memory is wanting for no Sync; and nothing changed then, but that a number of a zero object may be free.
    ensures memory { OnErr result (ChangesMappings call.now) }
    ensures err { OnErr result ((world.new ≡ record world.old { zeros = world.new.zeros })
        × (spaces.new.spaces ≡ spaces.old.spaces)) }
    // What stays.
    ensures processes { spaces.new.processes ≡ spaces.old.processes }
{
    match *call {
        Call::Sync { addr, length } => {
            let mut cursor = page_of(addr);
            Ok(sync(world, spaces, process, addr, length, &mut cursor, from))
        }
        _ => change(world, spaces, process, call),
    }
}
