//! Map at the lowest gap.
ghost use Rattle.std.specs.Prelude.{IfOk, OnErr};
ghost use Rattle.seg_vn.specs.vm_world.Words.{SameFilesAndTails};
ghost use Rattle.seg_vn.specs.Clears.{MayBeAlive};
ghost use Rattle.mmap_calls.specs.Answers.{CountsFall, IsAnswered, OnlyNumbers};
ghost use Rattle.mmap_calls.specs.Refusals.{IsMapRequest, map_any_call};

use crate::maps::map;
use crate::refusals::{MapRequest, is_valid_anywhere, refusal_without_gap};
use seg_vn::{Disk, Errno, PAGE_SIZE, Ranges, Reply, VnSeg, World, pages_in};
use std::alloc::AllocError;

/// The reply to a Map at the lowest gap that its pages fit, which is done or refused. In a gap it replaces nothing, so it is answered
/// as a Map at the gap's address is. The only error is want of memory, or of numbers. Time: the number of pieces, and what that Map
/// takes.
pub(crate) fn map_any<D: Disk>(
    world: &mut World<D>,
    space: &mut Ranges<VnSeg>,
    process: u32,
    request: &MapRequest,
) -> Result<Reply, AllocError>
    requires request { IsMapRequest request.now }
    requires fits { MayBeAlive world.old process space.old.parts }
    ensures done { IfOk result (IsAnswered world.old world.new process space.old.parts
        space.new.parts (map_any_call request.now)) }
    ensures fall { IfOk result (λ _. CountsFall world.old world.new) }
    // Where memory is wanting nothing changed, but that a number of a zero object may be free.
    ensures err { OnErr result (OnlyNumbers world.old world.new space.old.parts space.new.parts) }
    // What stays.
    ensures rest { SameFilesAndTails world.old world.new }
{
    if !is_valid_anywhere(request) {
        return Ok(Reply::Refused(Errno::Invalid));
    }
    let Some(first) = space.gap(pages_in(request.length)) else {
        let errno = refusal_without_gap(world, space, request);
        return Ok(Reply::Refused(errno));
    };
    let placed = MapRequest {
        addr: first * PAGE_SIZE,
        ..*request
    };
    map(world, space, process, &placed)
}
