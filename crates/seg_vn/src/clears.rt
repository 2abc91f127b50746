//! Ranges of pages that are taken out of a space.
ghost use Rattle.std.specs.Prelude.{◌≡◌, ◌≤◌, ◌<◌, ◌-◌, ℕ, None, Some, IsSome, MatchOption, if◌then◌else◌};
ghost use Rattle.seg_ops.specs.addr_space.Space.{piece_at, begins, FindsLast};
ghost use Rattle.seg_ops.specs.flat_model.Mapping.{without_pages};
ghost use Rattle.seg_ops.specs.flat_model.Space.{is_in_range};
ghost use Rattle.seg_ops.specs.vm_world.Words.{SameFilesAndTails};
ghost use Rattle.seg_ops.specs.vm_world.World.{world_seen};
ghost use Rattle.seg_ops.specs.vm_world.ZeroObjects.{free_number};
ghost use Rattle.seg_vn.specs.Clears.{GivesBack, MayBeAlive, SpaceBecomes, StartsAt};

use crate::segment::VnSeg;
use seg_ops::{Disk, Ranges, World};

// The first page of the last piece that begins in a range.
fn last_in(space: &Ranges<VnSeg>, from: u32, end: u32) -> Option<u32>
    ensures { MatchOption result
        ((first : ℕ) → from ≤ first → first < end → begins space.now.parts first ≡ None)
        (λ first. (from ≤ first) × FindsLast space.now.parts end (Some first)) }
{
    let first = space.last(end)?;
    if first < from {
        return None;
    }
    Some(first)
}

/// Takes all pieces of a range of pages out of a process's space, from the back, with their translations, their private pages,
/// the zero objects that no other piece shows, and what is reserved for them. No piece goes across an end of the range. Takes
/// no memory. Time: the pages that go, those of the zero objects that go, and the logarithm of the number of pieces for each
/// piece.
pub fn clear<D: Disk>(
    world: &mut World<D>,
    space: &mut Ranges<VnSeg>,
    process: u32,
    from: u32,
    end: u32,
)
    requires range { from ≤ end }
    requires low { StartsAt space.old.parts from }
    requires high { StartsAt space.old.parts end }
    requires fits { MayBeAlive world.old process space.old.parts }
    // The pages of the range have no cell, and all others the piece that they had.
    ensures pages { (q : ℕ) → piece_at space.new.parts q
        ≡ (if is_in_range from (end - from) q then None else piece_at space.old.parts q) }
    ensures changes { SpaceBecomes world.old world.new process space.old.parts space.new.parts
        (λ F. without_pages F process from (end - from)) }
    ensures gives { GivesBack (world_seen world.old) (world_seen world.new) }
    ensures objects { IsSome (free_number world.old.zeros) → IsSome (free_number world.new.zeros) }
    // What stays.
    ensures spare { space.old.spare ≤ space.new.spare }
    ensures rest { SameFilesAndTails world.old world.new }
{
    let mut top = end;
    while let Some(first) = last_in(space, from, top) {
        let Some(mut segment) = space.remove(first) else {
            unreachable!();
        };
        segment.leave(world, process, first);
        top = first;
    }
}
