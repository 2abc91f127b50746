//! Protect.
ghost use Rattle.std.specs.Prelude.{◌↔◌, ◌≤◌, ◌-◌, IfOk, OnErr, IsTrue};
ghost use Rattle.seg_vn.specs.vm_types.declared.call.Call.TheVariants as calls;
ghost use Rattle.seg_vn.specs.vm_world.ProtectSteps.{with_range_prot};
ghost use Rattle.seg_vn.specs.vm_world.Serving.{ModifiesNone};
ghost use Rattle.seg_vn.specs.vm_world.Words.{OnlyStoreAndHat, SameFilesAndTails};
ghost use Rattle.seg_vn.specs.vm_world.World.{world_seen};
ghost use Rattle.seg_vn.specs.Clears.{MayBeAlive, SpaceBecomes, StartsAt};
ghost use Rattle.mmap_calls.specs.Answers.{CountsFall, IsAnswered, IsUnchanged};
ghost use Rattle.mmap_calls.specs.Protections.{AreMapped, MayHave};

use crate::cuts::cut_ends;
use seg_vn::{Disk, Errno, Prot, Ranges, Reply, VnSeg, World, is_range, page_of, pages_in};
use std::alloc::AllocError;

/// Whether each page of a range is mapped. Time: the logarithm of the number of pieces, and the pieces of the
/// range.
pub(crate) fn are_mapped(space: &Ranges<VnSeg>, first: u32, end: u32) -> bool
    ensures { IsTrue result ↔ AreMapped space.now.parts first end }
{
    let mut page = first;
    let mut near = 0;
    while page < end {
        let Some((place, begin, pages, _segment)) = space.find_near(near, page) else {
            return false;
        };
        near = place + 1;
        page = begin + pages;
    }
    true
}

// Whether each page of a range that is mapped may have a protection. Time: the logarithm of the number of pieces, and the pieces
// of the range.
fn may_have(space: &Ranges<VnSeg>, first: u32, end: u32, prot: Prot) -> bool
    requires mapped { AreMapped space.now.parts first end }
    ensures { IsTrue result ↔ MayHave space.now.parts first end prot }
{
    let mut page = first;
    let mut near = 0;
    while page < end {
        let Some((place, begin, pages, segment)) = space.find_near(near, page) else {
            unreachable!();
        };
        if !segment.check_prot(prot) {
            return false;
        }
        near = place + 1;
        page = begin + pages;
    }
    true
}

// Gives the pages of a range another protection; no piece goes across an end of it. Takes no memory. Time: the logarithm of the
// number of pieces, the pieces of the range, and the pages that may not be written then.
fn set_range<D: Disk>(
    world: &mut World<D>,
    space: &mut Ranges<VnSeg>,
    process: u32,
    first: u32,
    end: u32,
    prot: Prot,
)
    requires range { first ≤ end }
    requires low { StartsAt space.old.parts first }
    requires high { StartsAt space.old.parts end }
    requires mapped { AreMapped space.old.parts first end }
    requires may { MayHave space.old.parts first end prot }
    requires fits { MayBeAlive world.old process space.old.parts }
    ensures changes { SpaceBecomes world.old world.new process space.old.parts space.new.parts
        (λ F. with_range_prot F process first (end - first) prot) }
    // What stays.
    ensures rest { OnlyStoreAndHat world.old world.new }
    ensures modified { ModifiesNone (world_seen world.old) (world_seen world.new) }
{
    let mut page = first;
    let mut near = 0;
    while page < end {
        let Some((place, _begin, pages, _segment)) = space.find_near(near, page) else {
            unreachable!();
        };
        let Some(segment) = space.find_mut_near(place, page) else {
            unreachable!();
        };
        segment.set_prot(world, process, page, prot);
        near = place + 1;
        page += pages;
    }
}

/// The reply to a Protect, which is done or refused. Whether it is refused is decided before a piece is cut. The only error is want
/// of memory, or of numbers; then nothing changed. Time: the logarithm of the number of pieces, the pieces of the range, the
/// pages that may not be written then, and for each end of the range at which a piece is cut, the number of pieces and the places
/// that go over.
pub(crate) fn protect<D: Disk>(
    world: &mut World<D>,
    space: &mut Ranges<VnSeg>,
    process: u32,
    addr: u32,
    length: u32,
    prot: Prot,
) -> Result<Reply, AllocError>
    requires fits { MayBeAlive world.old process space.old.parts }
    ensures done { IfOk result (IsAnswered world.old world.new process
        space.old.parts space.new.parts (calls.Protect addr length prot)) }
    ensures fall { IfOk result (λ _. CountsFall world.old world.new) }
    ensures err { OnErr result (IsUnchanged world.old world.new space.old.parts space.new.parts) }
    // What stays.
    ensures rest { SameFilesAndTails world.old world.new }
{
    if !is_range(addr, length) {
        return Ok(Reply::Refused(Errno::Invalid));
    }
    let first = page_of(addr);
    let end = first + pages_in(length);
    if !are_mapped(space, first, end) {
        return Ok(Reply::Refused(Errno::NotMapped));
    }
    if !may_have(space, first, end, prot) {
        return Ok(Reply::Refused(Errno::Access));
    }
    cut_ends(world, space, process, first, end)?;
    set_range(world, space, process, first, end, prot);
    Ok(Reply::Done)
}
