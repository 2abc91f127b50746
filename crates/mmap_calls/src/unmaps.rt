//! Unmap.
ghost use Rattle.std.specs.Prelude.{◌<◌, ◌+◌, ◌^◌, IfOk, OnErr};
ghost use Rattle.seg_vn.specs.flat_model.Mapping.{without_pages};
ghost use Rattle.seg_vn.specs.vm_types.declared.call.Call.TheVariants as calls;
ghost use Rattle.seg_vn.specs.vm_world.Words.{SameFilesAndTails};
ghost use Rattle.seg_vn.specs.Clears.{MayBeAlive, SpaceBecomes};
ghost use Rattle.mmap_calls.specs.Answers.{CountsFall, IsAnswered, IsUnchanged, NoneModified};

use crate::cuts::cut_ends;
use seg_vn::{Disk, Errno, Ranges, Reply, VnSeg, World, clear, is_range, page_of, pages_in};
use std::alloc::AllocError;

// Takes all that is mapped in a range out of a space; pieces that go across an end of it are cut there. The only error is want
// of memory, or of numbers; then nothing changed.
fn free_range<D: Disk>(
    world: &mut World<D>,
    space: &mut Ranges<VnSeg>,
    process: u32,
    first: u32,
    pages: u32,
) -> Result<(), AllocError>
    requires fits { MayBeAlive world.old process space.old.parts }
    requires range { first + pages < 2 ^ 32 }
    ensures done { IfOk result (λ _. SpaceBecomes world.old world.new process
        space.old.parts space.new.parts (λ F. without_pages F process first pages)) }
    ensures fall { IfOk result (λ _. CountsFall world.old world.new) }
    ensures modified { IfOk result (λ _. NoneModified world.old world.new) }
    ensures err { OnErr result (IsUnchanged world.old world.new space.old.parts space.new.parts) }
    // What stays.
    ensures rest { SameFilesAndTails world.old world.new }
{
    let end = first + pages;
    cut_ends(world, space, process, first, end)?;
    clear(world, space, process, first, end);
    Ok(())
}

/// The reply to an Unmap, which is done or refused. The only error is want of memory, or of numbers; then nothing changed. Time:
/// the pages of the pieces that go or are cut and of the zero objects that go, and the number of pieces for each end of the
/// range at which one is cut.
pub(crate) fn unmap<D: Disk>(
    world: &mut World<D>,
    space: &mut Ranges<VnSeg>,
    process: u32,
    addr: u32,
    length: u32,
) -> Result<Reply, AllocError>
    requires fits { MayBeAlive world.old process space.old.parts }
    ensures done { IfOk result (IsAnswered world.old world.new process
        space.old.parts space.new.parts (calls.Unmap addr length)) }
    ensures fall { IfOk result (λ _. CountsFall world.old world.new) }
    ensures err { OnErr result (IsUnchanged world.old world.new space.old.parts space.new.parts) }
    // What stays.
    ensures rest { SameFilesAndTails world.old world.new }
{
    if !is_range(addr, length) {
        return Ok(Reply::Refused(Errno::Invalid));
    }
    free_range(world, space, process, page_of(addr), pages_in(length))?;
    Ok(Reply::Done)
}
