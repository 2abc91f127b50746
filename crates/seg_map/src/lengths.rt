//! Files that get another length.
ghost use Rattle.std.specs.Prelude.{◌≡◌, ◌<◌, ℕ, length, None};
ghost use Rattle.seg_ops.specs.vm_types.declared.call.Call.TheVariants.{Truncate};
ghost use Rattle.seg_ops.specs.vm_types.declared.call.Reply.TheVariants.{Done};
ghost use Rattle.seg_ops.specs.vm_world.FileCalls.{room_refusal};
ghost use Rattle.seg_ops.specs.vm_world.Segments.{Spaces};
ghost use Rattle.seg_ops.specs.vm_world.Words.{memory, Fits, IsFit, IsKnown, OneIsHome};
ghost use Rattle.seg_ops.specs.vm_world.World.{world_seen};
ghost use Rattle.seg_map.specs.Served.{ServesReply};
ghost use Rattle.seg_map.specs.Shorter.{HoldsTail};

use crate::longer::make_longer;
use crate::ready::ready_last;
use crate::shorter::make_shorter;
use seg_ops::{Disk, Hold, PAGE_SIZE, PageName, Residence, Wants, World};

/// The seat with which the page is moving that gets a tail as the file gets shorter, if one has it.
fn tail_holder<D: Disk>(world: &World<D>, file: u32, end: u32) -> Option<u32>
    ensures { HoldsTail (world_seen world.now) file end result }
{
    let tail = end % PAGE_SIZE;
    if tail == 0 {
        return None;
    }
    match world.store.resident(PageName {
        object: file,
        page: end / PAGE_SIZE,
    }) {
        Residence::Moving(seat) => Some(seat),
        _ => None,
    }
}

/// Gives a file another length. Where it gets longer the bytes and pages that this adds are zeros, and its old last page comes
/// home first, where it has a tail and may hold anything there. Where it gets shorter its pages past the end are gone, and the
/// new tail is zeros. Time: the pages that it gets or loses.
pub fn truncate<D: Disk>(world: &mut World<D>, file: u32, end: u32) -> Result<(), Wants>
    requires served { room_refusal world.old.files file end ≡ None }
    requires home { OneIsHome world.old.store }
    requires fits { IsFit world.old }
    requires noted { IsKnown world.old }
    ensures serves { (spaces : Spaces) (p : ℕ) → Fits world.old spaces
        → ServesReply Done (memory world.old spaces) (memory world.new spaces)
        world.old.pending world.new.pending p (Truncate file end) result }
    // What stays.
    ensures rest { world.new ≡ record world.old {
      store = world.new.store;
      hat = world.new.hat;
      files = world.new.files;
    } }
{
    if end < world.files.info(file).length {
        if let Some(seat) = tail_holder(world, file, end) {
            return Err(Wants::Seat(Hold::Page(seat)));
        }
        make_shorter(world, file, end);
        return Ok(());
    }
    ready_last(world, file, end)?;
    make_longer(world, file, end);
    Ok(())
}
