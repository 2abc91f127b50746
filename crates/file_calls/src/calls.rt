//! What is answered to a call on a file.
ghost use Rattle.std.specs.Prelude.{◌≡◌, ◌≢◌, ◌↔◌, ℕ, Some, IsSome, length};
ghost use Rattle.seg_vn.specs.page_store.declared.plan.Hold.TheVariants.{File};
ghost use Rattle.seg_vn.specs.vm_types.Parts.{file_of_call};
ghost use Rattle.seg_vn.specs.vm_types.WellFormed.{IsWellFormed};
ghost use Rattle.seg_vn.specs.vm_world.Segments.{Spaces};
ghost use Rattle.seg_vn.specs.vm_world.Words.{memory, Fits, IsFit, IsKnown, TwoAreHome};
ghost use Rattle.seg_vn.specs.Serves.{Serves};
ghost use Rattle.seg_vn.specs.declared.attempt.Attempt.TheVariants.{Busy};
ghost use Rattle.file_calls.specs.Calls.{IsFileAnswer};
ghost use Rattle.file_calls.specs.Locks.{IsAnothers, locks_answered};

use crate::locks::FileLocks;
use crate::served::serve;
use seg_vn::{Attempt, Call, Disk, Hold, Wants, World};
use vm_types::file_of_call;

// The holder, where it isn't this seat.
fn other_than(holder: Option<u32>, seat: u32) -> Option<u32>
    ensures { (t : ℕ) → (result ≡ Some t) ↔ ((holder ≡ Some t) × (t ≢ seat)) }
{
    match holder {
        Some(other) if other != seat => holder,
        _ => None,
    }
}

// The other seat that has the call of this call's file between two parts, if one has it.
fn other_holder(locks: &FileLocks, seat: u32, call: &Call) -> Option<u32>
    ensures { (t : ℕ) → (result ≡ Some t) ↔ IsAnothers locks.now seat call.now t }
{
    match file_of_call(call) {
        Some(file) => other_than(locks.seat(file), seat),
        None => None,
    }
}

/// Answers a call on a file for a seat, where seats may have calls of files between two parts: another seat that has this file's is
/// waited for, before it is known whether a refusal is due. A part that is done and doesn't end its call makes the file the seat's,
/// and one that ends it frees it. It takes no memory, and makes no disk call. Time: a part takes its bytes and looks for its page,
/// and one that makes the file longer the pages that it adds; a Truncate the pages that the file gets or loses.
pub fn attempt<D: Disk>(
    world: &mut World<D>,
    locks: &mut FileLocks,
    seat: u32,
    call: &Call,
) -> Attempt
    requires file { IsSome (file_of_call call.now) }
    requires formed { IsWellFormed call.now }
    requires home { TwoAreHome world.old.store }
    requires fits { IsFit world.old }
    requires noted { IsKnown world.old }
    // What is answered; another seat is waited for exactly where it has the file.
    ensures serves { (spaces : Spaces) (p : ℕ) → Fits world.old spaces
        → Serves (memory world.old spaces) (memory world.new spaces)
        world.old.pending world.new.pending locks.old p call.now result }
    ensures waits { (t : ℕ) → (result ≡ Busy (File t)) ↔ IsAnothers locks.old seat call.now t }
    ensures own { IsFileAnswer result call.now }
    // Whose call of a file is between two parts then, of 64 files.
    ensures locks { locks.new ≡ locks_answered seat call.now result locks.old }
    ensures places { length locks.old ≡ 64 }
    // What stays.
    ensures rest { world.new ≡ record world.old {
      store = world.new.store;
      hat = world.new.hat;
      files = world.new.files;
      pending = world.new.pending;
    } }
{
    let _places = locks.count();
    if let Some(other) = other_holder(locks, seat, call) {
        return Attempt::Busy(Hold::File(other));
    }
    match serve(world, call) {
        Ok(reply) => {
            locks.note(seat, call, &reply);
            Attempt::Done(reply)
        }
        Err(Wants::Transfer(plan)) => Attempt::Need(plan),
        Err(Wants::Seat(hold)) => Attempt::Busy(hold),
    }
}
