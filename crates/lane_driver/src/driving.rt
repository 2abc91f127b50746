//! Lanes that take their turns in a given order.
ghost use Rattle.std.specs.Prelude.{◌≡◌, ◌<◌, ◌≤◌, ℕ, [], ◌∷◌, Some, OnOk, OnErr, length, slice_get};
ghost use Rattle.fault_entry.specs.flat_model.Flat.{Flat};
ghost use Rattle.fault_entry.specs.vm_world.State.{Seats};
ghost use Rattle.fault_entry.specs.vm_world.StateFits.{StateFits};
ghost use Rattle.lane_driver.specs.Alone.{IsAlone, IsAllDone, turns_enough};
ghost use Rattle.lane_driver.specs.Drives.{Drives, DrivesFront, HaveMadeCalls};
ghost use Rattle.lane_driver.specs.Lanes.{LaneSeen, HaveOwnSeats, MayMakeCalls, with_lanes};

use crate::lane::Lane;
use std::alloc::AllocError;
use vm_core::{Disk, VmState};

/// The lanes take turns on one state, in the order of these numbers. A lane that has a transfer out makes and ends it; one that
/// has none tries its next call, and begins the transfer that the call needs; one that is done does nothing.
///
/// The error is want of memory, at the turn of a lane whose next call takes some, and the turns before it are done. Takes no memory
/// but what such calls take.
pub fn drive<D: Disk>(
    state: &mut VmState<D>,
    lanes: &mut [Lane<D>],
    order: &[u32],
) -> Result<(), AllocError>
    // The state fits with what the lanes and all other seats have outside.
    requires fits { (opening : Flat) × (seats : Seats)
        × StateFits opening state.old (with_lanes seats lanes.old) }
    requires seats { HaveOwnSeats lanes.old }
    requires numbers { (k number : ℕ) → slice_get order.now k ≡ Some number
        → number < length lanes.old }
    requires may { (k : ℕ) (lane : LaneSeen) → slice_get lanes.old k ≡ Some lane
        → MayMakeCalls state.old lane }
    // The lanes of these numbers take their turns; for want of memory those of a front of them, up to a call that takes some.
    ensures turns { OnOk result (Drives order.now state.old state.new lanes.old lanes.new) }
    ensures err { OnErr result
        (DrivesFront order.now state.old state.new lanes.old lanes.new) }
    // The state fits what it fitted, with what the lanes have outside then.
    ensures fits { (opening : Flat) (seats : Seats)
        → StateFits opening state.old (with_lanes seats lanes.old)
        → StateFits opening state.new (with_lanes seats lanes.new) }
    // Each lane's process made exactly the calls that the lane counts, and may make those that are left; the seats stay.
    ensures history { HaveMadeCalls state.old state.new lanes.old lanes.new }
    ensures may { (k : ℕ) (lane : LaneSeen) → slice_get lanes.new k ≡ Some lane
        → MayMakeCalls state.new lane }
    ensures seats { HaveOwnSeats lanes.new }
    // A lane that is alone comes to its end.
    ensures alone { (lane : LaneSeen) → lanes.old ≡ lane ∷ [] → IsAlone state.old lane
        → turns_enough (length state.old.memory.world.store.frames) lane ≤ length order.now
        → OnOk result (IsAllDone lanes.new) }
{
    for number in order {
        lanes[*number as usize].take_turn(state)?;
    }
    Ok(())
}
