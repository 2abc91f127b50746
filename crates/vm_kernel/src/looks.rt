//! A look at the state, which stays as it is: which object a page of a process shows.
ghost use Rattle.std.specs.Prelude.{◌≡◌, [], false, IsTrue, None};
ghost use Rattle.kernel_lock.specs.Seats.{IsSeatOf};
ghost use Rattle.vm_core.specs.flat_model.Flat.{Flat, cell_at};
ghost use Rattle.vm_core.specs.flat_model.History.{replay};
ghost use Rattle.vm_core.specs.vm_world.Events.{FollowsHistory};
ghost use Rattle.vm_core.specs.vm_world.State.{KernelState, is_top};
ghost use Rattle.vm_kernel.specs.Callers.{IsCallerOf};
ghost use Rattle.vm_kernel.specs.Objects.{NoneForks, object_told};
ghost use Rattle.vm_kernel.specs.Turns.{CallerGoesOn};
ghost use Rattle.vm_kernel.specs.Visits.{Visit};

use crate::boxed::BoxedState;
use crate::caller::Caller;
use crate::kernel::VmKernel;
use kernel_lock::lock::KernelLock;
use kernel_lock::seat::Seat;
use std::sync::Wait;
use vm_core::Disk;
use vm_types::Object;

/// The object of a process's cell at a page, in a visit that changes nothing. It waits for the
/// lock.
fn look_at<R: Wait, D: Disk>(
    rt: &R,
    lock: &KernelLock<BoxedState<D>>,
    seat: &mut Seat<BoxedState<D>>,
    process: u32,
    page: u32,
) -> Option<(Object, u32)>
    requires seat { IsSeatOf lock.now seat.old }
    requires outside { seat.old.inside ≡ false }
    requires free { seat.old.note ≡ None }
    ensures seat { IsSeatOf lock.now seat.new }
    ensures visit { (s : KernelState) × Visit seat.old s None [] 0 0 seat.new }
    ensures object { (F : Flat) → FollowsHistory F lock.now.opening
        → result ≡ object_told (cell_at (replay F seat.new.seen) process page) }
    ensures forked { IsTrue (is_top lock.now.opening.parents process)
        → NoneForks process seat.new.seen }
{
    let state = lock.enter(rt, seat);
    let object = state.object(process, page);
    lock.leave(seat, state, &None);
    object
}

impl<D: Disk> VmKernel<D> {
    /// The object of the cell of the caller's process at a page, and which page of it the cell
    /// stands for, by what the caller has seen then; None exactly where there is no cell. It waits
    /// for the lock, and takes no memory.
    pub fn object<R: Wait>(
        &self,
        rt: &R,
        caller: &mut Caller<D>,
        page: u32,
    ) -> Option<(Object, u32)>
        requires caller { IsCallerOf self.now caller.old }
        requires free { caller.old.seat.note ≡ None }
        // The caller has seen no less, and made no entry.
        ensures caller { IsCallerOf self.now caller.new }
        ensures goes { CallerGoesOn caller.old caller.new }
        ensures same { caller.new.seat.own ≡ caller.old.seat.own }
        ensures free { caller.new.seat.note ≡ None }
        // Whatever disks tell.
        ensures object { (F : Flat) → FollowsHistory F self.now.opening
            → result
            ≡ object_told (cell_at (replay F caller.new.seat.seen) caller.new.process page) }
        // Nobody forks a process that has no parent.
        ensures forked { IsTrue (is_top self.now.opening.parents caller.new.process)
            → NoneForks caller.new.process caller.new.seat.seen }
    {
        look_at(rt, &self.lock, &mut caller.seat, caller.process, page)
    }
}
