//! How a kernel is closed: the callers are gathered, and the state comes out.
ghost use Rattle.std.specs.Prelude.{◌≡◌, None, map, replicate};
ghost use Rattle.std.specs.List.{All};
ghost use Rattle.kernel_lock.specs.Seats.{HasAll, IsClosed};
ghost use Rattle.vm_kernel.specs.Callers.{IsCallerOf, caller_part};
ghost use Rattle.vm_kernel.specs.Since.{seat_of_entry, history_of, IsSinceOpening};

use crate::boxed::BoxedState;
use crate::caller::Caller;
use crate::kernel::VmKernel;
use kernel_lock::closing::Gathered;
use kernel_lock::lock::KernelLock;
use vm_core::{Disk, VmState};

fn gather_all<D: Disk>(
    lock: &KernelLock<BoxedState<D>>,
    mut callers: Vec<Caller<D>>,
) -> Gathered<BoxedState<D>>
    requires { All (λ it. IsCallerOf lock.now it) callers.items }
    ensures { result ≡ record { lock = lock.now.lock; parts = map caller_part callers.items } }
{
    let mut from = lock.gather_none();
    while let Some(caller) = callers.pop() {
        lock.gather(&mut from, caller.into_seat());
    }
    callers.destroy_empty();
    from
}

impl<D: Disk> VmKernel<D> {
    /// Gives the state back for all its callers. It takes no memory.
    pub fn close(self, callers: Vec<Caller<D>>) -> VmState<D>
        requires callers { All (λ it. IsCallerOf self it) callers.items }
        requires all { HasAll self.seats (map caller_part callers.items) }
        ensures closed { IsClosed seat_of_entry history_of IsSinceOpening self.opening self.seats
            (map caller_part callers.items) result }
        // Where no caller has a transfer in hand, nothing is outside.
        ensures still { All (λ it. it.seat.note ≡ None) callers.items
            → IsSinceOpening self.opening result (replicate self.seats None) }
    {
        let VmKernel { lock } = self;
        let from = gather_all(&lock, callers);
        lock.close_gathered(from).into_state()
    }
}
