//! Loads and stores that are looked for as hits before they are tried.
ghost use Rattle.std.specs.Prelude.{◌≡◌, true, Some, None};
ghost use Rattle.kernel_lock.specs.Seats.{IsSeatOf};
ghost use Rattle.vm_core.specs.Fits.{FitsAt};
ghost use Rattle.vm_core.specs.fault_entry.Accesses.{IsAccess};
ghost use Rattle.vm_core.specs.vm_world.Events.{CanTry};
ghost use Rattle.vm_kernel.specs.Callers.{IsIdle};
ghost use Rattle.vm_kernel.specs.Tries.{IsAllFor};
ghost use Rattle.vm_kernel.specs.Turns.{MayCall, CallerGoesOn, IsQuick, caller_at};
ghost use Rattle.vm_kernel.specs.Visits.{LeavesQuick};

use crate::boxed::BoxedState;
use crate::sent::SentFlight;
use crate::steps::perform;
use crate::turn::{Quick, quick_of};
use crate::visits::access_and_leave;
use kernel_lock::lock::KernelLock;
use kernel_lock::seat::Seat;
use vm_core::{Call, Disk};

/// One try of a load or a store, with nothing in hand, and the transfer that it needs, which is in hand then. A hit is looked for first, by a
/// call `own` that is known where this is inlined, so that its kind is looked at once.
#[inline(always)]
pub(crate) fn hit_at<D: Disk>(
    lock: &KernelLock<BoxedState<D>>,
    seat: &mut Seat<BoxedState<D>>,
    process: u32,
    sent: &mut Option<SentFlight<D>>,
    own: &Call,
    call: &Call,
) -> Quick
    requires same { own.now ≡ call.now }
    requires access { IsAccess call.now }
    requires seat { IsSeatOf lock.now seat.old }
    requires idle { IsIdle seat.old process sent.old }
    requires may { MayCall lock.now (caller_at seat.old process) call.now }
    requires none { sent.old ≡ None }
    // The caller goes on, and what its try comes to.
    ensures seat { IsSeatOf lock.now seat.new }
    ensures idle { IsIdle seat.new process sent.new }
    ensures goes { CallerGoesOn (caller_at seat.old process) (caller_at seat.new process) }
    ensures quick { IsQuick (caller_at seat.old process) call.now
        (caller_at seat.new process) result }
    // Each try of the lock was for the call.
    ensures all { IsAllFor lock.now (caller_at seat.old process) call.now
        (caller_at seat.new process) }
{
    let Some(state) = lock.try_enter(seat) else {
        return Quick::Later;
    };
    let mut state = state;
    if let Some(answer) = state.try_hit(seat.number(), process, own) {
        lock.leave(seat, state, sent);
        return quick_of(answer);
    }
    miss_at(lock, seat, state, process, call, sent)
}

// A load or a store that is no hit. Inline, so that a hit's code clears no room for what a miss answers.
#[inline(always)]
fn miss_at<D: Disk>(
    lock: &KernelLock<BoxedState<D>>,
    seat: &mut Seat<BoxedState<D>>,
    state: BoxedState<D>,
    process: u32,
    call: &Call,
    sent: &mut Option<SentFlight<D>>,
) -> Quick
    requires access { IsAccess call.now }
    requires seat { IsSeatOf lock.now seat.old }
    requires inside { (seat.old.inside ≡ true) × (seat.old.state ≡ Some state)
        × (seat.old.note ≡ None) }
    requires fits { FitsAt state seat.old.number None }
    requires may { CanTry state seat.old.number process call.now }
    requires none { sent.old ≡ None }
    // The seat goes out of one event, with what is in hand then as its note.
    ensures seat { IsSeatOf lock.now seat.new }
    ensures leaves { LeavesQuick seat.old state process call.now seat.new sent.new result }
{
    missed_at(lock, seat, state, process, call, sent)
}

/// A load or a store that is no hit, of a seat that has the state: its try, and the transfer that it needs, which is in hand then. Not inline, so that a
/// hit's code has no room for its values.
#[inline(never)]
fn missed_at<D: Disk>(
    lock: &KernelLock<BoxedState<D>>,
    seat: &mut Seat<BoxedState<D>>,
    state: BoxedState<D>,
    process: u32,
    call: &Call,
    sent: &mut Option<SentFlight<D>>,
) -> Quick
    requires access { IsAccess call.now }
    requires seat { IsSeatOf lock.now seat.old }
    requires inside { (seat.old.inside ≡ true) × (seat.old.state ≡ Some state)
        × (seat.old.note ≡ None) }
    requires fits { FitsAt state seat.old.number None }
    requires may { CanTry state seat.old.number process call.now }
    requires none { sent.old ≡ None }
    // The seat goes out of one event, with what is in hand then as its note.
    ensures seat { IsSeatOf lock.now seat.new }
    ensures leaves { LeavesQuick seat.old state process call.now seat.new sent.new result }
{
    let answer = access_and_leave(lock, seat, state, process, call, sent);
    perform(sent);
    quick_of(answer)
}
