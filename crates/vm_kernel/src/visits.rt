//! What a seat does from the moment that it has the state to the moment that it leaves it.
ghost use Rattle.std.specs.Prelude.{◌≡◌, ◌<◌, ℕ, Some, None, IfSome, length, option_map, true};
ghost use Rattle.kernel_lock.specs.Seats.{IsSeatOf, after_tells};
ghost use Rattle.vm_core.specs.Fits.{FitsAt};
ghost use Rattle.vm_core.specs.vm_types.WellFormed.{IsWellFormed};
ghost use Rattle.vm_core.specs.vm_world.Events.{CanTry};
ghost use Rattle.vm_core.specs.vm_world.State.{Sent};
ghost use Rattle.vm_kernel.specs.Notes.{note_of_held, AreUnperformed, InHand, IsSentFor};
ghost use Rattle.vm_kernel.specs.Tells.{files_of, files_of_end, files_of_try, tells_of_try};
ghost use Rattle.vm_kernel.specs.Visits.{LeavesAccess, LeavesTry, LeavesEnd, LeavesHand};
ghost use Rattle.vm_core.specs.fault_entry.Accesses.{IsAccess};
ghost use Rattle.vm_kernel.specs.Steps.{IsForNone};

use crate::boxed::BoxedState;
use crate::sent::SentFlight;
use crate::steps::Tried;
use kernel_lock::lock::KernelLock;
use kernel_lock::seat::Seat;
use std::alloc::AllocError;
use vm_core::{Answer, Call, Disk, Reply};
use vm_types::{ends_call, file_of_call};

// The end of a call of a file lets go on all who wait for it. A Truncate is told, too: whoever came back from that bell rings it in the end.
fn tell_of_file<D: Disk>(
    lock: &KernelLock<BoxedState<D>>,
    seat: &mut Seat<BoxedState<D>>,
    call: &Call,
    reply: &Reply,
)
    requires seat { IsSeatOf lock.now seat.old }
    requires formed { IsWellFormed call.now }
    ensures seat { IsSeatOf lock.now seat.new }
    ensures told { seat.new ≡ after_tells 0 (files_of call.now reply.now) seat.old }
{
    if file_of_call(call).is_some() && ends_call(call, reply) {
        // `ring_all files` of the model.
        lock.tell_files(seat);
    }
}

// A call that is over may let go on who waits for a page or a disk, and where it was of a file, those who wait for it.
fn tell_of_try<D: Disk>(
    lock: &KernelLock<BoxedState<D>>,
    seat: &mut Seat<BoxedState<D>>,
    call: &Call,
    tried: &Result<Tried, AllocError>,
)
    requires seat { IsSeatOf lock.now seat.old }
    requires formed { IsWellFormed call.now }
    ensures seat { IsSeatOf lock.now seat.new }
    ensures told { seat.new ≡ after_tells (tells_of_try tried.now)
        (files_of_try call.now tried.now) seat.old }
{
    match tried {
        Ok(Tried::Done(reply)) => {
            // `ring changes` of the model.
            lock.tell(seat);
            tell_of_file(lock, seat, call, reply);
        }
        // `ring changes` of the model.
        Err(_) => lock.tell(seat),
        Ok(Tried::Out) | Ok(Tried::Busy(_)) => {}
    }
}

// A transfer that ended lets go on who waits for its page or its disk; and where it failed, its call is over.
fn tell_of_end<D: Disk>(
    lock: &KernelLock<BoxedState<D>>,
    seat: &mut Seat<BoxedState<D>>,
    call: Option<(u32, &Call)>,
    reply: &Option<Reply>,
)
    requires seat { IsSeatOf lock.now seat.old }
    requires formed { IfSome call (λ c. IsWellFormed c.1.now) }
    ensures seat { IsSeatOf lock.now seat.new }
    ensures told { seat.new ≡ after_tells 1 (files_of_end
        (option_map (λ (c : ℕ × _). (c.0, c.1.now)) call.entry) reply.now) seat.old }
{
    // `ring changes` of the model.
    lock.tell(seat);
    if let (Some((_, call)), Some(reply)) = (call, reply) {
        tell_of_file(lock, seat, call, reply);
    }
}

/// Tries a call, begins the transfer that it needs, leaves, and tells those whom an entry may let go on. Steps `ends_call`, `ends_file_call` and `ends_part`
/// of the model, `sends`, `meets_busy` and `meets_file_busy`.
pub(crate) fn try_and_leave<D: Disk>(
    lock: &KernelLock<BoxedState<D>>,
    seat: &mut Seat<BoxedState<D>>,
    state: BoxedState<D>,
    process: u32,
    call: &Call,
    sent: &mut Option<SentFlight<D>>,
) -> Result<Tried, AllocError>
    requires seat { IsSeatOf lock.now seat.old }
    requires inside { (seat.old.inside ≡ true) × (seat.old.state ≡ Some state)
        × (seat.old.note ≡ None) }
    requires fits { FitsAt state seat.old.number None }
    requires formed { IsWellFormed call.now }
    requires may { CanTry state seat.old.number process call.now }
    requires none { sent.old ≡ None }
    // The seat goes out of one event, with what is in hand then as its note, and tells of it.
    ensures seat { IsSeatOf lock.now seat.new }
    ensures leaves { LeavesTry seat.old state process call.now seat.new
        (note_of_held sent.new) result }
    ensures ready { AreUnperformed sent.new }
{
    let mut state = state;
    let tried = state.try_and_begin(seat.number(), process, call, sent);
    lock.leave(seat, state, sent);
    tell_of_try(lock, seat, call, &tried);
    tried
}

/// Tries a load or a store, begins the transfer that it needs, and leaves. Nobody waits for what it does, so nobody is told.
#[inline(always)]
pub(crate) fn access_and_leave<D: Disk>(
    lock: &KernelLock<BoxedState<D>>,
    seat: &mut Seat<BoxedState<D>>,
    state: BoxedState<D>,
    process: u32,
    call: &Call,
    sent: &mut Option<SentFlight<D>>,
) -> Answer
    requires access { IsAccess call.now }
    requires seat { IsSeatOf lock.now seat.old }
    requires inside { (seat.old.inside ≡ true) × (seat.old.state ≡ Some state)
        × (seat.old.note ≡ None) }
    requires fits { FitsAt state seat.old.number None }
    requires may { CanTry state seat.old.number process call.now }
    requires none { sent.old ≡ None }
    // The seat goes out of one event, with what is in hand then as its note.
    ensures seat { IsSeatOf lock.now seat.new }
    ensures leaves { LeavesAccess seat.old state process call.now seat.new
        (note_of_held sent.new) result }
    ensures ready { AreUnperformed sent.new }
{
    let mut state = state;
    let answer = state.access_and_begin(seat.number(), process, call, sent);
    lock.leave(seat, state, sent);
    answer
}

/// The transfer that a seat has outside, which is for this process and call, ends, and the seat leaves and tells. Steps `moves` and
/// `ends_flight` of the model.
#[inline(always)]
pub(crate) fn end_and_leave<D: Disk>(
    lock: &KernelLock<BoxedState<D>>,
    seat: &mut Seat<BoxedState<D>>,
    state: BoxedState<D>,
    sent: SentFlight<D>,
    call: Option<(u32, &Call)>,
) -> Option<Reply>
    requires seat { IsSeatOf lock.now seat.old }
    requires inside { (seat.old.inside ≡ true) × (seat.old.state ≡ Some state) }
    requires fits { FitsAt state seat.old.number seat.old.note }
    requires hand { InHand (Some sent) seat.old.note }
    requires of { IsSentFor sent (option_map (λ (c : ℕ × _). (c.0, c.1.now)) call) }
    requires formed { IfSome call (λ c. IsWellFormed c.1.now) }
    // The seat goes out of one event, with nothing as its note, and tells of it.
    ensures seat { IsSeatOf lock.now seat.new }
    ensures leaves { (note : Sent) → seat.old.note ≡ Some note
        → LeavesEnd seat.old state note seat.new result }
{
    let mut state = state;
    let reply = state.end_flight(seat.number(), sent, call);
    lock.leave(seat, state, &None);
    tell_of_end(lock, seat, call, &reply);
    reply
}

/// A hand of the clock moves, the push that it answers begins, and the seat leaves.
pub(crate) fn hand_and_leave<D: Disk>(
    lock: &KernelLock<BoxedState<D>>,
    seat: &mut Seat<BoxedState<D>>,
    state: BoxedState<D>,
    sent: &mut Option<SentFlight<D>>,
)
    requires seat { IsSeatOf lock.now seat.old }
    requires inside { (seat.old.inside ≡ true) × (seat.old.state ≡ Some state)
        × (seat.old.note ≡ None) }
    requires fits { FitsAt state seat.old.number None }
    requires seated { seat.old.number < length state.syncs }
    requires none { sent.old ≡ None }
    // The seat goes out of one event, with what is in hand then as its note.
    ensures seat { IsSeatOf lock.now seat.new }
    ensures leaves { LeavesHand seat.old state seat.new (note_of_held sent.new) }
    ensures ready { AreUnperformed sent.new }
    ensures of { IsForNone (note_of_held sent.new) }
{
    let mut state = state;
    state.move_hand(seat.number(), sent);
    lock.leave(seat, state, sent);
}
