//! The two halves of a turn: a try, with the transfer that it needs, and the end of that transfer.
ghost use Rattle.std.specs.Prelude.{◌≡◌, ◌⊎◌, ◌≢◌, ◌≤◌, ◌+◌, ℕ, Some, None, length, IfOk, OnErr};
ghost use Rattle.kernel_lock.specs.Seats.{IsSeatOf};
ghost use Rattle.vm_core.specs.fault_entry.Accesses.{IsAccess};
ghost use Rattle.vm_core.specs.vm_types.WellFormed.{IsWellFormed};
ghost use Rattle.vm_kernel.specs.Callers.{IsIdle};
ghost use Rattle.vm_kernel.specs.Steps.{IsNoteFor, IsForNone};
ghost use Rattle.vm_kernel.specs.Tries.{IsAllFor, IsAllTo, IsMove, LandsInside};
ghost use Rattle.vm_kernel.specs.Turns.{
  MayCall,
  CallerGoesOn,
  MovesHands,
  TriesOnce,
  IsOneTurn,
  IsQuick,
  IsTurn,
  IsFirstHalf,
  LacksMemory,
  caller_at,
  turn_of_ended,
};

use crate::boxed::BoxedState;
use crate::sent::SentFlight;
use crate::steps::perform;
use crate::turn::{Ended, Quick, Turn, Why, ended_of, quick_of, turn_of_ended, turn_of_try};
use crate::visits::{access_and_leave, end_and_leave, hand_and_leave, try_and_leave};
use kernel_lock::lock::KernelLock;
use kernel_lock::seat::Seat;
use std::alloc::AllocError;
use std::sync::Wait;
use vm_core::{Call, Disk};

/// The first half of a turn, with nothing in hand: a try, and the transfer that it needs, which is in hand then. Not inline, so that
/// the end of a transfer has no room for its values.
#[inline(never)]
fn first_at<D: Disk>(
    lock: &KernelLock<BoxedState<D>>,
    seat: &mut Seat<BoxedState<D>>,
    process: u32,
    sent: &mut Option<SentFlight<D>>,
    call: &Call,
) -> Result<Option<Turn>, AllocError>
    requires seat { IsSeatOf lock.now seat.old }
    requires idle { IsIdle seat.old process sent.old }
    requires may { MayCall lock.now (caller_at seat.old process) call.now }
    requires none { sent.old ≡ None }
    // The caller goes on, and what its first half comes to.
    ensures seat { IsSeatOf lock.now seat.new }
    ensures idle { IsIdle seat.new process sent.new }
    ensures goes { CallerGoesOn (caller_at seat.old process) (caller_at seat.new process) }
    ensures once { TriesOnce (caller_at seat.old process) (caller_at seat.new process) }
    ensures emptied { seat.new.emptied ≡ seat.old.emptied }
    ensures half { IsFirstHalf (caller_at seat.old process) call.now
        (caller_at seat.new process) result }
    // Each try of the lock was for the call.
    ensures all { IsAllTo lock.now (caller_at seat.old process) call.now
        (caller_at seat.new process) result }
{
    let Some(state) = lock.try_enter(seat) else {
        return Ok(Some(Turn::Again(Why::LockHeld)));
    };
    let tried = try_and_leave(lock, seat, state, process, call, sent);
    perform(sent);
    turn_of_try(tried)
}

/// One try of a load or a store, with nothing in hand, and the transfer that it needs, which is in hand then.
#[inline(always)]
pub(crate) fn access_at<D: Disk>(
    lock: &KernelLock<BoxedState<D>>,
    seat: &mut Seat<BoxedState<D>>,
    process: u32,
    sent: &mut Option<SentFlight<D>>,
    call: &Call,
) -> Quick
    requires access { IsAccess call.now }
    requires seat { IsSeatOf lock.now seat.old }
    requires idle { IsIdle seat.old process sent.old }
    requires may { MayCall lock.now (caller_at seat.old process) call.now }
    requires none { sent.old ≡ None }
    // The caller goes on, and what its try comes to.
    ensures seat { IsSeatOf lock.now seat.new }
    ensures idle { IsIdle seat.new process sent.new }
    ensures goes { CallerGoesOn (caller_at seat.old process) (caller_at seat.new process) }
    ensures quick { IsQuick (caller_at seat.old process) call.now
        (caller_at seat.new process) result }
    // Each try of the lock was for the call.
    ensures all { IsAllFor lock.now (caller_at seat.old process) call.now
        (caller_at seat.new process) }
{
    let Some(state) = lock.try_enter(seat) else {
        return Quick::Later;
    };
    let answer = access_and_leave(lock, seat, state, process, call, sent);
    perform(sent);
    quick_of(answer)
}

/// The second half, with a transfer in hand: it ends. Not inline, and all that it calls is, so that the flight isn't moved.
#[inline(never)]
fn second_at<D: Disk>(
    lock: &KernelLock<BoxedState<D>>,
    seat: &mut Seat<BoxedState<D>>,
    process: u32,
    sent: &mut Option<SentFlight<D>>,
    call: &Call,
) -> Ended
    requires seat { IsSeatOf lock.now seat.old }
    requires idle { IsIdle seat.old process sent.old }
    requires formed { IsWellFormed call.now }
    requires out { IsNoteFor process call.now seat.old.note }
    requires named { process ≡ seat.old.number + 1 }
    // The caller goes on, and what its second half comes to.
    ensures seat { IsSeatOf lock.now seat.new }
    ensures idle { IsIdle seat.new process sent.new }
    ensures goes { CallerGoesOn (caller_at seat.old process) (caller_at seat.new process) }
    ensures once { TriesOnce (caller_at seat.old process) (caller_at seat.new process) }
    ensures ended { (seat.new.emptied ≡ seat.old.emptied + 1) ⊎ (seat.new.note ≡ seat.old.note) }
    ensures turn { IsTurn (caller_at seat.old process) call.now (caller_at seat.new process)
        (turn_of_ended result) }
    // Each try of the lock was for the call.
    ensures all { IsAllFor lock.now (caller_at seat.old process) call.now
        (caller_at seat.new process) }
{
    let Some(state) = lock.try_enter(seat) else {
        return Ended::Held;
    };
    let Some(flight) = sent.take() else {
        unreachable!()
    };
    let reply = end_and_leave(lock, seat, state, flight, Some((process, call)));
    ended_of(reply)
}

/// One turn with a transfer in hand, without waiting.
#[inline(always)]
pub(crate) fn end_at<D: Disk>(
    lock: &KernelLock<BoxedState<D>>,
    seat: &mut Seat<BoxedState<D>>,
    process: u32,
    sent: &mut Option<SentFlight<D>>,
    call: &Call,
) -> Ended
    requires seat { IsSeatOf lock.now seat.old }
    requires idle { IsIdle seat.old process sent.old }
    requires may { MayCall lock.now (caller_at seat.old process) call.now }
    requires out { seat.old.note ≢ None }
    // The caller goes on, and what the turn comes to.
    ensures seat { IsSeatOf lock.now seat.new }
    ensures idle { IsIdle seat.new process sent.new }
    ensures goes { CallerGoesOn (caller_at seat.old process) (caller_at seat.new process) }
    ensures turn { IsTurn (caller_at seat.old process) call.now (caller_at seat.new process)
        (turn_of_ended result) }
    // Each try of the lock was for the call.
    ensures all { IsAllFor lock.now (caller_at seat.old process) call.now
        (caller_at seat.new process) }
{
    second_at(lock, seat, process, sent, call)
}

/// One turn of a seat, without waiting.
pub(crate) fn turn_at<D: Disk>(
    lock: &KernelLock<BoxedState<D>>,
    seat: &mut Seat<BoxedState<D>>,
    process: u32,
    sent: &mut Option<SentFlight<D>>,
    call: &Call,
) -> Result<Turn, AllocError>
    requires seat { IsSeatOf lock.now seat.old }
    requires idle { IsIdle seat.old process sent.old }
    requires may { MayCall lock.now (caller_at seat.old process) call.now }
    // The caller goes on, and what the turn comes to.
    ensures seat { IsSeatOf lock.now seat.new }
    ensures idle { IsIdle seat.new process sent.new }
    ensures goes { CallerGoesOn (caller_at seat.old process) (caller_at seat.new process) }
    ensures once { IsOneTurn (caller_at seat.old process) (caller_at seat.new process) }
    ensures turn { IfOk result (λ turn. IsTurn (caller_at seat.old process) call.now
        (caller_at seat.new process) turn) }
    ensures err { OnErr result (LacksMemory (caller_at seat.old process) call.now
        (caller_at seat.new process)) }
    // Each try of the lock was for the call.
    ensures all { IsAllTo lock.now (caller_at seat.old process) call.now
        (caller_at seat.new process) result }
{
    if sent.is_some() {
        return Ok(turn_of_ended(second_at(lock, seat, process, sent, call)));
    }
    match first_at(lock, seat, process, sent, call)? {
        Some(turn) => Ok(turn),
        None => Ok(turn_of_ended(second_at(lock, seat, process, sent, call))),
    }
}

/// Brings home what the clock has sent. It waits for the lock.
fn land<R: Wait, D: Disk>(
    rt: &R,
    lock: &KernelLock<BoxedState<D>>,
    seat: &mut Seat<BoxedState<D>>,
    process: u32,
    sent: &mut Option<SentFlight<D>>,
)
    requires seat { IsSeatOf lock.now seat.old }
    requires idle { IsIdle seat.old process sent.old }
    requires of { IsForNone seat.old.note }
    // The caller goes on with nothing in hand, and made no entry.
    ensures seat { IsSeatOf lock.now seat.new }
    ensures idle { IsIdle seat.new process sent.new }
    ensures none { (sent.new ≡ None) × (seat.new.note ≡ None) }
    ensures goes { CallerGoesOn (caller_at seat.old process) (caller_at seat.new process) }
    ensures own { seat.new.own ≡ seat.old.own }
    ensures home { (pushes : ℕ) × (pushes ≤ 1)
        × MovesHands (caller_at seat.old process) 0 pushes (caller_at seat.new process) }
    ensures lands { (seat.new ≡ seat.old) ⊎ LandsInside lock.now seat.old seat.new }
{
    if sent.is_none() {
        return;
    }
    bring_home(rt, lock, seat, process, sent);
}

// The same, with something in hand. Not inline, so that a move without a push has no room for a flight.
#[inline(never)]
fn bring_home<R: Wait, D: Disk>(
    rt: &R,
    lock: &KernelLock<BoxedState<D>>,
    seat: &mut Seat<BoxedState<D>>,
    process: u32,
    sent: &mut Option<SentFlight<D>>,
)
    requires seat { IsSeatOf lock.now seat.old }
    requires idle { IsIdle seat.old process sent.old }
    requires of { IsForNone seat.old.note }
    // The caller goes on with nothing in hand, and made no entry.
    ensures seat { IsSeatOf lock.now seat.new }
    ensures idle { IsIdle seat.new process sent.new }
    ensures none { (sent.new ≡ None) × (seat.new.note ≡ None) }
    ensures goes { CallerGoesOn (caller_at seat.old process) (caller_at seat.new process) }
    ensures own { seat.new.own ≡ seat.old.own }
    ensures home { (pushes : ℕ) × (pushes ≤ 1)
        × MovesHands (caller_at seat.old process) 0 pushes (caller_at seat.new process) }
    ensures lands { (seat.new ≡ seat.old) ⊎ LandsInside lock.now seat.old seat.new }
{
    let Some(flight) = sent.take() else {
        return;
    };
    let state = lock.enter(rt, seat);
    let _ = end_and_leave(lock, seat, state, flight, None);
}

/// One move of a hand of the clock, with its transfer. It waits for the lock.
pub(crate) fn move_at<R: Wait, D: Disk>(
    rt: &R,
    lock: &KernelLock<BoxedState<D>>,
    seat: &mut Seat<BoxedState<D>>,
    process: u32,
    sent: &mut Option<SentFlight<D>>,
)
    requires seat { IsSeatOf lock.now seat.old }
    requires seats { lock.now.seats ≤ length lock.now.opening.syncs }
    requires idle { IsIdle seat.old process sent.old }
    requires none { sent.old ≡ None }
    // The caller goes on with nothing in hand, and made no entry.
    ensures seat { IsSeatOf lock.now seat.new }
    ensures idle { IsIdle seat.new process sent.new }
    ensures none { (sent.new ≡ None) × (seat.new.note ≡ None) }
    ensures goes { CallerGoesOn (caller_at seat.old process) (caller_at seat.new process) }
    ensures own { seat.new.own ≡ seat.old.own }
    ensures moves { (pushes : ℕ) × (pushes ≤ 1)
        × MovesHands (caller_at seat.old process) 1 pushes (caller_at seat.new process) }
    ensures hand { IsMove lock.now seat.old seat.new }
{
    let state = lock.enter(rt, seat);
    hand_and_leave(lock, seat, state, sent);
    perform(sent);
    land(rt, lock, seat, process, sent);
}
