//! What a seat does while it has the state: it tries a call and begins the transfer that the call needs, ends a transfer, or moves a
//! hand of the clock. No lock is named here.
ghost use Rattle.std.specs.Prelude.{◌≡◌, ◌<◌, ℕ, Some, None, length, option_map};
ghost use Rattle.vm_core.specs.Fits.{FitsAt};
ghost use Rattle.vm_core.specs.vm_types.WellFormed.{IsWellFormed};
ghost use Rattle.vm_core.specs.vm_world.Events.{IsEvent, CanTry};
ghost use Rattle.vm_core.specs.vm_world.State.{Sent};
ghost use Rattle.vm_kernel.specs.Notes.{note_of_held, AreUnperformed, InHand, IsSentFor};
ghost use Rattle.vm_core.specs.fault_entry.Accesses.{IsAccess};
ghost use Rattle.vm_kernel.specs.Steps.{TriesAccess, TriesCall, EndsFlight, MovesHand, SendsOut, IsForNone};

use crate::sent::SentFlight;
use std::alloc::AllocError;
use vm_core::{Answer, Attempt, Call, Disk, Hold, Plan, Reply, VmState};

/// What a try comes to.
#[derive(Clone, Copy, PartialEq, Eq, Debug)]
pub(crate) enum Tried {
    Done(Reply),
    /// A transfer has begun.
    Out,
    Busy(Hold),
}

/// Begins the transfer of the plan that was answered last: its flight is in this place then.
#[inline(always)]
fn send<D: Disk>(
    state: &mut VmState<D>,
    seat: u32,
    plan: Plan,
    of: &Option<(u32, Call)>,
    sent: &mut Option<SentFlight<D>>,
)
    requires fits { FitsAt state.old seat None }
    requires kept { state.old.plan ≡ Some (record { seat = seat; plan = plan; of = of.now }) }
    requires none { sent.old ≡ None }
    // One event: the flight of the plan is out, and waits for its transfer, and nothing else happened.
    ensures event { IsEvent seat state.old None state.new (note_of_held sent.new) }
    ensures ready { AreUnperformed sent.new }
    ensures sends { SendsOut state.old state.new seat plan of.now (note_of_held sent.new) }
{
    *sent = Some(SentFlight {
        flight: state.begin(seat, plan),
        of: *of,
    });
}

/// Tries a call, and begins the transfer that it needs.
pub(crate) fn try_and_begin<D: Disk>(
    state: &mut VmState<D>,
    seat: u32,
    process: u32,
    call: &Call,
    sent: &mut Option<SentFlight<D>>,
) -> Result<Tried, AllocError>
    requires fits { FitsAt state.old seat None }
    requires formed { IsWellFormed call.now }
    requires may { CanTry state.old seat process call.now }
    requires none { sent.old ≡ None }
    // One event: what the try leaves, and the flight that is out then, which waits for its transfer.
    ensures event { IsEvent seat state.old None state.new (note_of_held sent.new) }
    ensures tries { TriesCall state.old state.new seat process call.now (note_of_held sent.new)
        result }
    ensures ready { AreUnperformed sent.new }
{
    match state.try_call(seat, process, call)? {
        Attempt::Done(reply) => Ok(Tried::Done(reply)),
        Attempt::Need(plan) => {
            send(state, seat, plan, &Some((process, *call)), sent);
            Ok(Tried::Out)
        }
        Attempt::Busy(hold) => Ok(Tried::Busy(hold)),
    }
}

// Begins the transfer that a load or a store needs. Not inline, so that a hit's code has no room for a flight.
#[inline(never)]
fn send_for<D: Disk>(
    state: &mut VmState<D>,
    seat: u32,
    process: u32,
    plan: Plan,
    call: &Call,
    sent: &mut Option<SentFlight<D>>,
)
    requires fits { FitsAt state.old seat None }
    requires kept { state.old.plan ≡ Some (record {
      seat = seat;
      plan = plan;
      of = Some (process, call.now);
    }) }
    requires none { sent.old ≡ None }
    // One event: the flight of the plan is out.
    ensures event { IsEvent seat state.old None state.new (note_of_held sent.new) }
    ensures ready { AreUnperformed sent.new }
    ensures sends { SendsOut state.old state.new seat plan (Some (process, call.now))
        (note_of_held sent.new) }
{
    send(state, seat, plan, &Some((process, *call)), sent);
}

/// Tries a load or a store, and begins the transfer that it needs.
#[inline(always)]
pub(crate) fn access_and_begin<D: Disk>(
    state: &mut VmState<D>,
    seat: u32,
    process: u32,
    call: &Call,
    sent: &mut Option<SentFlight<D>>,
) -> Answer
    requires access { IsAccess call.now }
    requires fits { FitsAt state.old seat None }
    requires may { CanTry state.old seat process call.now }
    requires none { sent.old ≡ None }
    // One event, as of any call that is tried.
    ensures event { IsEvent seat state.old None state.new (note_of_held sent.new) }
    ensures tries { TriesAccess state.old state.new seat process call.now
        (note_of_held sent.new) result }
    ensures ready { AreUnperformed sent.new }
{
    let answer = state.try_access(seat, process, call);
    if let Answer::Need(plan) = answer {
        send_for(state, seat, process, plan, call, sent);
    }
    answer
}

/// The flight of a seat, which is for this process and call, ends: its frame and its disk come back. Some, with the device error, where
/// it failed and was for a call.
#[inline(always)]
pub(crate) fn end_flight<D: Disk>(
    state: &mut VmState<D>,
    seat: u32,
    sent: SentFlight<D>,
    call: Option<(u32, &Call)>,
) -> Option<Reply>
    requires back { (note : Sent) × FitsAt state.old seat (Some note)
        × InHand (Some sent) (Some note) }
    requires of { IsSentFor sent (option_map (λ (c : ℕ × _). (c.0, c.1.now)) call) }
    ensures ends { (note : Sent) → InHand (Some sent) (Some note)
        → IsEvent seat state.old (Some note) state.new None
        × EndsFlight state.old state.new seat note result }
{
    let SentFlight { flight, of: _ } = sent;
    state.end(seat, flight, call)
}

// Begins the push that the clock answers. Not inline, so that a move without one has no room for a flight.
#[inline(never)]
fn push_out<D: Disk>(
    state: &mut VmState<D>,
    seat: u32,
    plan: Plan,
    sent: &mut Option<SentFlight<D>>,
)
    requires fits { FitsAt state.old seat None }
    requires kept { state.old.plan ≡ Some (record { seat = seat; plan = plan; of = None }) }
    requires none { sent.old ≡ None }
    // One event: the flight of the plan is out, and is for no call.
    ensures event { IsEvent seat state.old None state.new (note_of_held sent.new) }
    ensures ready { AreUnperformed sent.new }
    ensures sends { SendsOut state.old state.new seat plan None (note_of_held sent.new) }
{
    send(state, seat, plan, &None, sent);
}

/// One move of a hand of the clock, and the begin of the push that it answers, which is in hand then.
pub(crate) fn move_hand<D: Disk>(
    state: &mut VmState<D>,
    seat: u32,
    sent: &mut Option<SentFlight<D>>,
)
    requires fits { FitsAt state.old seat None }
    requires seat { seat < length state.old.syncs }
    requires none { sent.old ≡ None }
    // One event, and nothing but the move and its push; a push that is out then is for no call.
    ensures event { IsEvent seat state.old None state.new (note_of_held sent.new) }
    ensures ready { AreUnperformed sent.new }
    ensures of { IsForNone (note_of_held sent.new) }
    ensures hand { MovesHand state.old state.new seat (note_of_held sent.new) }
{
    match state.clock(seat) {
        Some(plan) => push_out(state, seat, plan, sent),
        None => {}
    }
}

/// Makes the transfer that a seat has outside.
pub(crate) fn perform<D: Disk>(sent: &mut Option<SentFlight<D>>)
    requires ready { AreUnperformed sent.old }
    ensures { InHand sent.new (note_of_held sent.old) }
{
    if let Some(sent) = sent {
        let _ = sent.flight.perform();
    }
}
