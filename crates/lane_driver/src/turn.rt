//! The two kinds of turns: a try, with the transfer that it begins, and the end of a transfer.
ghost use Rattle.std.specs.Prelude.{◌≡◌, ◌+◌, ◌<◌, ◌^◌, None, Some, IfOk, IfSome, OnErr, option_map};
ghost use Rattle.fault_entry.specs.page_store.Flight.{fresh};
ghost use Rattle.fault_entry.specs.vm_world.Events.{CanTry, IsEvent};
ghost use Rattle.vm_core.specs.Calls.{TakesMemory};
ghost use Rattle.vm_core.specs.Fits.{FitsAt};
ghost use Rattle.lane_driver.specs.Lanes.{IsLaneCall, sent_for};
ghost use Rattle.lane_driver.specs.LaneTurns.{LandsLaneFlight, TriesLaneCall, TurnsCall};

use std::alloc::AllocError;
use vm_core::{Attempt, Call, Disk, Flight, VmState};

/// Makes and ends the transfer that a seat has out for a call of its process. Whether that call is done then: the transfer failed.
fn land<D: Disk>(state: &mut VmState<D>, seat: u32, call: &Call, flight: Flight<D>) -> bool
    // The transfer is the seat's, for the call, and wasn't made yet.
    requires low { seat + 1 < 2 ^ 32 }
    requires call { IsLaneCall call.now }
    requires fits { FitsAt state.old seat (Some (sent_for seat call.now flight)) }
    requires fresh { flight.outcome ≡ fresh }
    // What its end does.
    ensures lands { LandsLaneFlight state.old state.new seat call.now flight result }
    ensures event { IsEvent seat state.old (Some (sent_for seat call.now flight))
        state.new None }
{
    let mut flight = flight;
    let _ = flight.perform();
    match state.end(seat, flight, Some((seat + 1, call))) {
        Some(_) => true,
        None => false,
    }
}

/// Tries a call of a seat's process, and begins the transfer that it needs. Whether the call is done, and that transfer.
fn try_next<D: Disk>(
    state: &mut VmState<D>,
    seat: u32,
    call: &Call,
) -> Result<(bool, Option<Flight<D>>), AllocError>
    // A call that the seat may try.
    requires low { seat + 1 < 2 ^ 32 }
    requires call { IsLaneCall call.now }
    requires fits { FitsAt state.old seat None }
    requires may { CanTry state.old seat (seat + 1) call.now }
    // What the try does, and what is outside then.
    ensures tries { IfOk result (λ told. TriesLaneCall state.old state.new seat call.now
        told.0 told.1) }
    ensures event { IfOk result (λ told. IsEvent seat state.old None state.new
        (option_map (sent_for seat call.now) told.1)) }
    ensures fresh { IfOk result (λ told. IfSome told.1
        (λ f. (f.seat ≡ seat) × (f.outcome ≡ fresh))) }
    ensures takes { OnErr result (TakesMemory call.now) }
    ensures err { OnErr result (state.new ≡ state.old) }
{
    match state.try_call(seat, seat + 1, call)? {
        Attempt::Done(_) => Ok((true, None)),
        Attempt::Busy(_) => Ok((false, None)),
        Attempt::Need(plan) => Ok((false, Some(state.begin(seat, plan)))),
    }
}

/// One turn for a call of a seat's process: the transfer that is out is made, and ends; or, with none out, the call is tried, and the transfer begins that it
/// needs. Whether the call is done, and the transfer that is out then.
pub(crate) fn turn<D: Disk>(
    state: &mut VmState<D>,
    seat: u32,
    call: &Call,
    flight: Option<Flight<D>>,
) -> Result<(bool, Option<Flight<D>>), AllocError>
    // A call that the seat may try, and its transfer, which wasn't made yet.
    requires low { seat + 1 < 2 ^ 32 }
    requires call { IsLaneCall call.now }
    requires fits { FitsAt state.old seat (option_map (sent_for seat call.now) flight) }
    requires fresh { IfSome flight (λ f. f.outcome ≡ fresh) }
    requires may { CanTry state.old seat (seat + 1) call.now }
    // What the turn does.
    ensures turns { IfOk result (λ told. TurnsCall state.old state.new seat call.now flight
        told.0 told.1) }
    ensures event { IfOk result (λ told. IsEvent seat state.old
        (option_map (sent_for seat call.now) flight) state.new
        (option_map (sent_for seat call.now) told.1)) }
    ensures fresh { IfOk result (λ told. IfSome told.1
        (λ f. (f.seat ≡ seat) × (f.outcome ≡ fresh))) }
    ensures takes { OnErr result (TakesMemory call.now) }
    ensures err { OnErr result ((state.new ≡ state.old) × (flight ≡ None)) }
{
    match flight {
        Some(flight) => Ok((land(state, seat, call, flight), None)),
        None => try_next(state, seat, call),
    }
}
