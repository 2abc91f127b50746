//! A state with what its seats have outside it, for tests: calls are tried, transfers begin and end, and hands move.
ghost use Rattle.std.specs.Prelude.{◌≡◌, ◌<◌, ℕ, Some, None, IsSome, IsTrue, IfOk, length, option_map, replicate, slice_index_or, slice_set};
ghost use Rattle.seg_ops.specs.vm_world.Events.{MayBear};
ghost use Rattle.test_acts.specs.Trials.{IsTrialState, IsOfOnePart, LiesInOneLine, MayTry};

use block_device::MemDisk;
use seg_ops::{Flight, Hold, Plan};
use std::alloc::{AllocError, Global};
use std::marker::Model;
use std::mem;
use std::test::Fail;
use vm_core::{Attempt, Finished, Mark, VmState};
use vm_types::{Call, Reply};

/// What a seat has outside: its transfer, and the process and call that it is for.
type SentFlight = (Flight<MemDisk>, Option<(u32, Call)>);

/// What is told of an act.
#[derive(Clone, Copy, PartialEq, Eq)]
pub enum Told {
    Done(Reply),
    Busy(Hold),
    /// A transfer began.
    Sent,
    /// A transfer is needed, and didn't begin.
    Planned,
    /// It ended, with no reply.
    Landed,
    /// The hands had no page pushed.
    Still,
}

/// A state that fits, with what its seats have outside; seat k is that of process k + 1. Contracts see nothing of it.
#[derive(Drop)]
pub struct Trial {
    state: VmState<MemDisk>,
    trips: Vec<Option<SentFlight>>,
}

impl Model for Trial {
    ghost use Rattle.std.specs.Prelude.{ℕ};
    ghost use Rattle.test_acts.specs.Trials.{IsTrialState};

    ghost Value = { ℕ };

    ghost view = { λ t. 0 };

    ghost invariant = { λ t. IsTrialState t.state t.trips.items };
}

/// Begins the transfer of the plan that is kept.
fn send(
    state: &mut VmState<MemDisk>,
    trips: &mut Vec<Option<SentFlight>>,
    seat: u32,
    plan: Plan,
    of: Option<(u32, Call)>,
)
    // The plan is kept for the seat, which has nothing outside.
    requires trial { IsTrialState state.old trips.old.items }
    requires seat { seat < length trips.old.items }
    requires idle { slice_index_or trips.old.items seat None ≡ None }
    requires kept { state.old.plan ≡ Some (record { seat = seat; plan = plan; of = of }) }
    requires served { IsOfOnePart of }
    // Its transfer is outside.
    ensures { IsTrialState state.new trips.new.items }
{
    let flight = state.begin(seat, plan);
    trips[seat as usize] = Some((flight, of));
}

/// Seats with nothing outside.
fn idle_seats(alloc: Global, seats: u32) -> Result<Vec<Option<SentFlight>>, AllocError>
    ensures { IfOk result (λ trips. trips.items ≡ replicate seats None) }
{
    let mut trips = Vec::new(alloc);
    for _seat in 0..seats {
        trips.push(None)?;
    }
    Ok(trips)
}

fn is_idle(trips: &Vec<Option<SentFlight>>, seat: u32) -> bool
    ensures { IsTrue result
        → (seat < length trips.now.items) × (slice_index_or trips.now.items seat None ≡ None) }
{
    (seat as usize) < trips.len() && trips[seat as usize].is_none()
}

fn is_out(trips: &Vec<Option<SentFlight>>, seat: u32) -> bool
    ensures { IsTrue result
        → (seat < length trips.now.items) × IsSome (slice_index_or trips.now.items seat None) }
{
    (seat as usize) < trips.len() && trips[seat as usize].is_some()
}

fn is_idle_at(trips: &[Option<SentFlight>], seat: usize) -> bool
    requires { seat < length trips.now }
    ensures { IsTrue result → slice_index_or trips.now seat None ≡ None }
{
    trips[seat].is_none()
}

fn are_idle(trips: &[Option<SentFlight>]) -> bool
    ensures { IsTrue result → (seat : ℕ) → slice_index_or trips.now seat None ≡ None }
{
    for seat in 0..trips.len() {
        if !is_idle_at(trips, seat) {
            return false;
        }
    }
    true
}

/// Whether a process may make a call: where it is a Fork, of a child of its own that was never alive.
fn can_bear(state: &VmState<MemDisk>, process: u32, call: &Call) -> bool
    ensures { IsTrue result → MayBear state.now process call.now }
{
    match *call {
        Call::Fork { child } => state.may_bear(process, child),
        _ => true,
    }
}

/// Whether a seat has nothing outside, and its process may make the call.
fn may_try(
    state: &VmState<MemDisk>,
    trips: &Vec<Option<SentFlight>>,
    seat: u32,
    call: &Call,
) -> bool
    ensures { IsTrue result → MayTry state.now trips.now.items seat call.now }
{
    if seat == u32::MAX
        || !is_idle(trips, seat)
        || !call.is_well_formed()
        || !state.is_alive(seat + 1)
        || state.room(seat + 1) == 0
    {
        return false;
    }
    can_bear(state, seat + 1, call)
}

/// What a seat has outside, taken out.
fn take(trips: &mut Vec<Option<SentFlight>>, seat: u32) -> Option<SentFlight>
    requires { seat < length trips.old.items }
    ensures trip { result ≡ slice_index_or trips.old.items seat None }
    ensures new { trips.new.items ≡ slice_set trips.old.items seat None }
{
    mem::replace(&mut trips[seat as usize], None)
}

fn lent(of: &Option<(u32, Call)>) -> Option<(u32, &Call)>
    ensures { option_map (λ (c : ℕ × _). (c.0, c.1.now)) result ≡ of.now }
{
    match of {
        Some(of) => Some((of.0, &of.1)),
        None => None,
    }
}

impl Trial {
    /// The state of so many seats, with nothing outside.
    pub fn new(alloc: Global, state: VmState<MemDisk>, seats: u32) -> Result<Trial, Fail>
        requires { IsTrialState state (replicate seats None) }
    {
        let trips = idle_seats(alloc, seats)?;
        Ok(Trial { state, trips })
    }

    /// Whether a seat has something outside.
    pub fn has_out(&self, seat: u32) -> bool {
        is_out(&self.trips, seat)
    }

    /// What is known of the block of a page that a file keeps.
    pub fn mark(&self, file: u32, page: u32) -> Option<Mark> {
        self.state.find_mark(file, page)
    }

    /// Whether a seat has nothing outside, and its process may make the call.
    pub fn can_try(&self, seat: u32, call: &Call) -> bool {
        may_try(&self.state, &self.trips, seat, call)
    }

    /// Tries a call once. A transfer that it needs begins, where this says so.
    pub fn try_call(&mut self, seat: u32, call: &Call, begins: bool) -> Result<Told, Fail>
        requires { LiesInOneLine call.now }
    {
        if !may_try(&self.state, &self.trips, seat, call) {
            return Err(Fail::new("the process can't make the call"));
        }
        let process = seat + 1;
        match self.state.try_call(seat, process, call)? {
            Attempt::Done(reply) => Ok(Told::Done(reply)),
            Attempt::Busy(hold) => Ok(Told::Busy(hold)),
            Attempt::Need(_) if !begins => Ok(Told::Planned),
            Attempt::Need(plan) => {
                let of = Some((process, *call));
                send(&mut self.state, &mut self.trips, seat, plan, of);
                Ok(Told::Sent)
            }
        }
    }

    /// Makes and ends the transfer that a seat has outside.
    pub fn land(&mut self, seat: u32) -> Result<Told, Fail> {
        if !is_out(&self.trips, seat) {
            return Err(Fail::new("the seat has nothing outside"));
        }
        let Some((mut flight, of)) = take(&mut self.trips, seat) else {
            unreachable!();
        };
        let _ = flight.perform();
        match self.state.end(seat, flight, lent(&of)) {
            Some(reply) => Ok(Told::Done(reply)),
            None => Ok(Told::Landed),
        }
    }

    /// Makes a call, with the transfers that it needs, eight at most; it ends where another seat holds it up.
    pub fn call(&mut self, seat: u32, call: &Call) -> Result<Told, Fail>
        requires { LiesInOneLine call.now }
    {
        for _try in 0..8 {
            let tried = self.try_call(seat, call, true)?;
            if tried != Told::Sent {
                return Ok(tried);
            }
            let landed = self.land(seat)?;
            if landed != Told::Landed {
                return Ok(landed);
            }
        }
        Err(Fail::new("the call isn't done"))
    }

    /// Moves a hand. A push that it wants begins.
    fn turn(&mut self, seat: u32) -> Result<Told, Fail> {
        if !is_idle(&self.trips, seat) {
            return Err(Fail::new("the seat isn't idle"));
        }
        match self.state.clock(seat) {
            Some(plan) => {
                send(&mut self.state, &mut self.trips, seat, plan, None);
                Ok(Told::Sent)
            }
            None => Ok(Told::Still),
        }
    }

    /// Moves hands until a push begins, so many times at most.
    pub fn clock(&mut self, seat: u32, moves: u32) -> Result<Told, Fail> {
        for _move in 0..moves {
            let told = self.turn(seat)?;
            if told != Told::Still {
                return Ok(told);
            }
        }
        Ok(Told::Still)
    }

    pub fn finish(self) -> Result<Finished<MemDisk>, Fail> {
        if !are_idle(self.trips.as_slice()) {
            return Err(Fail::new("a seat has something outside"));
        }
        Ok(self.state.finish())
    }
}
