//! A lane: a process that makes calls by turns.
ghost use Rattle.std.specs.Prelude.{◌≡◌, ◌+◌, ◌<◌, ◌^◌, [], None, OnErr, OnOk, if◌then◌else◌, is_some, suc};
ghost use Rattle.vm_core.specs.Fits.{FitsAt};
ghost use Rattle.lane_driver.specs.Lanes.{AreLaneCalls, MayMakeCalls, lane_sent};
ghost use Rattle.lane_driver.specs.LaneTurns.{NextTakesMemory, TakesLaneTurn};

use crate::turn::turn;
use std::alloc::AllocError;
use std::marker::Model;
use vm_core::{Call, Disk, Flight, VmState};

/// A process that makes calls with its seat, by turns: how many of them are done, and the transfer that it has out between two
/// turns, if it has one.
#[derive(Drop)]
pub struct Lane<D: Disk> {
    seat: u32,
    calls: Vec<Call>,
    done: usize,
    flight: Option<Flight<D>>,
}

impl<D: Disk> Model for Lane<D> {
    ghost use Rattle.std.specs.Prelude.{◌+◌, ◌<◌, ◌^◌};
    ghost use Rattle.lane_driver.specs.Lanes.{LaneSeen, IsSoundLane};

    ghost Value = { LaneSeen };

    ghost view = { λ l. record {
      seat = l.seat;
      calls = l.calls.items;
      done = l.done;
      flight = l.flight;
    } };

    ghost invariant = { λ l. (l.seat + 1 < 2 ^ 32) × IsSoundLane l.seat l.calls.items l.done l.flight };
}

// One more, where it is done.
fn count_one(count: usize, done: bool) -> usize
    requires { count + 1 < 2 ^ 64 }
    ensures { result ≡ if done then suc count else count }
{
    if done { count + 1 } else { count }
}

impl<D: Disk> Lane<D> {
    /// A lane of which no call is done. The process is that of the seat. `are_lane_calls` tells whether calls may be a lane's.
    pub fn new(seat: u32, process: u32, calls: Vec<Call>) -> Lane<D>
        requires process { process ≡ seat + 1 }
        requires calls { AreLaneCalls calls.items }
        ensures lane { result
            ≡ record { seat = seat; calls = calls.items; done = 0; flight = None } }
    {
        let _ = process;
        Lane {
            seat,
            calls,
            done: 0,
            flight: None,
        }
    }

    /// How many calls are done. Constant time.
    pub fn done(&self) -> usize
        ensures { result ≡ self.now.done }
    {
        self.done
    }

    /// Whether a transfer is out. Constant time.
    pub fn is_out(&self) -> bool
        ensures { result ≡ is_some self.now.flight }
    {
        self.flight.is_some()
    }

    // One turn: a transfer that is out is made, and ends; else the next call is tried, and the transfer begins that it needs; and
    // where all calls are done nothing happens.
    pub(crate) fn take_turn(&mut self, state: &mut VmState<D>) -> Result<(), AllocError>
        requires fits { FitsAt state.old self.old.seat (lane_sent self.old) }
        requires may { MayMakeCalls state.old self.old }
        ensures turn { OnOk result (TakesLaneTurn state.old state.new self.old self.new) }
        ensures may { OnOk result (MayMakeCalls state.new self.new) }
        // Want of memory comes at a call alone that takes some, and nothing changed then.
        ensures takes { OnErr result (NextTakesMemory self.old) }
        ensures err { OnErr result ((state.new ≡ state.old) × (self.new ≡ self.old)) }
    {
        let Some(call) = self.calls.get(self.done) else {
            return Ok(());
        };
        let (done, flight) = turn(state, self.seat, call, self.flight.take())?;
        self.flight = flight;
        self.done = count_one(self.done, done);
        Ok(())
    }
}
