//! A state with nothing outside, whose processes make calls.
ghost use Rattle.std.specs.Prelude.{◌≡◌, ◌<◌, ◌+◌, ◌^◌, IsTrue, None, replicate};
ghost use Rattle.bench_kernel.specs.Ready.{MayMake};
ghost use Rattle.vm_core.specs.Calls.{IsOnOwnSpace};
ghost use Rattle.test_acts.specs.Trials.{IsTrialState, LiesInOneLine};

use block_device::MemDisk;
use std::marker::Model;
use vm_core::{Call, VmState};

/// A state of so many seats with nothing outside; seat k is that of process k + 1. Contracts see
/// nothing of it.
#[derive(Drop)]
pub(crate) struct Machine {
    state: VmState<MemDisk>,
    seats: u32,
}

impl Model for Machine {
    ghost use Rattle.std.specs.Prelude.{ℕ, None, replicate};
    ghost use Rattle.test_acts.specs.Trials.{IsTrialState};

    ghost Value = { ℕ };

    ghost view = { λ m. 0 };

    ghost invariant = { λ m. IsTrialState m.state (replicate m.seats None) };
}

// Whether the process of a seat may make a call, if that isn't a Fork.
fn may_make(state: &VmState<MemDisk>, seat: u32, call: &Call) -> bool
    requires { seat + 1 < 2 ^ 32 }
    ensures { IsTrue result → MayMake state.now seat call.now }
{
    if !call.is_well_formed() || !state.is_alive(seat + 1) || state.room(seat + 1) == 0 {
        return false;
    }
    true
}

impl Machine {
    pub(crate) fn new(state: VmState<MemDisk>, seats: u32) -> Machine
        requires { IsTrialState state (replicate seats None) }
    {
        Machine { state, seats }
    }

    /// How many entries the history has.
    pub(crate) fn entries(&self) -> u64 {
        self.state.length()
    }

    /// Tries a call of the process of a seat once, where it may make it.
    pub(crate) fn make(&mut self, seat: u32, call: &Call)
        requires part { LiesInOneLine call.now }
        requires own { IsOnOwnSpace call.now }
    {
        if seat >= self.seats || !may_make(&self.state, seat, call) {
            return;
        }
        let _ = self.state.try_call(seat, seat + 1, call);
    }

    /// Process 1 tries to fork a child, where it may.
    pub(crate) fn fork(&mut self, child: u32) {
        let call = Call::Fork { child };
        if !may_make(&self.state, 0, &call) || !self.state.may_bear(1, child) {
            return;
        }
        let _ = self.state.try_call(0, 1, &call);
    }
}
