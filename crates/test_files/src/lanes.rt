//! A state with lanes, for tests: they take turns in a given order.
ghost use Rattle.std.specs.Prelude.{◌≡◌, ◌<◌, ℕ, Some, IfOk, IsTrue, slice_get};
ghost use Rattle.seg_ops.specs.vm_world.Opening.{IsOpening};
ghost use Rattle.test_files.specs.Lanes.{MayBeLane, MayDrive};
ghost use Rattle.test_acts.specs.Trials.{IsTrialStart};

use block_device::MemDisk;
use lane_driver::{Lane, are_lane_calls, drive};
use std::marker::Model;
use std::test::Fail;
use vm_core::VmState;
use vm_types::Call;

/// What is told of lanes: how many calls of each of the first two are done, and how many entries the history has.
#[derive(Clone, Copy, PartialEq, Eq, Debug)]
pub(crate) struct Standing {
    pub(crate) first: usize,
    pub(crate) second: usize,
    pub(crate) entries: u64,
}

/// A state, with lanes that may go on. Contracts see nothing of it.
#[derive(Drop)]
pub(crate) struct Driven {
    state: VmState<MemDisk>,
    lanes: [Lane<MemDisk>; 2],
}

impl Model for Driven {
    ghost use Rattle.std.specs.Prelude.{ℕ};
    ghost use Rattle.test_files.specs.Lanes.{MayDrive};

    ghost Value = { ℕ };

    ghost view = { λ d. 0 };

    ghost invariant = { λ d. MayDrive d.state d.lanes };
}

/// Whether the process of a seat may make these calls, none of which is done, as a lane of a state that begins.
fn may_make(state: &VmState<MemDisk>, seat: u32, calls: &[Call]) -> bool
    requires { IsOpening state.now }
    ensures { IsTrue result → MayBeLane state.now seat calls.now }
{
    if seat == u32::MAX {
        return false;
    }
    if !are_lane_calls(calls) {
        return false;
    }
    if !state.is_alive(seat + 1) {
        return false;
    }
    if calls.len() > state.room(seat + 1) as usize {
        return false;
    }
    true
}

/// Lanes at seats 0 and 1 of a state that begins, with these calls.
fn two_lanes(
    state: &VmState<MemDisk>,
    first: Vec<Call>,
    second: Vec<Call>,
) -> Result<[Lane<MemDisk>; 2], Fail>
    requires { (seats : ℕ) × IsTrialStart seats state.now }
    ensures { IfOk result (MayDrive state.now) }
{
    if !may_make(state, 0, first.as_slice()) || !may_make(state, 1, second.as_slice()) {
        return Err(Fail::new("the processes can't make the calls"));
    }
    Ok([Lane::new(0, 1, first), Lane::new(1, 2, second)])
}

/// Whether each number is below this one.
fn are_below(numbers: &[u32], count: usize) -> bool
    ensures { IsTrue result → (k number : ℕ) → slice_get numbers.now k ≡ Some number
        → number < count }
{
    numbers.iter().all(|number| (*number as usize) < count)
}

impl Driven {
    /// A state that begins, with a lane at seat 0 and one at seat 1.
    pub(crate) fn new(
        state: VmState<MemDisk>,
        first: Vec<Call>,
        second: Vec<Call>,
    ) -> Result<Driven, Fail>
        requires { (seats : ℕ) × IsTrialStart seats state }
    {
        let lanes = two_lanes(&state, first, second)?;
        Ok(Driven { state, lanes })
    }

    /// The lanes of these numbers take their turns.
    pub(crate) fn drive(&mut self, order: &[u32]) -> Result<(), Fail> {
        if !are_below(order, 2) {
            return Err(Fail::new("there is no such lane"));
        }
        drive(&mut self.state, &mut self.lanes, order)?;
        Ok(())
    }

    pub(crate) fn standing(&self) -> Standing {
        Standing {
            first: self.lanes[0].done(),
            second: self.lanes[1].done(),
            entries: self.state.length(),
        }
    }
}
