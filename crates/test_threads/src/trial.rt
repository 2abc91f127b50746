//! A kernel with its three callers, for tests: those of two processes, and that of the clock.
ghost use Rattle.std.specs.Prelude.{◌≡◌, ◌<◌, ◌+◌, ◌-◌, ◌∷◌, [], IsTrue, None, length, take, slice_index_or, vec_len, vec_capacity};
ghost use Rattle.vm_core.specs.flat_model.Flat.{Flat};
ghost use Rattle.vm_core.specs.vm_world.Opening.{no_seats};
ghost use Rattle.vm_core.specs.vm_world.StateFits.{StateFits};
ghost use Rattle.vm_kernel.specs.Rooms.{callers_from};
ghost use Rattle.test_threads.specs.Workers.{IsTurnCall};

use crate::worker::{Told, Worker};
use block_device::Disk;
use std::alloc::Global;
use std::marker::Model;
use std::sync::Wait;
use std::test::Fail;
use vm_core::{Finished, VmState};
use vm_kernel::caller::Caller;
use vm_kernel::kernel::VmKernel;
use vm_kernel::starting::Room;
use vm_types::Call;

/// A kernel and its three callers. Contracts see nothing of it.
pub struct Trial<D: Disk> {
    pub kernel: VmKernel<D>,
    pub first: Worker<D>,
    pub second: Worker<D>,
    pub clock: Caller<D>,
    /// Room for the callers, for when the kernel is closed.
    pub row: Vec<Caller<D>>,
}

impl<D: Disk> Model for Trial<D> {
    ghost use Rattle.std.specs.Prelude.{◌≡◌, ◌≤◌, ℕ, [], vec_len, vec_capacity};
    ghost use Rattle.test_threads.specs.Workers.{AreTrialCallers};

    ghost Value = { ℕ };

    ghost view = { λ t. 0 };

    ghost invariant = { λ t. AreTrialCallers t.kernel t.first t.second t.clock
        × (t.row.items ≡ []) × (vec_len t.row ≡ 0) × (3 ≤ vec_capacity t.row) };
}

/// The rooms of two processes and of the clock.
const ROOMS: [Room; 3] = [
    Room {
        process: 1,
        entries: 99,
    },
    Room {
        process: 2,
        entries: 99,
    },
    Room {
        process: 0,
        entries: 0,
    },
];

/// Takes the last of a row of callers.
fn take_last<D: Disk>(row: &mut Vec<Caller<D>>) -> Caller<D>
    requires some { 0 < vec_len row.old }
    ensures last { (d : _) → result ≡ slice_index_or row.old.items (vec_len row.old - 1) d }
    ensures rest { row.new.items ≡ take (vec_len row.old - 1) row.old.items }
    ensures count { vec_len row.new + 1 ≡ vec_len row.old }
    ensures room { vec_capacity row.new ≡ vec_capacity row.old }
{
    let Some(caller) = row.pop() else {
        unreachable!();
    };
    caller
}

/// A kernel in which nothing happened yet, and its callers.
fn trial_of<D: Disk>(kernel: VmKernel<D>, mut row: Vec<Caller<D>>, parent: u32) -> Trial<D>
    requires seats { kernel.seats ≡ 3 }
    requires row { row.items ≡ callers_from kernel 0 (record { process = 1; entries = 99 }
        ∷ record { process = 2; entries = 99 } ∷ record { process = 0; entries = 0 } ∷ []) }
    requires parents { kernel.opening.parents ≡ 0 ∷ parent ∷ [] }
    requires entries { kernel.opening.entries ≡ 99 ∷ 99 ∷ [] }
{
    let clock = take_last(&mut row);
    let second = take_last(&mut row);
    let first = take_last(&mut row);
    let first = Worker::new(&kernel, first, 1, 0, 99);
    let second = Worker::new(&kernel, second, 2, parent, 99);
    Trial {
        kernel,
        first,
        second,
        clock,
        row,
    }
}

/// Puts a state behind a lock: that of process 1, and of process 2 with this parent, or with none where it is 0.
pub fn begin<D: Disk>(alloc: Global, state: VmState<D>, parent: u32) -> Result<Trial<D>, Fail>
    requires seats { length state.syncs ≡ 3 }
    requires parents { state.parents ≡ 0 ∷ parent ∷ [] }
    requires entries { state.entries ≡ 99 ∷ 99 ∷ [] }
    requires fits { (F : Flat) × StateFits F state no_seats }
    requires empty { state.history ≡ [] }
{
    match VmKernel::start(alloc, state, &ROOMS) {
        Ok((kernel, row)) => Ok(trial_of(kernel, row, parent)),
        Err(_) => Err(Fail::new("no memory for the kernel")),
    }
}

fn are_free<D: Disk>(first: &Worker<D>, second: &Worker<D>) -> bool
    ensures { IsTrue result → (first.now.caller.seat.note ≡ None)
        × (second.now.caller.seat.note ≡ None) }
{
    first.caller.is_free() && second.caller.is_free()
}

impl<D: Disk> Trial<D> {
    /// One turn of a process.
    pub fn turn(&mut self, process: u32, call: &Call) -> Told
        requires { IsTurnCall call.now }
    {
        match process {
            1 => self.first.turn(&self.kernel, call),
            2 => self.second.turn(&self.kernel, call),
            _ => Told::Barred,
        }
    }

    /// A call of a process, to its end.
    pub fn call<R: Wait>(&mut self, rt: &R, process: u32, call: &Call) -> Told
        requires { IsTurnCall call.now }
    {
        match process {
            1 => self.first.call(rt, &self.kernel, call),
            2 => self.second.call(rt, &self.kernel, call),
            _ => Told::Barred,
        }
    }

    /// Process 1 forks process 2.
    pub fn fork<R: Wait>(&mut self, rt: &R) -> Told {
        self.first.fork(rt, &self.kernel, &mut self.second)
    }

    /// Process 1 sees what process 2 has seen.
    pub fn wait_for(&mut self) -> Told {
        self.first.wait_for(&self.kernel, &mut self.second);
        Told::Made
    }

    /// So many moves of the hands of the clock, with their pushes.
    pub fn pageout<R: Wait>(&mut self, rt: &R, turns: u32) -> Told {
        self.kernel.pageout(rt, &mut self.clock, turns);
        Told::Made
    }

    /// Closes the kernel. `None` where a process has a transfer in hand.
    pub fn close(self) -> Option<Finished<D>> {
        let Trial {
            kernel,
            first,
            second,
            clock,
            mut row,
        } = self;
        let is_free = are_free(&first, &second);
        row.push_reserved(first.caller);
        row.push_reserved(second.caller);
        row.push_reserved(clock);
        let state = kernel.close(row);
        if is_free { Some(state.finish()) } else { None }
    }
}
