//! What callers do on two threads.
ghost use Rattle.std.specs.Prelude.{◌≡◌, None};
ghost use Rattle.vm_kernel.specs.Callers.{IsCallerOf};
ghost use Rattle.test_threads.specs.Workers.{IsWorker, IsWorkerAt};

use crate::acts::{What, call_of};
use crate::gated_disk::Event;
use crate::trial::Trial;
use crate::worker::{Told, Worker};
use std::sync::Wait;
use std::thread::{Threads, join};
use vm_core::Disk;
use vm_kernel::caller::Caller;
use vm_kernel::kernel::VmKernel;

/// The place of the first act of which something else was told than it should be.
pub(crate) type Wrong = Option<usize>;

/// One process makes calls, each to its end.
fn call_all<R: Wait, D: Disk>(
    rt: &R,
    kernel: &VmKernel<D>,
    mut worker: Worker<D>,
    acts: &[(What, Told)],
) -> (Worker<D>, Wrong)
    requires works { IsWorker kernel.now worker }
    ensures works { IsWorkerAt kernel.now worker.caller.seat.number result.0 }
{
    for (place, &(what, due)) in acts.iter().enumerate() {
        if worker.call(rt, kernel, &call_of(what)) != due {
            return (worker, Some(place));
        }
    }
    (worker, None)
}

/// Once something has begun, one process makes a turn at each of these calls, and then tells that it did.
fn turn_all<D: Disk>(
    kernel: &VmKernel<D>,
    mut worker: Worker<D>,
    begun: &Event,
    over: &Event,
    acts: &[(What, Told)],
) -> (Worker<D>, Wrong)
    requires works { IsWorker kernel.now worker }
    ensures works { IsWorkerAt kernel.now worker.caller.seat.number result.0 }
{
    let mut wrong = None;
    let _ = begun.wait();
    for (place, &(what, due)) in acts.iter().enumerate() {
        if worker.turn(kernel, &call_of(what)) != due {
            wrong = Some(place);
            break;
        }
    }
    over.tell();
    (worker, wrong)
}

/// Once something has begun, one process tells that it goes on, and makes turns at a call, with rests, until it is done: how many they were, where they
/// were fewer than 100.
fn count_turns<R: Wait, D: Disk>(
    rt: &R,
    kernel: &VmKernel<D>,
    mut worker: Worker<D>,
    begun: &Event,
    over: &Event,
    what: What,
) -> (Worker<D>, Option<u32>)
    requires works { IsWorker kernel.now worker }
    ensures works { IsWorkerAt kernel.now worker.caller.seat.number result.0 }
{
    let _ = begun.wait();
    over.tell();
    for turns in 1..100u32 {
        if let Told::Done(_) = worker.turn_and_rest(rt, kernel, &call_of(what)) {
            return (worker, Some(turns));
        }
    }
    (worker, None)
}

/// The hands of the clock move.
fn move_hands<R: Wait, D: Disk>(
    rt: &R,
    kernel: &VmKernel<D>,
    mut clock: Caller<D>,
    moves: u32,
) -> Caller<D>
    requires caller { IsCallerOf kernel.now clock }
    requires free { clock.seat.note ≡ None }
    ensures caller { IsCallerOf kernel.now result }
    ensures number { result.seat.number ≡ clock.seat.number }
    ensures free { result.seat.note ≡ None }
{
    kernel.pageout(rt, &mut clock, moves);
    clock
}

/// Both processes make their calls, each on a thread.
pub(crate) fn call_both<R: Threads + Wait + Sync, D: Disk + Send>(
    rt: &R,
    trial: Trial<D>,
    first_acts: &[(What, Told)],
    second_acts: &[(What, Told)],
) -> (Trial<D>, (Wrong, Wrong)) {
    let Trial {
        kernel,
        first,
        second,
        clock,
        row,
    } = trial;
    let shared = &kernel;
    let ((first, wrong), (second, other)) = join(
        rt,
        move || call_all(rt, shared, first, first_acts),
        move || call_all(rt, shared, second, second_acts),
    );
    let trial = Trial {
        kernel,
        first,
        second,
        clock,
        row,
    };
    (trial, (wrong, other))
}

/// The hands move on one thread; once a push has begun, process 1 makes a turn at each of its calls on the other, and then the push may end.
pub(crate) fn turn_during_push<R: Threads + Wait + Sync, D: Disk + Send>(
    rt: &R,
    trial: Trial<D>,
    begun: &Event,
    over: &Event,
    acts: &[(What, Told)],
) -> (Trial<D>, Wrong) {
    let Trial {
        kernel,
        first,
        second,
        clock,
        row,
    } = trial;
    let shared = &kernel;
    let (clock, (first, wrong)) = join(
        rt,
        move || move_hands(rt, shared, clock, 32),
        move || turn_all(shared, first, begun, over, acts),
    );
    let trial = Trial {
        kernel,
        first,
        second,
        clock,
        row,
    };
    (trial, wrong)
}

/// Process 1 makes calls on one thread; once a transfer has begun, process 2 makes turns at a call on the other: how many.
pub(crate) fn wait_for_page<R: Threads + Wait + Sync, D: Disk + Send>(
    rt: &R,
    trial: Trial<D>,
    begun: &Event,
    over: &Event,
    acts: &[(What, Told)],
    what: What,
) -> (Trial<D>, (Wrong, Option<u32>)) {
    let Trial {
        kernel,
        first,
        second,
        clock,
        row,
    } = trial;
    let shared = &kernel;
    let ((first, wrong), (second, turns)) = join(
        rt,
        move || call_all(rt, shared, first, acts),
        move || count_turns(rt, shared, second, begun, over, what),
    );
    let trial = Trial {
        kernel,
        first,
        second,
        clock,
        row,
    };
    (trial, (wrong, turns))
}
