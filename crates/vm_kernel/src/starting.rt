//! How a kernel is started: the state goes behind the lock, and each seat becomes a caller.
ghost use Rattle.std.specs.Prelude.{◌≡◌, ◌<◌, ◌≤◌, ◌+◌, ◌⊎◌, [], IfOk, IfErr, length, vec_len, vec_capacity};
ghost use Rattle.vm_core.specs.flat_model.Flat.{Flat};
ghost use Rattle.kernel_lock.specs.Seats.{AreNew};
ghost use Rattle.vm_core.specs.vm_world.Opening.{no_seats};
ghost use Rattle.vm_core.specs.vm_world.StateFits.{StateFits};
ghost use Rattle.vm_kernel.specs.Rooms.{AreRooms, AreNamed, IsNewSeat, callers_from};

use crate::boxed::BoxedState;
use crate::caller::Caller;
use crate::kernel::VmKernel;
use kernel_lock::lock::KernelLock;
use kernel_lock::seat::Seat;
use std::alloc::{AllocFailed, Global};
use vm_core::{Disk, VmState};

/// Whom a caller is for: its process, or 0 where it is for no process and moves the clock; and the most entries that it may make.
#[derive(Clone, Copy, PartialEq, Eq, Debug)]
pub struct Room {
    pub process: u32,
    pub entries: u32,
}

/// Puts a state behind a lock. The error is want of memory, and hands the state back.
fn lock_of<D: Disk>(
    alloc: Global,
    state: VmState<D>,
    seats: u32,
) -> Result<(KernelLock<BoxedState<D>>, Vec<Seat<BoxedState<D>>>), VmState<D>>
    requires count { (0 < seats) × (seats ≤ 65) }
    requires fits { (F : Flat) × StateFits F state no_seats }
    requires empty { state.history ≡ [] }
    // A lock with this opening, and its seats, which have been nowhere.
    ensures lock { IfOk result (λ r. (r.0.seats ≡ seats) × (r.0.opening ≡ state)) }
    ensures count { IfOk result (λ r. vec_len r.1 ≡ seats) }
    ensures seats { IfOk result (λ r. AreNew r.0 r.1.items) }
    ensures err { IfErr result (λ s. s ≡ state) }
{
    match Box::new(alloc, state) {
        Ok(state) => match KernelLock::start(alloc, BoxedState { state }, seats) {
            Ok(started) => Ok(started),
            Err(back) => Err(back.into_state()),
        },
        Err(AllocFailed { value }) => Err(value),
    }
}

// A seat that has been nowhere becomes a caller.
fn caller_of<D: Disk>(seat: Seat<BoxedState<D>>, process: u32) -> Caller<D>
    requires unused { IsNewSeat seat }
    requires named { (process ≡ 0) ⊎ (process ≡ seat.number + 1) }
    ensures { result ≡ record { seat = seat; process = process } }
{
    Caller {
        seat,
        process,
        sent: None,
        misses: false,
    }
}

// The seats become the callers of these rooms, in their order. A row of seats comes apart from its end.
fn seat_callers<D: Disk>(
    lock: &KernelLock<BoxedState<D>>,
    mut seats: Vec<Seat<BoxedState<D>>>,
    rooms: &[Room],
    mut row: Vec<Caller<D>>,
) -> Vec<Caller<D>>
    requires few { length rooms.now ≤ 65 }
    requires count { vec_len seats ≡ length rooms.now }
    requires seats { AreNew lock.now seats.items }
    requires named { AreNamed rooms.now }
    requires row { (row.items ≡ []) × (vec_len row ≡ 0) × (length rooms.now ≤ vec_capacity row) }
    // A caller for each room, in the order of the rooms.
    ensures { result.items ≡ callers_from lock.now 0 rooms.now }
{
    let _ = lock;
    while let Some(seat) = seats.pop() {
        let room = rooms[seats.len()];
        row.push_reserved(caller_of(seat, room.process));
    }
    seats.destroy_empty();
    row.reverse();
    row
}

impl<D: Disk> VmKernel<D> {
    /// Puts a state behind its lock. The callers come in the order of the rooms: those of the processes from 1 on, and behind them one of
    /// no process, for the clock, where its room is the last.
    ///
    /// `Err` is want of memory, and hands the state back. No later call takes memory but those that change what is mapped.
    pub fn start(
        alloc: Global,
        state: VmState<D>,
        rooms: &[Room],
    ) -> Result<(VmKernel<D>, Vec<Caller<D>>), VmState<D>>
        requires count { (0 < length rooms.now) × (length rooms.now ≤ 65) }
        requires seats { length rooms.now ≡ length state.syncs }
        requires rooms { AreRooms state.entries rooms.now }
        requires fits { (F : Flat) × StateFits F state no_seats }
        requires empty { state.history ≡ [] }
        // The kernel has this opening, and a caller for each room, which has been nowhere.
        ensures kernel { IfOk result (λ r. (r.0.seats ≡ length rooms.now) × (r.0.opening ≡ state)) }
        ensures callers { IfOk result (λ r. r.1.items ≡ callers_from r.0 0 rooms.now) }
        ensures err { IfErr result (λ s. s ≡ state) }
    {
        let Ok(row) = Vec::with_capacity(alloc, rooms.len()) else {
            return Err(state);
        };
        let (lock, seats) = lock_of(alloc, state, rooms.len() as u32)?;
        let callers = seat_callers(&lock, seats, rooms, row);
        Ok((VmKernel { lock }, callers))
    }
}
