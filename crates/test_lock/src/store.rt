//! A state that is generic in a disk, which one seat at a time may have outside the lock.
ghost use Rattle.std.specs.Prelude.{◌≡◌, ℕ, ◌≤◌, List, false, [], None, Some, IfSome};
ghost use Rattle.kernel_lock.specs.Seats.{IsSeatOf};
ghost use Rattle.test_lock.specs.Store.{MovesStore, AtLeast, note_of_disk};

use crate::adders::last_seat;
use kernel_lock::guarded::Guarded;
use kernel_lock::lock::KernelLock;
use kernel_lock::seat::Seat;
use std::alloc::Global;
use std::marker::Model;
use std::sync::Wait;
use std::thread::{Threads, join};

/// Stands for a disk: it counts what it does.
pub trait Disk: Drop {
    ghost count: { Self → ℕ };

    fn count(&self) -> u64
        ensures { result ≡ count self.now };

    fn work(&mut self)
        ensures { count self.old ≤ count self.new };
}

/// A disk, where it is at home, and a history. Contracts see it as the record `StoreView`.
#[derive(Drop)]
pub struct Store<D: Disk> {
    pub disk: Option<D>,
    pub history: Vec<(u32, u64)>,
}

impl<D: Disk> Model for Store<D> {
    ghost use Rattle.test_lock.specs.Store.{StoreView};

    ghost Value = { StoreView D };

    ghost view = { λ s. record { disk = s.disk; history = s.history.items } };
}

impl<D: Disk> Guarded for Store<D> {
    ghost use Rattle.test_lock.specs.Tally.{seat_named};
    ghost use Rattle.test_lock.specs.Store.{
      store_entries,
      note_of_disk,
      FitsStore,
      MovesStore,
      keeps_of,
      grows_of,
    };

    type Entry = (u32, u64);

    type Note = u64;

    type Held = Option<D>;

    ghost seat_of = { seat_named };

    ghost history = { store_entries };

    ghost note_of = { note_of_disk D.count };

    ghost fits = { FitsStore D.count };

    ghost moves = { MovesStore D.count };

    fn length(&self) -> u64 {
        self.history.len() as u64
    }

    ghost keeps = { keeps_of D.count };

    ghost grows = { grows_of D.count };
}

impl<D: Disk> Store<D> {
    /// Takes the disk out, if it is at home.
    pub fn send(&mut self) -> Option<D>
        ensures { (k : ℕ)
            → MovesStore D.count k self.old None self.new (note_of_disk D.count result) }
    {
        self.disk.take()
    }

    /// Brings the disk home.
    pub fn bring(&mut self, disk: D)
        requires { self.old.disk ≡ None }
        ensures { (k n : ℕ) → n ≤ D.count disk
            → MovesStore D.count k self.old (Some n) self.new None }
    {
        self.disk = Some(disk);
    }
}

/// Takes the disk out, lets it work while the lock is free, and brings it home.
pub fn use_disk<R: Wait, D: Disk>(
    rt: &R,
    lock: &KernelLock<Store<D>>,
    mut seat: Seat<Store<D>>,
) -> Seat<Store<D>>
    requires seat { IsSeatOf lock.now seat }
    requires outside { (seat.inside ≡ false) × (seat.note ≡ None) }
    ensures seat { IsSeatOf lock.now result × (result.number ≡ seat.number) }
    ensures outside { (result.inside ≡ false) × (result.note ≡ None) }
{
    let mut store = lock.enter(rt, &mut seat);
    let held = store.send();
    lock.leave(&mut seat, store, &held);
    let Some(mut disk) = held else {
        return seat;
    };
    disk.work();
    let mut store = lock.enter(rt, &mut seat);
    store.bring(disk);
    lock.leave(&mut seat, store, &None);
    seat
}

/// Two seats on two threads use the disk. The seats go to the threads and come back by value.
pub fn use_by_both<R: Threads + Wait + Sync, D: Disk + Send>(
    rt: &R,
    lock: &KernelLock<Store<D>>,
    first: Seat<Store<D>>,
    second: Seat<Store<D>>,
) -> (Seat<Store<D>>, Seat<Store<D>>)
    requires seats { IsSeatOf lock.now first × IsSeatOf lock.now second }
    requires outside { (first.inside ≡ false) × (first.note ≡ None)
        × (second.inside ≡ false) × (second.note ≡ None) }
    ensures seats { IsSeatOf lock.now result.0 × IsSeatOf lock.now result.1 }
    ensures numbers { (result.0.number ≡ first.number) × (result.1.number ≡ second.number) }
    ensures outside { (result.0.inside ≡ false) × (result.0.note ≡ None)
        × (result.1.inside ≡ false) × (result.1.note ≡ None) }
{
    join(
        rt,
        move || use_disk(rt, lock, first),
        move || use_disk(rt, lock, second),
    )
}

/// Closes a lock of two seats, gathering them one by one. The disk's count is at least what it was at the opening.
pub fn close_store<D: Disk>(
    lock: KernelLock<Store<D>>,
    first: Seat<Store<D>>,
    second: Seat<Store<D>>,
) -> Store<D>
    requires count { lock.seats ≡ 2 }
    requires seats { IsSeatOf lock first × IsSeatOf lock second }
    requires outside { (first.inside ≡ false) × (second.inside ≡ false) }
    requires numbers { (first.number ≡ 0) × (second.number ≡ 1) }
    ensures { (o : D) → lock.opening.disk ≡ Some o
        → AtLeast (D.count o) (note_of_disk D.count result.disk) }
{
    let mut from = lock.gather_none();
    lock.gather(&mut from, second);
    lock.gather(&mut from, first);
    lock.close_gathered(from)
}

/// A disk is put behind a lock of two seats, which use it on two threads. Its count has not fallen. `None` is want of memory.
pub fn share_disk<R: Threads + Wait + Sync, D: Disk + Send>(
    rt: &R,
    alloc: Global,
    disk: D,
) -> Option<Store<D>>
    ensures { IfSome result (λ s. AtLeast (D.count disk) (note_of_disk D.count s.disk)) }
{
    let store = Store {
        disk: Some(disk),
        history: Vec::new(alloc),
    };
    let Ok((lock, mut row)) = KernelLock::start(alloc, store, 2) else {
        return None;
    };
    let second = last_seat(&lock, &mut row);
    let first = last_seat(&lock, &mut row);
    let (first, second) = use_by_both(rt, &lock, first, second);
    Some(close_store(lock, first, second))
}
