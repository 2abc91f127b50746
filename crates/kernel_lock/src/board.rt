//! What the table under the lock is told, and what each of its seats knows.
use crate::guarded::Guarded;
use atomic_table::TableRule;
use std::collections::LinkedList;
use std::marker::PhantomData;
use std::snapshot::Snapshot;

/// What the table is told once: the state that the lock was started with, and how many seats it has.
pub struct About<S> {
    pub opening: Snapshot<S>,
    pub seats: u32,
}

impl<S> Drop for About<S> {
    fn drop(self) {
        let Self { opening, seats: _ } = self;
        drop(opening);
    }
}

/// What is known of one seat: its number, its note, the entries that it made, and the history that it has seen.
pub struct SeatPart<E, N> {
    pub number: u64,
    pub note: Option<N>,
    pub own: LinkedList<E>,
    pub seen: LinkedList<E>,
}

/// What a seat of the table knows. It exists in proofs alone: no value of it is made.
///
/// A seat of the lock is `seated`. The dealer, which gives out the seats, `deals` the numbers from its own on.
/// Who closes the lock keeps the parts of the seats gathered so far in `others`, and a join leaves what both had seen in `olds`.
pub struct View<S, E, N> {
    pub opening: Option<S>,
    pub seats: u64,
    pub state: Option<S>,
    pub inside: bool,
    pub seated: bool,
    pub deals: bool,
    pub number: u64,
    pub note: Option<N>,
    pub own: LinkedList<E>,
    pub others: LinkedList<SeatPart<E, N>>,
    pub seen: LinkedList<E>,
    pub olds: LinkedList<LinkedList<E>>,
    pub refused: u64,
    pub refused_by: Option<u64>,
    pub leaves: u64,
    pub told: u64,
    pub told_files: u64,
    pub emptied: u64,
    pub last_emptied: Option<N>,
}

/// The rule of the table: one history under every schedule.
pub struct LockRule<S> {
    marker: PhantomData<S>,
}

impl<S: Guarded> TableRule<Option<S>, View<S, S::Entry, S::Note>, About<S>> for LockRule<S> {
    ghost use Rattle.kernel_lock.specs.Rule.{Lock, dealer_at};

    ghost holds = { λ key. Lock S.seat_of S.history S.fits key.opening.value key.seats };

    ghost first = { λ key. dealer_at key.opening.value key.seats 0 };
}

/// A seat of the table.
pub type TableSeat<S, E, N> = atomic_table::Seat<Option<S>, View<S, E, N>>;
