//! The lock: taking the turn, leaving a new state, and telling another seat.
ghost use Rattle.std.specs.Prelude.{◌≡◌, ◌≢◌, ◌<◌, ◌≤◌, ℕ, true, false, [], Option, Some, IfSome, IfNone};
ghost use mathlib.Core.List.{IsPrefix};
ghost use Rattle.kernel_lock.specs.Rule.{view_made_known, view_rung};
ghost use Rattle.kernel_lock.specs.Seats.{IsSeatOf, part_of, after_enter, after_refusal, HasTried, after_leave, after_tells, entries_by, IsEntered};

use crate::bell::{Asked, Bell};
use crate::board::{About, LockRule, TableSeat, View};
use crate::guarded::Guarded;
use crate::plays::{Cut, Glue, Look, MakeKnown, Release, Ring, Said, Take};
use crate::seat::Seat;
use atomic_table::Table;
use std::alloc::Global;
use std::marker::{Brand, Model};
use std::sync::Wait;

/// A state behind a lock. It is shared by reference, and `close` gives the state back.
///
/// Contracts see it as the record `LockView`.
pub struct KernelLock<S: Guarded> {
    pub(crate) table: Table<Option<S>, View<S, S::Entry, S::Note>, About<S>, LockRule<S>, Global>,
    pub(crate) seats: u32,
    // Those who wait for the lock; for a page or a disk behind it; and for a call of a file.
    pub(crate) leaves: Bell<2>,
    pub(crate) changes: Bell<3>,
    pub(crate) files: Bell<4>,
}

impl<S: Guarded> Model for KernelLock<S> {
    ghost use Rattle.std.specs.Prelude.{◌≡◌};
    ghost use Rattle.kernel_lock.specs.Seats.{LockView};

    ghost Value = { LockView S };

    ghost view = { λ l. record {
      lock = l.table.shared.table_id;
      seats = l.seats;
      opening = l.table.shared.key.opening.value;
    } };

    ghost invariant = { λ l. (l.table.shared.table_id.words ≡ 5)
        × (l.table.shared.table_id.slots ≡ 1) × (l.table.shared.key.seats ≡ l.seats) };
}

impl<S: Guarded> KernelLock<S> {
    /// Tries once to get the state. `None` where another seat has it. It waits for nobody and takes no memory.
    pub fn try_enter(&self, seat: &mut Seat<S>) -> Option<S>
        requires seat { IsSeatOf self.now seat.old }
        requires outside { seat.old.inside ≡ false }
        //
        ensures seat { IsSeatOf self.now seat.new }
        //
        ensures state { IfSome result (λ s. IsEntered S.seat_of S.history S.fits
            self.now.opening self.now.seats (part_of seat.old) s) }
        ensures inside { IfSome result (λ s. seat.new ≡ after_enter seat.old s) }
        //
        ensures refused { IfNone result ((k : ℕ) × (k ≢ seat.old.number) × (k < self.now.seats)
            × (seat.new ≡ after_refusal seat.old k)) }
    {
        let mine = seat.number as u64 + 1;
        let found = self
            .table
            .shared
            .compare_exchange::<Take<S>>(&mut seat.place, 0, 0, mine);
        if found != 0 {
            return None;
        }
        self.table.shared.exchange(&mut seat.place, 0, None)
    }

    /// Gets the state: tries, rests while another seat has it, and tries again. It takes no memory.
    pub fn enter<R: Wait>(&self, rt: &R, seat: &mut Seat<S>) -> S
        requires seat { IsSeatOf self.now seat.old }
        requires outside { seat.old.inside ≡ false }
        ensures seat { IsSeatOf self.now seat.new }
        ensures state { IsEntered S.seat_of S.history S.fits
            self.now.opening self.now.seats (part_of seat.old) result }
        ensures inside { HasTried (after_enter seat.old result) seat.new }
    {
        for _ in rt.forever() {
            let seen = self.leaves();
            if let Some(state) = self.try_enter(seat) {
                return state;
            }
            self.rest(rt, seen);
        }
        unreachable!()
    }

    fn write_down<W: Said<S, S::Note>>(
        &self,
        place: &mut TableSeat<S, S::Entry, S::Note>,
        state: &S,
        held: &S::Held,
    )
        requires lock { place.old.table_id ≡ self.now.lock }
        requires said { (W.state ≡ Some state.now) × (W.note ≡ S.note_of held.now) }
        requires inside { (place.old.me.0.inside ≡ true) × (place.old.me.0.others ≡ [])
            × (place.old.me.0.deals ≡ false) }
        requires moves { (s : S) × (place.old.me.0.state ≡ Some s)
            × S.moves place.old.me.0.number s place.old.me.0.note state.now (S.note_of held.now) }
        //
        ensures lock { (place.new.table_id ≡ place.old.table_id) × (place.new.id ≡ place.old.id) }
        ensures written { place.new.me ≡ (
          view_made_known S.seat_of S.history place.old.me.0 state.now
              (S.note_of held.now),
          place.old.me.1,
        ) }
    {
        self.table
            .shared
            .store::<MakeKnown<S, W>>(place, 1, state.length());
    }

    /// Gives the state back, changed by a move that the guarded state allows, and goes outside with what `held` means as the seat's note.
    /// It wakes one of those who rest, takes no memory and waits for nobody.
    pub fn leave(&self, seat: &mut Seat<S>, state: S, held: &S::Held)
        requires seat { IsSeatOf self.now seat.old }
        requires inside { seat.old.inside ≡ true }
        requires moves { (s : S) × (seat.old.state ≡ Some s)
            × S.moves seat.old.number s seat.old.note state (S.note_of held.now) }
        //
        ensures seat { IsSeatOf self.now seat.new }
        ensures new { seat.new
            ≡ after_leave S.seat_of S.history seat.old state (S.note_of held.now) }
    {
        self.write_down::<Brand>(&mut seat.place, &state, held);
        let before = self.table.shared.exchange(&mut seat.place, 0, Some(state));
        let None = before else { unreachable!() };
        self.table.shared.store::<Release>(&mut seat.place, 0, 0);
        self.ring(&mut seat.place, &self.leaves, &mut Asked::nobody());
    }

    /// Tells one seat what another has seen. It takes no memory and waits for nobody.
    pub fn meet(&self, from: &mut Seat<S>, to: &mut Seat<S>)
        requires seats { IsSeatOf self.now from.old × IsSeatOf self.now to.old }
        requires outside { (from.old.inside ≡ false) × (to.old.inside ≡ false) }
        //
        ensures seats { IsSeatOf self.now from.new × IsSeatOf self.now to.new }
        ensures from { from.new ≡ from.old }
        ensures to { to.new ≡ record to.old { seen = to.new.seen } }
        //
        ensures met { IsPrefix from.old.seen to.new.seen }
        ensures kept { IsPrefix to.old.seen to.new.seen }
        ensures own { entries_by S.seat_of to.new.number to.new.seen ≡ to.new.own }
    {
        let courier = self.table.shared.split_seat::<Cut>(&mut from.place);
        self.table.shared.join_seat::<Glue>(&mut to.place, courier);
        self.table.shared.load::<Look<S>>(&mut to.place, 1);
    }

    // Rings a bell once more: the seat's count of it rises. It wakes one of those who sleep.
    #[inline(always)]
    fn ring<const WORD: usize>(
        &self,
        place: &mut TableSeat<S, S::Entry, S::Note>,
        bell: &Bell<WORD>,
        asked: &mut Asked,
    )
        requires lock { place.old.table_id ≡ self.now.lock }
        requires word { (2 ≤ WORD) × (WORD < 5) }
        //
        ensures lock { (place.new.table_id ≡ place.old.table_id) × (place.new.id ≡ place.old.id) }
        ensures rung { place.new.me ≡ (view_rung WORD place.old.me.0, place.old.me.1) }
        ensures asked { asked.new ≡ record asked.old { one = true } }
    {
        // `raises` in wait_model
        self.table.shared.fetch_add::<Ring>(place, WORD, 1);
        bell.wake_one(asked);
    }

    // The same, but that it wakes all who sleep.
    fn ring_all<const WORD: usize>(
        &self,
        place: &mut TableSeat<S, S::Entry, S::Note>,
        bell: &Bell<WORD>,
        asked: &mut Asked,
    )
        requires lock { place.old.table_id ≡ self.now.lock }
        requires word { (2 ≤ WORD) × (WORD < 5) }
        //
        ensures lock { (place.new.table_id ≡ place.old.table_id) × (place.new.id ≡ place.old.id) }
        ensures rung { place.new.me ≡ (view_rung WORD place.old.me.0, place.old.me.1) }
        ensures asked { asked.new ≡ record asked.old { all = true } }
    {
        // `raises` in wait_model
        self.table.shared.fetch_add::<Ring>(place, WORD, 1);
        bell.wake_all(asked);
    }

    // Sleeps until the bell's number differs from `seen`, or answers earlier.
    fn rest_on<R: Wait, const WORD: usize>(&self, rt: &R, bell: &Bell<WORD>, seen: u64)
        requires word { WORD < 5 }
    {
        // `compares`, or `sees_rise`
        if self.table.shared.peek(WORD) != seen {
            return;
        }
        bell.lie_down();
        // `compares`, or `sees_rise`
        if self.table.shared.peek(WORD) == seen {
            bell.sleep(rt);
        }
    }

    /// How many times `leave` was called, modulo 2 to the 64. Nothing is promised of it.
    pub fn leaves(&self) -> u64 {
        self.table.shared.peek(2)
    }

    /// Sleeps until `leaves` differs from `seen`, or answers earlier. A leave wakes one of those who sleep, so whoever rests tries again
    /// until it goes in. Nothing is promised of it.
    pub fn rest<R: Wait>(&self, rt: &R, seen: u64) {
        self.rest_on(rt, &self.leaves, seen);
    }

    /// How many times `tell` was called, modulo 2 to the 64. Nothing is promised of it.
    pub fn changes(&self) -> u64 {
        self.table.shared.peek(3)
    }

    /// Wakes one of those who rest on a change. A caller tells where its leave may let somebody go on who waits
    /// for a page or a disk behind the lock, and not for the lock itself.
    pub fn tell(&self, seat: &mut Seat<S>)
        requires seat { IsSeatOf self.now seat.old }
        ensures seat { IsSeatOf self.now seat.new }
        ensures told { seat.new ≡ after_tells 1 0 seat.old }
    {
        self.ring(&mut seat.place, &self.changes, &mut Asked::nobody());
    }

    /// Wakes one of those who rest on a change, as `tell` does, where nothing has changed: for whoever rested, and ends without a `tell`, or
    /// rests elsewhere.
    pub fn pass_on(&self) {
        self.changes.wake_one(&mut Asked::nobody());
    }

    /// Sleeps until `changes` differs from `seen`, or answers earlier. A `tell` wakes one of those who sleep, so whoever rested tells or
    /// passes on by and by, or rests again where somebody else holds it up, who has a transfer out and will tell. Nothing is promised of it.
    pub fn rest_on_change<R: Wait>(&self, rt: &R, seen: u64) {
        self.rest_on(rt, &self.changes, seen);
    }

    /// How many times `tell_files` was called, modulo 2 to the 64. Nothing is promised of it.
    pub fn files(&self) -> u64 {
        self.table.shared.peek(4)
    }

    /// Wakes all who rest on a file's call: where one is over.
    pub fn tell_files(&self, seat: &mut Seat<S>)
        requires seat { IsSeatOf self.now seat.old }
        ensures seat { IsSeatOf self.now seat.new }
        ensures told { seat.new ≡ after_tells 0 1 seat.old }
    {
        self.ring_all(&mut seat.place, &self.files, &mut Asked::nobody());
    }

    /// Sleeps until `files` differs from `seen`, or answers earlier. Nothing is promised of it.
    pub fn rest_on_files<R: Wait>(&self, rt: &R, seen: u64) {
        self.rest_on(rt, &self.files, seen);
    }
}
