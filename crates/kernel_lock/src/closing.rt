//! How a lock is closed: the seats are gathered, and the state comes out.
ghost use Rattle.std.specs.Prelude.{◌≡◌, false, [], ◌∷◌, map, replicate, None};
ghost use Rattle.std.specs.List.{All};
ghost use Rattle.kernel_lock.specs.Rule.{gatherer_of};
ghost use Rattle.kernel_lock.specs.Seats.{IsSeatOf, HasAll, IsClosed, part_of};

use crate::board::TableSeat;
use crate::guarded::Guarded;
use crate::lock::KernelLock;
use crate::plays::{Gather, Sit};
use crate::seat::Seat;
use std::marker::Model;

/// What whoever closes a lock has taken in so far. It takes no bytes.
///
/// Contracts see it as the record `GatheredView`.
pub struct GatheredAt<S, E, N> {
    place: TableSeat<S, E, N>,
}

impl<S, E, N> Model for GatheredAt<S, E, N> {
    ghost use Rattle.std.specs.Prelude.{◌≡◌, []};
    ghost use Rattle.kernel_lock.specs.Seats.{GatheredView};
    ghost use Rattle.kernel_lock.specs.Rule.{gatherer_of};

    ghost Value = { GatheredView E N };

    ghost view = { λ g. record { lock = g.place.table_id; parts = g.place.me.0.others } };

    ghost invariant = { λ g. g.place.me ≡ (gatherer_of g.place.me.0.others, []) };
}

impl<S, E, N> Drop for GatheredAt<S, E, N> {
    fn drop(self) {
        let Self { place } = self;
        drop(place);
    }
}

impl<S, E, N> GatheredAt<S, E, N> {
    fn into_place(self) -> TableSeat<S, E, N>
        ensures lock { result.table_id ≡ self.lock }
        ensures parts { result.me ≡ (gatherer_of self.parts, []) }
    {
        let Self { place } = self;
        place
    }
}

/// What whoever closes the lock of an S has taken in.
pub type Gathered<S> = GatheredAt<S, <S as Guarded>::Entry, <S as Guarded>::Note>;

impl<S: Guarded> KernelLock<S> {
    /// Begins to gather the seats, with none. It takes no memory.
    pub fn gather_none(&self) -> Gathered<S>
        ensures { result ≡ record { lock = self.now.lock; parts = [] } }
    {
        let (_, place) = self.table.shared.load_new_seat::<Sit>(0);
        GatheredAt { place }
    }

    /// Takes one seat in, which is outside. It takes no memory.
    pub fn gather(&self, into: &mut Gathered<S>, seat: Seat<S>)
        requires lock { into.old.lock ≡ self.now.lock }
        requires seat { IsSeatOf self.now seat }
        requires outside { seat.inside ≡ false }
        ensures { into.new ≡ record into.old { parts = part_of seat ∷ into.old.parts } }
    {
        self.table
            .shared
            .join_seat::<Gather>(&mut into.place, seat.into_place());
    }

    /// Gives the state back, once all seats are gathered. Where no seat had anything out, the state fits
    /// empty notes. It takes no memory.
    pub fn close_gathered(self, from: Gathered<S>) -> S
        requires lock { from.lock ≡ self.lock }
        requires all { HasAll self.seats from.parts }
        ensures closed { IsClosed S.seat_of S.history S.fits
            self.opening self.seats from.parts result }
        ensures empty { All (λ p. p.note ≡ None) from.parts
            → S.fits self.opening result (replicate self.seats None) }
    {
        let KernelLock {
            table,
            seats: _,
            leaves,
            changes,
            files,
        } = self;
        drop(leaves);
        drop(changes);
        drop(files);
        let mut closed = table.close_with(from.into_place());
        let slot = closed.take(0);
        closed.free();
        let Some(state) = slot else { unreachable!() };
        state
    }

    /// Gives the state back for all its seats, which are outside. Where no seat has anything out, the state
    /// fits empty notes. It takes no memory.
    pub fn close(self, seats: Vec<Seat<S>>) -> S
        requires seats { All (λ it. IsSeatOf self it × (it.inside ≡ false)) seats.items }
        requires all { HasAll self.seats (map part_of seats.items) }
        ensures closed { IsClosed S.seat_of S.history S.fits self.opening self.seats
            (map part_of seats.items) result }
        ensures empty { All (λ it. it.note ≡ None) seats.items
            → S.fits self.opening result (replicate self.seats None) }
    {
        let from = self.gather_all(seats);
        self.close_gathered(from)
    }

    fn gather_all(&self, mut seats: Vec<Seat<S>>) -> Gathered<S>
        requires { All (λ it. IsSeatOf self.now it × (it.inside ≡ false)) seats.items }
        ensures { result ≡ record { lock = self.now.lock; parts = map part_of seats.items } }
    {
        let mut from = self.gather_none();
        while let Some(seat) = seats.pop() {
            self.gather(&mut from, seat);
        }
        seats.destroy_empty();
        from
    }
}
