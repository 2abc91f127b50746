//! A seat of the lock: one caller's place, and what it knows.
ghost use Rattle.std.specs.Prelude.{◌≡◌};
ghost use Rattle.kernel_lock.specs.Rule.{seat_view, IsPlain};

use crate::board::TableSeat;
use crate::guarded::Guarded;
use std::marker::Model;

/// One place at the lock. It goes to the thread that uses it, by value. It takes 4 bytes.
///
/// Contracts see it as the record `SeatView`.
pub struct SeatAt<S, E, N> {
    pub(crate) place: TableSeat<S, E, N>,
    pub(crate) number: u32,
}

impl<S, E, N> Model for SeatAt<S, E, N> {
    ghost use Rattle.kernel_lock.specs.Seats.{SeatView};
    ghost use Rattle.kernel_lock.specs.Rule.{seat_view, IsPlain};

    ghost Value = { SeatView S E N };

    ghost view = { λ s. seat_view s.place.table_id s.place.me.0 };

    ghost invariant = { λ s. IsPlain s.place s.number };
}

impl<S, E, N> Drop for SeatAt<S, E, N> {
    fn drop(self) {
        let Self { place, number: _ } = self;
        drop(place);
    }
}

impl<S, E, N> SeatAt<S, E, N> {
    /// The seat's number, from 0 on.
    pub fn number(&self) -> u32
        ensures { result ≡ self.now.number }
    {
        self.number
    }

    pub(crate) fn into_place(self) -> TableSeat<S, E, N>
        ensures view { seat_view result.table_id result.me.0 ≡ self }
        ensures plain { IsPlain result self.number }
    {
        let Self { place, number: _ } = self;
        place
    }
}

/// A seat of the lock of an S.
pub type Seat<S> = SeatAt<S, <S as Guarded>::Entry, <S as Guarded>::Note>;
