//! What each step on the table tells the seat that makes it.
ghost use Rattle.std.specs.Prelude.{Option, None};
ghost use Rattle.kernel_lock.specs.Rule.{TakesTurn, MakesKnown, ReleasesTurn, RingsBell, LooksAtLength, courier, longer_seen, blank_view, dealt_seat, dealer_after, with_known_seat, SitsDown};

use crate::board::View;
use crate::guarded::Guarded;
use atomic_table::{Join, Play, Split};
use std::marker::{Brand, PhantomData};

/// The state and the note that a seat leaves, for the proof alone. A call at `Brand` picks them.
pub(crate) trait Said<S, N> {
    ghost state: { Option S };

    ghost note: { Option N };
}

impl<S, N> Said<S, N> for Brand {
    ghost state = { None };

    ghost note = { None };
}

/// A seat takes the turn, or finds who has it.
pub(crate) struct Take<S> {
    marker: PhantomData<S>,
}

impl<S: Guarded> Play<Option<S>, View<S, S::Entry, S::Note>> for Take<S> {
    ghost then = { TakesTurn S.seat_of S.history S.fits };
}

/// The holder makes its new state and note known. Here one event takes effect.
pub(crate) struct MakeKnown<S, W> {
    marker: PhantomData<(S, W)>,
}

impl<S: Guarded, W: Said<S, S::Note>> Play<Option<S>, View<S, S::Entry, S::Note>>
    for MakeKnown<S, W> {
    ghost then = { MakesKnown S.seat_of S.history W.state W.note };
}

/// The holder gives the turn up.
pub(crate) struct Release;

impl<S, E, N> Play<Option<S>, View<S, E, N>> for Release {
    ghost then = { ReleasesTurn };
}

/// A seat rings the bell of a word. Its count of these rings rises.
pub(crate) struct Ring;

impl<S, E, N> Play<Option<S>, View<S, E, N>> for Ring {
    ghost then = { RingsBell };
}

/// A seat reads how long the history is.
pub(crate) struct Look<S> {
    marker: PhantomData<S>,
}

impl<S: Guarded> Play<Option<S>, View<S, S::Entry, S::Note>> for Look<S> {
    ghost then = { LooksAtLength S.seat_of };
}

/// A seat keeps its view, and a courier has what it has seen.
pub(crate) struct Cut;

impl<S, E, N> Split<View<S, E, N>> for Cut {
    ghost left = { λ v. v };

    ghost right = { courier };
}

/// A seat takes in what a courier has seen.
pub(crate) struct Glue;

impl<S, E, N> Join<View<S, E, N>> for Glue {
    ghost both = { longer_seen };

    ghost spent = { blank_view };
}

/// The dealer gives the next number to a new seat.
pub(crate) struct Deal;

impl<S, E, N> Split<View<S, E, N>> for Deal {
    ghost left = { dealer_after };

    ghost right = { dealt_seat };
}

/// Whoever closes takes in a seat with its number.
pub(crate) struct Gather;

impl<S, E, N> Join<View<S, E, N>> for Gather {
    ghost both = { with_known_seat };

    ghost spent = { blank_view };
}

/// A seat that knows nothing.
pub(crate) struct Sit;

impl<S, E, N> Play<Option<S>, View<S, E, N>> for Sit {
    ghost then = { SitsDown };
}
