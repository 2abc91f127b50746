//! A caller: who makes the calls of one process, or moves the clock.
ghost use Rattle.std.specs.Prelude.{◌≡◌, ◌↔◌, ◌⊎◌, suc, false, None, IsTrue};
ghost use Rattle.vm_kernel.specs.Callers.{ShowsOwn};

use crate::boxed::BoxedState;
use crate::sent::SentFlight;
use kernel_lock::seat::Seat;
use std::marker::Model;
use vm_core::Disk;

/// Who makes the calls of one process. It goes to the thread that uses it, by value, with the transfer that it has in hand.
///
/// Contracts see it as the record `CallerSeen`.
pub struct Caller<D: Disk> {
    pub(crate) seat: Seat<BoxedState<D>>,
    // 0 where the caller is for no process.
    pub(crate) process: u32,
    pub(crate) sent: Option<SentFlight<D>>,
    // Whether its last load or store waited for a transfer: then the next isn't looked for as a hit before it is tried.
    pub(crate) misses: bool,
}

impl<D: Disk> Model for Caller<D> {
    ghost use Rattle.vm_kernel.specs.Callers.{CallerSeen, IsIdle};
    ghost use Rattle.vm_kernel.specs.CallerCode.{caller_code};

    ghost Value = { CallerSeen };

    ghost coded = { caller_code };

    ghost view = { λ c. record { seat = c.seat; process = c.process } };

    ghost invariant = { λ c. IsIdle c.seat c.process c.sent };
}

impl<D: Disk> Drop for Caller<D> {
    fn drop(self) {
        let Self {
            seat,
            process: _,
            sent,
            misses: _,
        } = self;
        drop(seat);
        drop(sent);
    }
}

impl<D: Disk> Caller<D> {
    /// Whether it has no transfer in hand.
    pub fn is_free(&self) -> bool
        ensures { IsTrue result ↔ (self.now.seat.note ≡ None) }
    {
        self.sent.is_none()
    }

    /// What the caller has seen has of its own entries just those that it made, and its process is that of its seat, or none. It does
    /// nothing.
    pub fn own_law(&self)
        ensures own { ShowsOwn self.now }
        ensures named { (self.now.process ≡ 0) ⊎ (self.now.process ≡ suc self.now.seat.number) }
    {
        let _ = &self.seat;
    }

    pub(crate) fn into_seat(self) -> Seat<BoxedState<D>>
        ensures seat { result ≡ self.seat }
        ensures outside { result.inside ≡ false }
    {
        let Self {
            seat,
            process: _,
            sent,
            misses: _,
        } = self;
        drop(sent);
        seat
    }
}
