//! Those who sleep until a bell has rung again. Nothing is promised of their sleep.
//!
//! A bell's number stands in a word of the table, and only rises. A ring wakes one of the sleepers, and none while a wake-up is on its way: so
//! whoever rings runs on, and rings many times without a call of the system, while the one that it woke comes up. Who can't let the next go on
//! is woken with all the others. docs/waiting.md says how callers wait; the comments name the steps of `wait_model`.
ghost use Rattle.std.specs.Prelude.{◌≡◌, false, true};

use std::sync::Wait;
use std::sync::atomic::AtomicU64;
use std::sync::atomic::Ordering::SeqCst;

/// Which wake-ups a ring has asked for: that of one sleeper, or that of all.
#[derive(Drop)]
pub(crate) struct Asked {
    one: bool,
    all: bool,
}

impl Asked {
    /// None yet.
    #[inline(always)]
    pub(crate) fn nobody() -> Asked
        ensures { result ≡ record { one = false; all = false } }
    {
        Asked {
            one: false,
            all: false,
        }
    }
}

/// The sleepers of the bell whose number is in this word of the table.
#[derive(Drop)]
pub(crate) struct Bell<const WORD: usize> {
    // 1 where somebody may sleep and no wake-up is on its way, and else 0. Sleepers sleep on it while it is 1.
    asleep: AtomicU64,
}

impl<const WORD: usize> Bell<WORD> {
    pub(crate) fn new() -> Bell<WORD> {
        Bell {
            asleep: AtomicU64::new(0),
        }
    }

    /// Wakes one of those who sleep, where no wake-up is on its way.
    #[inline(always)]
    pub(crate) fn wake_one(&self, asked: &mut Asked)
        ensures { asked.new ≡ record asked.old { one = true } }
    {
        // `looks`, then `swaps`
        if self.asleep.load(SeqCst) != 0 && self.asleep.swap(0, SeqCst) != 0 {
            // `wakes`, or `wakes_none`
            self.asleep.wake_one();
        }
        asked.one = true;
    }

    /// Wakes all who sleep.
    pub(crate) fn wake_all(&self, asked: &mut Asked)
        ensures { asked.new ≡ record asked.old { all = true } }
    {
        // `swaps_for_all`
        if self.asleep.swap(0, SeqCst) != 0 {
            // `wakes_all`
            self.asleep.wake_all();
        }
        asked.all = true;
    }

    /// Says that somebody may sleep from here on.
    pub(crate) fn lie_down(&self) {
        // `announces`
        self.asleep.store(1, SeqCst);
    }

    /// Sleeps until it is woken, or answers earlier. Whoever wakes says that others may sleep still.
    pub(crate) fn sleep<R: Wait>(&self, rt: &R) {
        // `parks`, `parks_not` or `wakes_early`
        self.asleep.park(rt, 1);
        // `announces_again`
        self.asleep.store(1, SeqCst);
    }
}
