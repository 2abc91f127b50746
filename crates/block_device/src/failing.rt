//! Which calls of a memory form fail, and what was counted.
ghost use Rattle.std.specs.Prelude.{◌≡◌};
ghost use Rattle.block_device.specs.MemSeen.{one_more, no_calls, is_next_listed, after_call};

use std::marker::Model;

// The numbers of the calls that are to fail, from 1, and the counts of calls and faults.
#[derive(Drop)]
pub(crate) struct Failing {
    fail_at: Vec<u64>,
    calls: u64,
    faults: u64,
}

impl Model for Failing {
    ghost use Rattle.block_device.specs.MemSeen.{CallsSeen};

    ghost Value = { CallsSeen };

    ghost view = { λ f. record { fail_at = f.fail_at.items; calls = f.calls; faults = f.faults } };
}

// One more, or the same at 2^64 - 1.
pub(crate) fn one_more(count: u64) -> u64
    ensures { result ≡ one_more count }
{
    count.saturating_add(1)
}

impl Failing {
    pub(crate) fn new(fail_at: Vec<u64>) -> Failing
        ensures { result ≡ no_calls fail_at.items }
    {
        Failing {
            fail_at,
            calls: 0,
            faults: 0,
        }
    }

    // Scans the list of failing calls.
    pub(crate) fn is_next_listed(&self) -> bool
        ensures { result ≡ is_next_listed self.now }
    {
        self.fail_at.contains(&one_more(self.calls))
    }

    // Counts a call, and a fault if it failed.
    pub(crate) fn count(&mut self, failed: bool)
        ensures { self.new ≡ after_call self.old failed }
    {
        self.calls = one_more(self.calls);
        if failed {
            self.faults = one_more(self.faults);
        }
    }

    pub(crate) fn calls(&self) -> u64
        ensures { result ≡ self.now.calls }
    {
        self.calls
    }

    pub(crate) fn faults(&self) -> u64
        ensures { result ≡ self.now.faults }
    {
        self.faults
    }
}
