//! A disk in memory whose first read or write tells that it has begun, and ends only once something else has happened.
ghost use Rattle.std.specs.Prelude.{◌≡◌};

use block_device::{Disk, Failed, MemDisk};
use std::sync::atomic::{AtomicU64, Ordering};

/// How often is looked for what is waited for, before whoever waits goes on without it.
const LOOKS: u32 = 100_000_000;

/// Something that happens once, on one thread, and is waited for on another.
#[derive(Drop)]
pub(crate) struct Event {
    happened: AtomicU64,
}

impl Event {
    pub(crate) fn new() -> Event {
        Event {
            happened: AtomicU64::new(0),
        }
    }

    pub(crate) fn tell(&self) {
        self.happened.store(1, Ordering::SeqCst);
    }

    fn has_happened(&self) -> bool {
        self.happened.load(Ordering::SeqCst) != 0
    }

    /// Looks until it has happened. False where it hasn't after all looks.
    pub(crate) fn wait(&self) -> bool {
        for _look in 0..LOOKS {
            if self.has_happened() {
                return true;
            }
        }
        false
    }
}

/// What the first transfer of its kind tells, and what it waits for.
#[derive(Clone, Copy)]
pub(crate) struct Gate<'a> {
    pub(crate) at_write: bool,
    pub(crate) begun: &'a Event,
    pub(crate) until: &'a Event,
    /// How many looks longer it takes.
    pub(crate) longer: u32,
}

/// A disk in memory with a gate, where it still has one.
#[derive(Drop)]
pub(crate) struct GatedDisk<'a> {
    pub(crate) disk: MemDisk,
    pub(crate) gate: Option<Gate<'a>>,
    /// A transfer ended before what it waited for.
    pub(crate) was_late: bool,
}

impl<'a> GatedDisk<'a> {
    fn pass(&mut self, writes: bool)
        ensures { self.new.disk ≡ self.old.disk }
    {
        let Some(gate) = self.gate else {
            return;
        };
        if gate.at_write != writes {
            return;
        }
        self.gate = None;
        gate.begun.tell();
        self.was_late = !gate.until.wait();
        for _look in 0..gate.longer {
            let _ = gate.until.has_happened();
        }
    }
}

impl<'a> Disk for GatedDisk<'a> {
    ghost use Rattle.block_device.specs.MemDiskLook.{look, look_has_blocks};
    ghost use Rattle.block_device.specs.MemSeen.{disk_of};

    ghost seen = { λ d. disk_of (look d.disk) };

    fn blocks(&self) -> u32 {
        self.disk.blocks()
    }

    fn faults(&self) -> u64 {
        self.disk.faults()
    }

    fn calls(&self) -> u64 {
        self.disk.calls()
    }

    fn read(&mut self, block: u32, into: &mut [u8]) -> Result<(), Failed> {
        self.pass(false);
        self.disk.read(block, into)
    }

    fn write(&mut self, block: u32, from: &[u8]) -> Result<(), Failed> {
        self.pass(true);
        self.disk.write(block, from)
    }

    ghost has_blocks = { λ d. look_has_blocks d.disk };
}
