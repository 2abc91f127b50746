//! A rack whose disks wait for each other: a transfer tells that it has begun, and ends only once another one has begun. Others are slow.
ghost use Rattle.std.specs.Prelude.{◌≡◌};

use block_device::{Disk, Failed, MemDisk, MemRack, Rack, RackFault, Spec};
use std::sync::atomic::{AtomicU64, Ordering};

/// How often is looked for what is waited for, before whoever waits goes on without it.
const LOOKS: u32 = 100_000_000;

/// How often a write that is held looks on, so that whoever finds its disk out has come to rest.
const LINGER: u32 = 10_000_000;

/// Something that begins once, on one thread, and is waited for on another.
#[derive(Drop)]
pub(crate) struct Event {
    begun: AtomicU64,
}

impl Event {
    pub(crate) fn new() -> Event {
        Event {
            begun: AtomicU64::new(0),
        }
    }

    fn tell(&self) {
        self.begun.store(1, Ordering::SeqCst);
    }

    // Looks until it has begun. False where it hasn't after so many looks.
    fn wait(&self, looks: u32) -> bool {
        for _look in 0..looks {
            if self.begun.load(Ordering::SeqCst) != 0 {
                return true;
            }
        }
        false
    }
}

/// What a disk's first read of block 1 tells, and what it waits for; or what its first write tells, or the first one behind a read of
/// block 1, and what that waits for, and some looks longer; or how often each read looks for what never begins.
#[derive(Clone, Copy)]
pub(crate) enum Gate<'a> {
    Open,
    Read {
        begun: &'a Event,
        until: &'a Event,
    },
    Write {
        begun: &'a Event,
    },
    Held {
        was_read: bool,
        begun: &'a Event,
        until: &'a Event,
        never: &'a Event,
    },
    Slow {
        never: &'a Event,
        looks: u32,
    },
}

/// A disk in memory with a gate, until its transfer has come.
#[derive(Drop)]
pub(crate) struct GatedDisk<'a> {
    disk: MemDisk,
    gate: Gate<'a>,
    /// The transfer ended before what it waited for had begun.
    pub(crate) was_late: bool,
}

impl<'a> GatedDisk<'a> {
    fn reads(&mut self, block: u32)
        ensures { self.new.disk ≡ self.old.disk }
    {
        match self.gate {
            Gate::Read { begun, until } if block == 1 => {
                self.gate = Gate::Open;
                begun.tell();
                self.was_late = !until.wait(LOOKS);
            }
            Gate::Held {
                begun,
                until,
                never,
                ..
            } if block == 1 => {
                self.gate = Gate::Held {
                    was_read: true,
                    begun,
                    until,
                    never,
                };
            }
            Gate::Slow { never, looks } => {
                never.wait(looks);
            }
            _ => {}
        }
    }

    fn writes(&mut self)
        ensures { self.new.disk ≡ self.old.disk }
    {
        match self.gate {
            Gate::Write { begun } => {
                self.gate = Gate::Open;
                begun.tell();
            }
            Gate::Held {
                was_read,
                begun,
                until,
                never,
            } if was_read => {
                self.gate = Gate::Open;
                begun.tell();
                self.was_late = !until.wait(LOOKS);
                never.wait(LINGER);
            }
            _ => {}
        }
    }
}

impl<'a> Disk for GatedDisk<'a> {
    ghost use Rattle.block_device.specs.MemDiskLook.{look, look_has_blocks};
    ghost use Rattle.block_device.specs.MemSeen.{disk_of};

    ghost seen = { λ d. disk_of (look d.disk) };

    fn blocks(&self) -> u32 {
        self.disk.blocks()
    }

    fn faults(&self) -> u64 {
        self.disk.faults()
    }

    fn calls(&self) -> u64 {
        self.disk.calls()
    }

    fn read(&mut self, block: u32, into: &mut [u8]) -> Result<(), Failed> {
        self.reads(block);
        self.disk.read(block, into)
    }

    fn write(&mut self, block: u32, from: &[u8]) -> Result<(), Failed> {
        self.writes();
        self.disk.write(block, from)
    }

    ghost has_blocks = { λ d. look_has_blocks d.disk };
}

/// A rack in memory; the disk of number 0 gets the first gate, and that of the other number the second.
#[derive(Drop)]
pub(crate) struct GatedRack<'a> {
    pub(crate) rack: MemRack,
    pub(crate) first: Gate<'a>,
    pub(crate) other: u32,
    pub(crate) second: Gate<'a>,
}

impl<'a> Rack for GatedRack<'a> {
    ghost use Rattle.block_device.specs.MemRackSeen.{rack_of};

    type D = GatedDisk<'a>;

    ghost seen = { λ r. rack_of r.rack };

    fn faults(&self) -> u64 {
        self.rack.faults()
    }

    fn attach(&mut self, spec: &Spec) -> Result<GatedDisk<'a>, RackFault> {
        let number = spec.number();
        let gate = if number == 0 {
            self.first
        } else if number == self.other {
            self.second
        } else {
            Gate::Open
        };
        match self.rack.attach(spec) {
            Ok(disk) => Ok(GatedDisk {
                disk,
                gate,
                was_late: false,
            }),
            Err(fault) => Err(fault),
        }
    }
}
