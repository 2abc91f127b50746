//! A run that stopped before its last line.
ghost use Rattle.std.specs.Prelude.{◌≡◌, [], Option, None};
ghost use Rattle.run_endings.specs.Ending.{ending_of};
ghost use Rattle.run_endings.specs.declared.ending.Ending.TheVariants.{Memory};

use run_endings::Ending;
use std::alloc::Global;
use vm_core::KernelHistory;
use volume_files::{Disk, HandedBack, OpenStop};

/// A run that stopped: how, with what history, and with its disks.
#[derive(Drop)]
pub struct Stop<D: Disk> {
    pub ending: Ending,
    pub history: KernelHistory,
    /// The disks that were attached, in rising number.
    pub disks: Vec<D>,
    pub swap: Option<D>,
}

// How a run ends whose files weren't opened.
fn ending_of(stop: OpenStop) -> Ending
    ensures { result ≡ ending_of stop }
{
    match stop {
        OpenStop::Memory => Ending::Memory,
        OpenStop::Refused(refusal) => Ending::Refused(refusal),
        OpenStop::Failed(fault) => Ending::Opening(fault),
    }
}

/// A run whose files weren't opened: nothing ran.
pub fn stop_unopened<D: Disk>(back: HandedBack<D>) -> Stop<D>
    ensures ending { result.ending ≡ ending_of back.why }
    ensures entries { result.history.entries ≡ [] }
    ensures counts { result.history.faults ≡ [] }
    ensures disks { result.disks ≡ back.disks }
    ensures swap { result.swap ≡ back.swap }
{
    Stop {
        ending: ending_of(back.why),
        history: KernelHistory::none(*back.disks.allocator()),
        disks: back.disks,
        swap: back.swap,
    }
}

/// A run that stopped before a disk was attached.
pub fn bare_stop<D: Disk>(alloc: Global, ending: Ending) -> Stop<D>
    ensures ending { result.ending ≡ ending }
    ensures entries { result.history.entries ≡ [] }
    ensures counts { result.history.faults ≡ [] }
    ensures disks { result.disks.items ≡ [] }
    ensures swap { result.swap ≡ None }
{
    Stop {
        ending,
        history: KernelHistory::none(alloc),
        disks: Vec::new(alloc),
        swap: None,
    }
}
