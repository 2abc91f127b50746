//! The history of a kernel that was closed.
ghost use Rattle.std.specs.Prelude.{◌≡◌, [], None, length, slice_index_or};

use entry_list::Entries;
use std::alloc::Global;
use std::marker::Model;

// The counts of a kernel's disks by number.
#[derive(Drop)]
struct Counts {
    faults: [Option<u64>; 9],
    ghost nine: { length faults ≡ 9 },
}

/// The history of a kernel that was closed, in the order in which the calls acted. One that isn't empty comes from
/// `finish_world` alone.
#[derive(Drop)]
pub struct KernelHistory {
    entries: Entries,
    counts: Option<Counts>,
}

impl Model for KernelHistory {
    ghost use Rattle.std.specs.Prelude.{[], Some, None};
    ghost use Rattle.kernel_close.specs.Finish.{HistorySeen};

    ghost Value = { HistorySeen };

    ghost view = { λ h. record { entries = h.entries; faults = elim h.counts [ None ↦ [] | Some k ↦ k.faults ] } };
}

impl KernelHistory {
    /// No history: no entries, and no disks. It takes no memory.
    pub fn none(alloc: Global) -> KernelHistory
        ensures entries { result.entries ≡ [] }
        ensures faults { result.faults ≡ [] }
    {
        KernelHistory {
            entries: Entries::new(alloc),
            counts: None,
        }
    }

    // The history of a kernel whose disks had these counts.
    pub(crate) fn of(entries: Entries, faults: [Option<u64>; 9]) -> KernelHistory
        ensures entries { result.entries ≡ entries }
        ensures faults { result.faults ≡ faults }
    {
        KernelHistory {
            entries,
            counts: Some(Counts { faults }),
        }
    }

    /// The entries.
    pub fn entries(&self) -> &Entries
        ensures { result.now ≡ self.now.entries }
    {
        &self.entries
    }

    /// How many faults a disk had counted as the kernel was closed, by its number, which is 8 for the swap disk; none where
    /// there was no such disk.
    pub fn faults(&self, disk: u32) -> Option<u64>
        ensures { result ≡ slice_index_or self.now.faults disk None }
    {
        match &self.counts {
            Some(counts) if disk < 9 => counts.faults[disk as usize],
            _ => None,
        }
    }
}
