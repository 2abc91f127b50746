//! A rack in memory.
ghost use Rattle.std.specs.Prelude.{◌≡◌, ◌↔◌, ◌<◌, ◌^◌, map, option_map, IsTrue, IfSome, IfOk, OnOk, OnErr, IsErrOf, is_none, is_ok, unwrap_or, length, vec_len, []};
ghost use Rattle.block_device.specs.MemDiskLook.{look, blocks_seen};
ghost use Rattle.block_device.specs.MemRackSeen.{fresh_rack, with_kept, kept_under, content_for, rack_of, disk_fails_at, is_spec_refused, after_attach, disk_for};
ghost use Rattle.block_device.specs.MemSeen.{disk_of, fresh_disk, blank_blocks};
ghost use Rattle.block_device.specs.RackSeen.{Attaches, spec_number};

use crate::failing::Failing;
use crate::{Block, MemDisk, PathText, Rack, RackFault, Spec};
use std::alloc::{AllocError, Global};
use std::marker::Model;

// A disk that is kept under a path.
#[derive(Drop)]
struct KeptDisk {
    path: PathText,
    blocks: Vec<Block>,
    ghost few: { length blocks.items < 2 ^ 32 },
}

/// A rack in memory, which fails at listed calls, numbered from 1. It makes blank disks, and keeps disks
/// under paths: each attaching by path gives a disk of its own with the blocks kept there, and the rack
/// keeps them as they are. It fails at a path under which it keeps none, and once it attached 2^64 - 1 disks.
///
/// Attaching costs the blocks of the disk, a look through the list, and for a path one comparison for each
/// disk that is kept.
#[derive(Drop)]
pub struct MemRack {
    alloc: Global,
    kept: Vec<KeptDisk>,
    disks_fail_at: Vec<Vec<u64>>,
    calls: Failing,
    attached: u64,
}

impl Model for MemRack {
    ghost use Rattle.std.specs.Prelude.{map};
    ghost use Rattle.block_device.specs.MemDiskLook.{blocks_seen};
    ghost use Rattle.block_device.specs.MemRackSeen.{MemRackSeen};

    ghost Value = { MemRackSeen };

    ghost view = { λ r. record { kept = map (λ disk. (disk.path, blocks_seen disk.blocks.items)) r.kept.items; disks_fail_at = map (λ list. list.items) r.disks_fail_at.items; calls = r.calls; attached = r.attached } };
}

impl MemRack {
    /// A rack that keeps no disk, whose calls of the numbers in `fail_at` fail. The calls of its disk number
    /// n that fail are at n in `disks_fail_at`; a disk past the end of that list never fails.
    pub fn new(alloc: Global, fail_at: Vec<u64>, disks_fail_at: Vec<Vec<u64>>) -> MemRack
        ensures { result ≡ fresh_rack fail_at.items (map (λ list. list.items) disks_fail_at.items) }
    {
        MemRack {
            alloc,
            kept: Vec::new(alloc),
            disks_fail_at,
            calls: Failing::new(fail_at),
            attached: 0,
        }
    }

    /// Keeps a disk with these blocks under a path. Where one is kept there already, that one is given.
    pub fn keep(&mut self, path: PathText, blocks: Vec<Block>) -> Result<(), AllocError>
        requires { vec_len blocks < 2 ^ 32 }
        ensures kept { OnOk result (self.new ≡ with_kept self.old path (blocks_seen blocks.items)) }
        ensures same { OnErr result (self.new ≡ self.old) }
    {
        self.kept.reserve(1)?;
        self.kept.push(KeptDisk { path, blocks }).unwrap();
        Ok(())
    }

    /// How many disks were asked for. The count stays at 2^64 - 1.
    pub fn calls(&self) -> u64
        ensures { result ≡ self.now.calls.calls }
    {
        self.calls.calls()
    }

    // The blocks kept under a path.
    fn kept_under(&self, path: &PathText) -> Option<&[Block]>
        ensures few { IfSome result (λ blocks. length blocks.now < 2 ^ 32) }
        ensures kept { option_map (λ blocks. blocks_seen blocks.now) result
            ≡ kept_under self.now path.now }
    {
        for disk in &self.kept {
            if path.bytes() == disk.path.bytes() {
                return Some(disk.blocks.as_slice());
            }
        }
        None
    }

    // Has the rack no disk for a spec?
    fn lacks(&self, spec: &Spec) -> bool
        ensures { result ≡ is_none (content_for self.now spec.now) }
    {
        match spec {
            Spec::Blank { .. } => false,
            Spec::Path { path, .. } => self.kept_under(path).is_none(),
        }
    }

    // A copy of the calls of a disk that are to fail.
    fn fails_of(&self, number: u32) -> Result<Vec<u64>, AllocError>
        ensures { IfOk result (λ list. list.items ≡ disk_fails_at self.now number) }
    {
        let number = number as usize;
        if number < self.disks_fail_at.len() {
            Vec::from_slice(self.alloc, self.disks_fail_at[number].as_slice())
        } else {
            Ok(Vec::new(self.alloc))
        }
    }

    // A copy of the blocks kept under a path; no blocks where there are none.
    fn copy_of(&self, path: &PathText) -> Result<Vec<Block>, AllocError>
        ensures few { IfOk result (λ blocks. vec_len blocks < 2 ^ 32) }
        ensures copy { IfOk result (λ blocks.
            blocks_seen blocks.items ≡ unwrap_or (kept_under self.now path.now) []) }
    {
        match self.kept_under(path) {
            Some(blocks) => Vec::from_slice(self.alloc, blocks),
            None => Ok(Vec::new(self.alloc)),
        }
    }

    // Makes the disk of a spec.
    fn make(&self, spec: &Spec) -> Result<MemDisk, AllocError>
        ensures { IfOk result (λ disk. look disk ≡ disk_for self.now spec.now) }
    {
        let fail_at = self.fails_of(spec.number())?;
        match spec {
            Spec::Blank { blocks, .. } => MemDisk::new(self.alloc, *blocks, fail_at),
            Spec::Path { path, .. } => {
                let blocks = self.copy_of(path)?;
                Ok(MemDisk::from_blocks(blocks, fail_at))
            }
        }
    }
}

impl Rack for MemRack {
    ghost use Rattle.block_device.specs.MemRackSeen.{rack_of};

    type D = MemDisk;

    ghost seen = { rack_of };

    fn faults(&self) -> u64 {
        self.calls.faults()
    }

    fn attach(&mut self, spec: &Spec) -> Result<MemDisk, RackFault>
        ensures attaches { Attaches
            (rack_of self.old) (rack_of self.new) spec.now (λ d. disk_of (look d)) result }
        ensures new { self.new ≡ after_attach self.old spec.now (is_ok result) }
        ensures fails { IsErrOf result RackFault.Failed
            ↔ IsTrue (is_spec_refused self.old spec.now) }
        ensures disk { IfOk result (λ disk. look disk ≡ disk_for self.old spec.now) }
    {
        let fails = self.calls.is_next_listed() || self.lacks(spec) || self.attached == u64::MAX;
        self.calls.count(fails);
        if fails {
            return Err(RackFault::Failed);
        }
        match self.make(spec) {
            Ok(disk) => {
                self.attached += 1;
                Ok(disk)
            }
            Err(_) => Err(RackFault::Memory),
        }
    }
}
