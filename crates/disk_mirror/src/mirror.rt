//! A mirror of two disks.
ghost use Rattle.std.specs.Prelude.{◌≡◌, ◌<◌, ◌||◌, ◌&&◌, length, IfOk, IfErr, is_ok, is_err};
ghost use Rattle.block_device.specs.DiskSeen.{Reads, Writes};
ghost use Rattle.disk_mirror.specs.MirrorSeen.{HasFreshSide, SameWhereFresh};

use crate::bits::BitMap;
use block_device::{Disk, Failed};
use std::alloc::Global;

/// Two disks of as many blocks as one disk, each of whose blocks lies on both. A write goes to both. A block is
/// fresh on a disk where its last write there was Ok, and on the first alone where both failed, or before it is
/// written; a read asks only a disk where the block is fresh. Two bits a block keep where that is.
#[derive(Drop)]
pub struct Mirror<D: Disk> {
    a: D,
    b: D,
    fresh_a: BitMap,
    fresh_b: BitMap,
    ghost equal: { (D.seen a).size ≡ (D.seen b).size },
    ghost marks_a: { length fresh_a ≡ (D.seen a).size },
    ghost marks_b: { length fresh_b ≡ (D.seen a).size },
    ghost somewhere: { HasFreshSide fresh_a fresh_b },
    ghost same: { SameWhereFresh fresh_a fresh_b (D.seen a).content (D.seen b).content },
}

impl<D: Disk> Mirror<D> {
    ghost use Rattle.disk_mirror.specs.MirrorSeen.{new_mirror};
    ghost use Rattle.disk_mirror.specs.MirrorLook.{mirror_look};

    /// A mirror of two disks, whose content is that of the first until blocks are written. The error is want of
    /// memory, and gives the disks back.
    pub fn new(alloc: Global, a: D, b: D) -> Result<Mirror<D>, (D, D)>
        requires { (D.seen a).size ≡ (D.seen b).size }
        ensures mirror { IfOk result (λ mirror.
            mirror_look mirror ≡ new_mirror a b (D.seen a).size) }
        ensures back { IfErr result (λ disks. disks ≡ (a, b)) }
    {
        let size = a.blocks();
        let Ok(fresh_a) = BitMap::filled(alloc, size, true) else {
            return Err((a, b));
        };
        let Ok(fresh_b) = BitMap::filled(alloc, size, false) else {
            return Err((a, b));
        };
        Ok(Mirror {
            a,
            b,
            fresh_a,
            fresh_b,
        })
    }

    /// The two disks as they are.
    pub fn parts(self) -> (D, D)
        ensures { result ≡ ((mirror_look self).a, (mirror_look self).b) }
    {
        (self.a, self.b)
    }
}

impl<D: Disk> Mirror<D> {
    ghost use Rattle.disk_mirror.specs.MirrorSeen.{ReadsFirst, WritesEach};
    ghost use Rattle.disk_mirror.specs.MirrorLook.{mirror_look};

    // Asks the first disk for a block that is fresh there. Did it give it?
    fn read_first(&mut self, block: u32, into: &mut [u8]) -> bool
        requires block { block < (D.seen (mirror_look self.old).a).size }
        requires size { length into.old ≡ 4096 }
        ensures { ReadsFirst D.seen (mirror_look self.old) (mirror_look self.new)
            block into.new result }
    {
        if !self.fresh_a.get(block) {
            return false;
        }
        self.a.read(block, into).is_ok()
    }

    // Asks both disks to write a block, and marks where it is fresh.
    fn write_each(&mut self, block: u32, from: &[u8]) -> (Result<(), Failed>, Result<(), Failed>)
        requires block { block < (D.seen (mirror_look self.old).a).size }
        requires size { length from.now ≡ 4096 }
        ensures { WritesEach D.seen (mirror_look self.old) (mirror_look self.new)
            block from.now result.0 result.1 }
    {
        let on_a = self.a.write(block, from);
        let on_b = self.b.write(block, from);
        let (fresh_a, fresh_b) = fresh_after(&on_a, &on_b);
        self.fresh_a.set(block, fresh_a);
        self.fresh_b.set(block, fresh_b);
        (on_a, on_b)
    }
}

// Where a block is fresh after it was written to both disks: on each whose write was Ok, and on the first alone
// where both failed.
fn fresh_after(on_a: &Result<(), Failed>, on_b: &Result<(), Failed>) -> (bool, bool)
    ensures a { result.0 ≡ (is_ok on_a.now || is_err on_b.now) }
    ensures b { result.1 ≡ is_ok on_b.now }
{
    (on_a.is_ok() || on_b.is_err(), on_b.is_ok())
}

// What a write to both disks answers: it failed where both failed.
fn answer_of(on_a: Result<(), Failed>, on_b: Result<(), Failed>) -> Result<(), Failed>
    ensures { is_err result ≡ (is_err on_a && is_err on_b) }
{
    on_a.or(on_b)
}

impl<D: Disk> Disk for Mirror<D> {
    ghost use Rattle.disk_mirror.specs.MirrorSeen.{mirror_seen, AsksFresh, WritesBoth};
    ghost use Rattle.disk_mirror.specs.MirrorLook.{mirror_look, blocks_of_mirror};

    ghost seen = { λ m. mirror_seen D.seen (mirror_look m) };

    fn blocks(&self) -> u32 {
        self.a.blocks()
    }

    fn faults(&self) -> u64 {
        self.a.faults().saturating_add(self.b.faults())
    }

    fn calls(&self) -> u64 {
        self.a.calls().saturating_add(self.b.calls())
    }

    fn read(&mut self, block: u32, into: &mut [u8]) -> Result<(), Failed>
        requires block { block < (D.seen (mirror_look self.old).a).size }
        requires size { length into.old ≡ 4096 }
        ensures reads { Reads (mirror_seen D.seen (mirror_look self.old))
            (mirror_seen D.seen (mirror_look self.new)) block into.new result }
        // The disks where the block is fresh are asked, the first before the second.
        ensures asks { AsksFresh D.seen (mirror_look self.old) (mirror_look self.new) block result }
    {
        if self.read_first(block, into) {
            return Ok(());
        }
        if !self.fresh_b.get(block) {
            return Err(Failed);
        }
        self.b.read(block, into)
    }

    fn write(&mut self, block: u32, from: &[u8]) -> Result<(), Failed>
        requires block { block < (D.seen (mirror_look self.old).a).size }
        requires size { length from.now ≡ 4096 }
        ensures writes { Writes (mirror_seen D.seen (mirror_look self.old))
            (mirror_seen D.seen (mirror_look self.new)) block from.now result }
        // Both disks are asked.
        ensures both { WritesBoth D.seen (mirror_look self.old) (mirror_look self.new)
            block from.now result }
    {
        let (on_a, on_b) = self.write_each(block, from);
        answer_of(on_a, on_b)
    }

    ghost has_blocks = { blocks_of_mirror D.has_blocks };
}
