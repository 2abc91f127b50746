//! A disk in memory.
ghost use Rattle.std.specs.Prelude.{◌≡◌, ◌<◌, ◌^◌, length, vec_len};

use crate::failing::{Failing, one_more};
use crate::{Block, Disk, Failed};
use std::alloc::{AllocError, Global};

/// A disk in memory, which fails at listed calls. Reads and writes are numbered together, from 1.
///
/// A read that fails leaves the buffer as it was. A write that fails is torn: the first 2048 bytes of
/// the block are new. Each call costs the 4096 bytes that it moves, and a look through the list.
#[derive(Drop)]
pub struct MemDisk {
    blocks: Vec<Block>,
    calls: Failing,
    reads: u64,
    writes: u64,
    ghost few: { length blocks.items < 2 ^ 32 },
}

impl MemDisk {
    ghost use Rattle.std.specs.Prelude.{IfOk};
    ghost use Rattle.block_device.specs.MemDiskLook.{look, blocks_seen};
    ghost use Rattle.block_device.specs.MemSeen.{fresh_disk, blank_blocks};

    /// A disk of so many blocks, all zeros, whose calls of these numbers fail.
    pub fn new(alloc: Global, blocks: u32, fail_at: Vec<u64>) -> Result<MemDisk, AllocError>
        ensures { IfOk result (λ disk. look disk ≡ fresh_disk (blank_blocks blocks) fail_at.items) }
    {
        let blocks = vec![in alloc; Block::zeros(); blocks as usize]?;
        Ok(MemDisk::from_blocks(blocks, fail_at))
    }

    /// A disk with these blocks, whose calls of these numbers fail. Takes no memory.
    pub fn from_blocks(blocks: Vec<Block>, fail_at: Vec<u64>) -> MemDisk
        requires { vec_len blocks < 2 ^ 32 }
        ensures { look result ≡ fresh_disk (blocks_seen blocks.items) fail_at.items }
    {
        MemDisk {
            blocks,
            calls: Failing::new(fail_at),
            reads: 0,
            writes: 0,
        }
    }

    /// The blocks.
    pub fn content(&self) -> &[Block]
        ensures { blocks_seen result.now ≡ (look self.now).blocks }
    {
        self.blocks.as_slice()
    }

    /// The blocks. Takes no memory.
    pub fn into_blocks(self) -> Vec<Block>
        ensures { blocks_seen result.items ≡ (look self).blocks }
    {
        self.blocks
    }

    /// How many reads were asked for, those that failed among them. The count stays at 2^64 - 1.
    pub fn reads(&self) -> u64
        ensures { result ≡ (look self.now).reads }
    {
        self.reads
    }

    /// How many writes were asked for, those that failed among them. The count stays at 2^64 - 1.
    pub fn writes(&self) -> u64
        ensures { result ≡ (look self.now).writes }
    {
        self.writes
    }
}

impl Disk for MemDisk {
    ghost use Rattle.std.specs.Prelude.{◌↔◌, IsErr, IsTrue, OnErr, is_err};
    ghost use Rattle.block_device.specs.DiskSeen.{Reads, Writes};
    ghost use Rattle.block_device.specs.MemDiskLook.{look, look_has_blocks};
    ghost use Rattle.block_device.specs.MemSeen.{disk_of, after_read, after_write, is_next_listed};

    ghost seen = { λ d. disk_of (look d) };

    fn blocks(&self) -> u32 {
        self.blocks.len() as u32
    }

    fn faults(&self) -> u64 {
        self.calls.faults()
    }

    fn calls(&self) -> u64 {
        self.calls.calls()
    }

    fn read(&mut self, block: u32, into: &mut [u8]) -> Result<(), Failed>
        requires block { block < length (look self.old).blocks }
        requires size { length into.old ≡ 4096 }
        ensures reads { Reads
            (disk_of (look self.old)) (disk_of (look self.new)) block into.new result }
        // Exactly this:
        ensures new { look self.new ≡ after_read (look self.old) (is_err result) }
        ensures fails { IsErr result ↔ IsTrue (is_next_listed (look self.old).calls) }
        ensures kept { OnErr result (into.new ≡ into.old) }
    {
        let fails = self.calls.is_next_listed();
        self.calls.count(fails);
        self.reads = one_more(self.reads);
        if fails {
            return Err(Failed);
        }
        into.copy_from_slice(&self.blocks[block as usize].bytes);
        Ok(())
    }

    fn write(&mut self, block: u32, from: &[u8]) -> Result<(), Failed>
        requires block { block < length (look self.old).blocks }
        requires size { length from.now ≡ 4096 }
        ensures writes { Writes
            (disk_of (look self.old)) (disk_of (look self.new)) block from.now result }
        // Exactly this:
        ensures new { look self.new ≡ after_write (look self.old) (is_err result) block from.now }
        ensures fails { IsErr result ↔ IsTrue (is_next_listed (look self.old).calls) }
    {
        let fails = self.calls.is_next_listed();
        self.calls.count(fails);
        self.writes = one_more(self.writes);
        if fails {
            self.blocks[block as usize].write_half(from);
            return Err(Failed);
        }
        self.blocks[block as usize].write(from);
        Ok(())
    }

    ghost has_blocks = { look_has_blocks };
}
