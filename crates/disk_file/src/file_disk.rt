//! A disk over a file.
ghost use Rattle.std.specs.Prelude.{◌≡◌, ◌↔◌, ◌*◌, ◌/◌, ◌^◌, ◌<◌, ◌≤◌, ℕ, List, length, Some, IfSome, IsNone, OnOk, is_err};
ghost use Rattle.disk_file.specs.FileBytes.{ReadsAt, WritesAt};
ghost use Rattle.disk_file.specs.FileDiskSeen.{fresh_file_disk, after_transfer, with_file_bytes};

use crate::block_file::BlockFile;
use block_device::{Disk, Failed};
use std::io;

/// A disk over a file. Its blocks are the whole blocks that the file had as the disk was made, and their
/// number never changes. It tells its content where the file tells its bytes. A transfer is one call of the
/// file; one that moves fewer than 4096 bytes, is interrupted or fails otherwise is a failure that is counted,
/// and the disk can be used again after it.
#[derive(Drop)]
pub struct FileDisk<F: BlockFile> {
    file: F,
    blocks: u32,
    faults: u64,
    calls: u64,
    ghost within: { (all : List ℕ) → F.bytes file ≡ Some all → 4096 * blocks ≤ length all },
}

// Where a block begins in its file, in bytes.
fn offset_of(block: u32) -> u64
    ensures { result ≡ 4096 * block }
{
    block as u64 * 4096
}

impl<F: BlockFile> FileDisk<F> {
    ghost use Rattle.disk_file.specs.FileDiskLook.{file_disk_seen};

    /// A disk over the whole blocks of a file of so many bytes. None where there are 2^32 of them
    /// or more.
    pub fn over(file: F, size: u64) -> Option<FileDisk<F>>
        requires within { IfSome (F.bytes file) (λ all. size ≤ length all) }
        ensures disk { IfSome result (λ disk.
            file_disk_seen disk ≡ fresh_file_disk (F.bytes file) (size / 4096)) }
        ensures none { IsNone result ↔ (2 ^ 32 ≤ size / 4096) }
    {
        let blocks = u32::try_from(size / 4096).ok()?;
        Some(FileDisk {
            file,
            blocks,
            faults: 0,
            calls: 0,
        })
    }

    /// The file.
    pub fn into_file(self) -> F
        ensures { F.bytes result ≡ (file_disk_seen self).bytes }
    {
        self.file
    }

    // Asks the file for a block.
    #[tactic(auto, using(crate::proofs::TransferLemmas::read_at_offset))]
    fn read_file(&mut self, block: u32, into: &mut [u8]) -> io::Result<usize>
        ensures reads { ReadsAt (file_disk_seen self.old).bytes (file_disk_seen self.new).bytes
            (4096 * block) into.new result }
        ensures rest { file_disk_seen self.new
            ≡ with_file_bytes (file_disk_seen self.old) (file_disk_seen self.new).bytes }
    {
        self.file.read_at(into, offset_of(block))
    }

    // Gives the file a block.
    #[tactic(auto, using(crate::proofs::TransferLemmas::write_at_offset))]
    fn write_file(&mut self, block: u32, from: &[u8]) -> io::Result<usize>
        requires block { block < (file_disk_seen self.old).size }
        requires size { length from.now ≡ 4096 }
        ensures writes { WritesAt (file_disk_seen self.old).bytes (file_disk_seen self.new).bytes
            (4096 * block) from.now result }
        ensures rest { file_disk_seen self.new
            ≡ with_file_bytes (file_disk_seen self.old) (file_disk_seen self.new).bytes }
    {
        self.file.write_at(from, offset_of(block))
    }

    // Counts a transfer of a block that moved so many bytes. It failed where that isn't all of them.
    fn settle(&mut self, moved: io::Result<usize>) -> Result<(), Failed>
        ensures whole { OnOk result (moved ≡ Ok 4096) }
        ensures new { file_disk_seen self.new
            ≡ after_transfer (file_disk_seen self.old) (is_err result) }
    {
        self.calls = self.calls.saturating_add(1);
        match moved {
            Ok(4096) => Ok(()),
            _ => {
                self.faults = self.faults.saturating_add(1);
                Err(Failed)
            }
        }
    }
}

impl<F: BlockFile> Disk for FileDisk<F> {
    ghost use Rattle.block_device.specs.DiskSeen.{Reads, Writes};
    ghost use Rattle.disk_file.specs.FileBytes.{PutsPiece};
    ghost use Rattle.disk_file.specs.FileDiskSeen.{file_disk_as_disk};
    ghost use Rattle.disk_file.specs.FileDiskLook.{file_disk_seen, file_disk_has_blocks};

    ghost seen = { λ d. file_disk_as_disk (file_disk_seen d) };

    fn blocks(&self) -> u32 {
        self.blocks
    }

    fn faults(&self) -> u64 {
        self.faults
    }

    fn calls(&self) -> u64 {
        self.calls
    }

    fn read(&mut self, block: u32, into: &mut [u8]) -> Result<(), Failed>
        requires block { block < (file_disk_seen self.old).size }
        requires size { length into.old ≡ 4096 }
        ensures reads { Reads (file_disk_as_disk (file_disk_seen self.old))
            (file_disk_as_disk (file_disk_seen self.new)) block into.new result }
        // No byte of the file changes.
        ensures file { (file_disk_seen self.new).bytes ≡ (file_disk_seen self.old).bytes }
    {
        let moved = self.read_file(block, into);
        self.settle(moved)
    }

    fn write(&mut self, block: u32, from: &[u8]) -> Result<(), Failed>
        requires block { block < (file_disk_seen self.old).size }
        requires size { length from.now ≡ 4096 }
        ensures writes { Writes (file_disk_as_disk (file_disk_seen self.old))
            (file_disk_as_disk (file_disk_seen self.new)) block from.now result }
        // No byte of the file changes but the block's.
        ensures file { PutsPiece (file_disk_seen self.old).bytes (file_disk_seen self.new).bytes
            (4096 * block) 4096 }
    {
        let moved = self.write_file(block, from);
        self.settle(moved)
    }

    ghost has_blocks = { file_disk_has_blocks F.are_bytes };
}
