//! A disk in memory that begins blank.
ghost use Rattle.std.specs.Prelude.{◌≡◌, ℕ, ◌≤◌, ◌<◌, ◌-◌, ◌+◌, ◌^◌, ◌++◌, ◌∷◌, [], Option, Some, None, length, replicate, slice_index_or, slice_set, vec_len, vec_capacity};
ghost use Rattle.disk_file.specs.block_device.declared.block.Block.{Block};
ghost use Rattle.sunvm.specs.BlankPlaces.{AreBlockPlaces};

use disk_file::{Block, Disk, Failed};
use std::alloc::{AllocError, Global};

/// A disk in memory that begins blank, never fails, and is lost as it is dropped. All its memory is taken as it is made, and
/// that of a block is touched from its first write on: a disk that is attached costs no time by its size, and a block that is
/// written before those below it costs none by theirs but for a number.
#[derive(Drop)]
pub struct BlankDisk {
    // Where each block lies among those that were written, up to the last one that was; None where it wasn't.
    places: Vec<Option<u32>>,
    // The blocks that were written, in the order of their first writes. All others are zeros.
    written: Vec<Block>,
    size: u32,
    calls: u64,
    ghost small: { size < 2 ^ 32 },
    ghost few: { length places.items ≤ size },
    ghost placed: { AreBlockPlaces places.items (length written.items) },
    ghost room_of_places: { size ≤ vec_capacity places },
    ghost room_of_blocks: { size ≤ vec_capacity written },
}

// Blocks that weren't written are added, up to so many blocks.
fn fill(places: &mut Vec<Option<u32>>, count: usize)
    requires room { count ≤ vec_capacity places.old }
    ensures places { places.new.items
        ≡ places.old.items ++ replicate (count - length places.old.items) None }
    ensures capacity { vec_capacity places.new ≡ vec_capacity places.old }
{
    for _ in places.len()..count {
        places.push_reserved(None);
    }
}

// A block of 4096 bytes.
fn block_of(from: &[u8]) -> Block
    requires { length from.now ≡ 4096 }
    ensures { result.bytes ≡ from.now }
{
    let Ok(bytes) = from.try_into() else {
        unreachable!();
    };
    Block::new(bytes)
}

// Where a block lies among those that were written; None where it wasn't.
fn place_of(places: &[Option<u32>], block: u32) -> Option<u32>
    ensures { result ≡ slice_index_or places.now block None }
{
    match places.get(block as usize) {
        Some(place) => *place,
        None => None,
    }
}

// A block is written that never was: it has its place behind those that were.
fn write_first(places: &mut Vec<Option<u32>>, written: &mut Vec<Block>, block: u32, from: &[u8])
    requires first { slice_index_or places.old.items block None ≡ None }
    requires placed { AreBlockPlaces places.old.items (length written.old.items) }
    requires full { length from.now ≡ 4096 }
    requires room_of_places { block < vec_capacity places.old }
    requires room_of_blocks { length written.old.items < vec_capacity written.old }
    requires few { length written.old.items < 2 ^ 32 }
    // The place and the block.
    ensures places { places.new.items ≡ slice_set
        (places.old.items ++ replicate (block + 1 - length places.old.items) None)
        block (Some (length written.old.items)) }
    ensures written { (b : Block) × (b.bytes ≡ from.now)
        × (written.new.items ≡ written.old.items ++ b ∷ []) }
    ensures capacity { vec_capacity places.new ≡ vec_capacity places.old }
    ensures capacity_of_blocks { vec_capacity written.new ≡ vec_capacity written.old }
{
    fill(places, block as usize + 1);
    places[block as usize] = Some(written.len() as u32);
    written.push_reserved(block_of(from));
}

impl BlankDisk {
    ghost use Rattle.std.specs.Prelude.{IfOk};
    ghost use Rattle.sunvm.specs.BlankDisks.{blank_disk_seen, fresh_blank_disk};

    /// A disk of so many blocks.
    pub fn new(alloc: Global, blocks: u32) -> Result<BlankDisk, AllocError>
        ensures { IfOk result (λ disk. blank_disk_seen disk ≡ fresh_blank_disk blocks) }
    {
        Ok(BlankDisk {
            places: Vec::with_capacity(alloc, blocks as usize)?,
            written: Vec::with_capacity(alloc, blocks as usize)?,
            size: blocks,
            calls: 0,
        })
    }
}

impl Disk for BlankDisk {
    ghost use Rattle.sunvm.specs.BlankDisks.{blank_disk_seen, blank_disk_has_blocks};

    ghost seen = { blank_disk_seen };

    fn blocks(&self) -> u32 {
        self.size
    }

    fn faults(&self) -> u64 {
        0
    }

    fn calls(&self) -> u64 {
        self.calls
    }

    fn read(&mut self, block: u32, into: &mut [u8]) -> Result<(), Failed> {
        self.calls = self.calls.saturating_add(1);
        match place_of(&self.places, block) {
            Some(place) => into.copy_from_slice(&self.written[place as usize].bytes),
            None => into.fill(0),
        }
        Ok(())
    }

    fn write(&mut self, block: u32, from: &[u8]) -> Result<(), Failed> {
        self.calls = self.calls.saturating_add(1);
        match place_of(&self.places, block) {
            Some(place) => self.written[place as usize].bytes.copy_from_slice(from),
            None => write_first(&mut self.places, &mut self.written, block, from),
        }
        Ok(())
    }

    ghost has_blocks = { blank_disk_has_blocks };
}
