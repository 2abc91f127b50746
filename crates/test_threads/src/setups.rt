//! A kernel over a swap disk.
ghost use Rattle.std.specs.Prelude.{◌≡◌, ◌<◌, ◌≤◌, IfOk};
ghost use Rattle.block_device.specs.MemDiskLook.{look};
ghost use Rattle.block_device.specs.MemSeen.{disk_of};

use crate::trial::{Trial, begin};
use block_device::{Block, Disk, MemDisk};
use std::alloc::{AllocError, Global};
use std::test::Fail;
use vm_core::{Setup, VmState};
use vnode_files::Files;

/// A disk of 16 blocks: block n is full of n more than this. The calls of these numbers fail.
pub(crate) fn new_disk(alloc: Global, first: u8, fail_at: &[u64]) -> Result<MemDisk, AllocError>
    requires { first < 200 }
    ensures { IfOk result (λ disk. (disk_of (look disk)).size ≡ 16) }
{
    let mut blocks = vec![in alloc; Block::zeros(); 16]?;
    for n in 0..16u8 {
        blocks[n as usize] = Block::new([first + n; 4096]);
    }
    Ok(MemDisk::from_blocks(blocks, fail_at.to_vec(alloc)?))
}

/// Process 1, and process 2 with this parent, over eight frames, four translations, and a swap disk with so many slots.
pub(crate) fn over_swap<D: Disk>(
    alloc: Global,
    slots: u32,
    swap: D,
    parent: u32,
) -> Result<Trial<D>, Fail>
    requires some { 0 < slots }
    requires slots { slots ≤ (D.seen swap).size }
{
    let setup = Setup {
        frames: 8,
        translations: 4,
        slots,
        disks: Vec::new(alloc),
        swap: Some(swap),
        files: Files::new(alloc),
        parents: [0u32, parent].to_vec(alloc)?,
        entries: [99u32, 99].to_vec(alloc)?,
        seats: 3,
    };
    match VmState::start(alloc, setup) {
        Ok(state) => begin(alloc, state, parent),
        Err(_) => Err(Fail::new("no memory for the state")),
    }
}
