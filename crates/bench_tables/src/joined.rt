//! A joined disk over disks in memory, and its transfers.
ghost use Rattle.std.specs.Prelude.{◌≡◌, IfSome};
ghost use Rattle.block_device.specs.MemDiskLook.{look};
ghost use Rattle.block_device.specs.MemSeen.{disk_of};

use crate::numbers::number;
use crate::transfers::{BLOCKS, transfers};
use block_device::{Disk, MemDisk, Pairing};
use joined_disk::JoinedDisk;
use std::alloc::Global;
use std::env::Args;

// What is done, and how many times.
#[derive(Clone, Copy)]
struct Task {
    writes: bool,
    count: u32,
}

fn made(mut disk: JoinedDisk<MemDisk>, task: Task) -> Option<(u64, u64)> {
    if disk.blocks() < BLOCKS {
        return None;
    }
    let sum = transfers(&mut disk, task.writes, task.count);
    Some((sum, disk.calls()))
}

fn blank(alloc: Global) -> Option<MemDisk>
    ensures { IfSome result (λ disk. (disk_of (look disk)).size ≡ 8) }
{
    MemDisk::new(alloc, BLOCKS, Vec::new(alloc)).ok()
}

fn made_on(alloc: Global, kind: u32, task: Task) -> Option<(u64, u64)> {
    let first = blank(alloc)?;
    if kind == 0 {
        return made(JoinedDisk::pair(alloc, first, None, false).ok()?, task);
    }
    let second = blank(alloc)?;
    made(
        JoinedDisk::pair(alloc, first, Some(second), kind != 1).ok()?,
        task,
    )
}

/// Makes transfers of a joined disk. A sum of their bytes, and how many were counted; `None` is
/// want of memory.
pub(crate) fn transfer_each(alloc: Global, words: &mut Args) -> Option<(u64, u64)> {
    let kind = number(words, 0);
    let writes = number(words, 0) != 0;
    let count = number(words, 1000);
    made_on(alloc, kind, Task { writes, count })
}
