//! The blocks of a disk that its files have, and the first that none has.
ghost use Rattle.std.specs.Prelude.{◌≡◌, ◌<◌, ◌≤◌, ◌+◌, map, nat_le, length, Some, None, if◌then◌else◌};
ghost use Rattle.std.specs.List.{find};
ghost use Rattle.vnode_files.specs.Grow.{has_block, is_free, extent_end, least_free};
ghost use Rattle.vnode_files.specs.Files.{extents_on};

use crate::extent::{Extent, MOST_EXTENTS};
use crate::vnode::Vnode;

// The extent of a file of the disk that has a block, if one has it.
pub(crate) fn extent_with(vnodes: &[Vnode], disk: u32, block: u32) -> Option<Extent>
    ensures { result ≡ find (has_block block) (extents_on disk (map (λ v. v.seen) vnodes.now)) }
{
    for vnode in vnodes {
        let extent = vnode.extent_on(disk, block);
        if extent.is_some() {
            return extent;
        }
    }
    None
}

// The block after an extent, where it is free.
pub(crate) fn free_end(vnodes: &[Vnode], disk: u32, blocks: u32, last: Extent) -> Option<u32>
    ensures { result
        ≡ (if is_free blocks (extents_on disk (map (λ v. v.seen) vnodes.now)) (extent_end last)
        then Some (extent_end last)
        else None) }
{
    let end = last.start as u64 + last.pages as u64;
    if end >= blocks as u64 {
        return None;
    }
    match extent_with(vnodes, disk, end as u32) {
        Some(_) => None,
        None => Some(end as u32),
    }
}

// Whether the files of the disk have as many extents as they may have.
pub(crate) fn is_full(vnodes: &[Vnode], disk: u32) -> bool
    ensures { result
        ≡ nat_le MOST_EXTENTS (length (extents_on disk (map (λ v. v.seen) vnodes.now))) }
{
    let mut count = 0;
    for vnode in vnodes {
        let more = vnode.count_on(disk);
        if more >= MOST_EXTENTS as usize - count {
            return true;
        }
        count += more;
    }
    false
}

// The least block of the disk from 1 on that no file has, if there is one: from the end of one extent to that of the next.
pub(crate) fn least_free(vnodes: &[Vnode], disk: u32, blocks: u32) -> Option<u32>
    ensures { result ≡ least_free blocks (extents_on disk (map (λ v. v.seen) vnodes.now)) }
{
    let mut block: u64 = 1;
    while block < blocks as u64 {
        match extent_with(vnodes, disk, block as u32) {
            Some(extent) => block = extent.start as u64 + extent.pages as u64,
            None => return Some(block as u32),
        }
    }
    None
}
