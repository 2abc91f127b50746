//! The least place of a disk where blocks are free.
ghost use Rattle.std.specs.Prelude.{◌≡◌, ◌≤◌, ◌<◌, IfOk};
ghost use Rattle.std.specs.List.{list_any};
ghost use Rattle.volume_format.specs.vnode_files.Files.{extents_on};
ghost use Rattle.volume_format.specs.Place.{is_in_way};
ghost use Rattle.volume_files.specs.Opened.{is_free_run, place_for};

use std::alloc::{AllocError, Global};
use volume_format::{Extent, Files, MOST_EXTENTS};

// Whether one of extents has one of the blocks from `start` up to `end`.
fn is_any_in_way(extents: &[Extent], start: u64, end: u64) -> bool
    ensures { result ≡ list_any (is_in_way start end) extents.now }
{
    for extent in extents {
        let first = extent.start as u64;
        let past = first + extent.pages as u64;
        if first < end && start < past && first < past && start < end {
            return true;
        }
    }
    false
}

// Whether so many blocks from a block on lie on the disk and in no extent.
fn is_free_run(extents: &[Extent], blocks: u32, start: u32, pages: u32) -> bool
    requires { 1 ≤ pages }
    ensures { result ≡ is_free_run blocks extents.now pages start }
{
    let end = start as u64 + pages as u64;
    end <= blocks as u64 && !is_any_in_way(extents, start as u64, end)
}

/// The least block from block 1 on from which so many blocks are free, where the extents of the disk's files don't fill a table.
///
/// For each block of the disk it looks at each extent.
pub(crate) fn place_for(extents: &[Extent], blocks: u32, pages: u32) -> Option<u32>
    requires { 1 ≤ pages }
    ensures { result ≡ place_for blocks extents.now pages }
{
    if extents.len() >= MOST_EXTENTS as usize {
        return None;
    }
    for start in 1..blocks {
        if is_free_run(extents, blocks, start, pages) {
            return Some(start);
        }
    }
    None
}

/// The extents of the files of a disk.
pub(crate) fn extents_of(alloc: Global, files: &Files, disk: u32) -> Result<Vec<Extent>, AllocError>
    ensures { IfOk result (λ extents. extents.items ≡ extents_on disk files.now.files) }
{
    let mut extents = Vec::new(alloc);
    for file in 0..files.count() {
        let info = files.info(file);
        if info.disk == disk {
            extents.extend_from_slice(info.extents.list())?;
        }
    }
    Ok(extents)
}
