//! How a file grows from the free blocks of its disk.
ghost use Rattle.std.specs.Prelude.{◌≡◌, ◌<◌, ◌+◌, ◌-◌, ◌^◌, ◌==◌, ◌++◌, IfOk, OnOk, Some, None, option_map, filter, length, map, slice_index_or, if◌then◌else◌};
ghost use Rattle.std.specs.Bool.{OnTrue};
ghost use Rattle.std.specs.List.{flat_map, list_any};
ghost use Rattle.flat_model.specs.vnode_files.Grow.{has_block, is_free, least_free, page_count, can_lengthen, with_longer_last, with_next_block, growth, extent_end};
ghost use Rattle.flat_model.specs.vnode_files.declared.extent.Extent.{Extent};
ghost use Rattle.flat_state.specs.Cells.{flat_file};
ghost use Rattle.flat_model.specs.Parts.{extents_beside};

use crate::files::FileState;
use flat_model::{Extent, MOST_EXTENTS};
use std::alloc::{AllocError, Global};

// The block after an extent.
fn extent_end(extent: &Extent) -> u64
    ensures { result ≡ extent_end extent.now }
{
    extent.start as u64 + extent.pages as u64
}

// Whether a block lies in an extent.
fn has_block(block: u64, extent: &Extent) -> bool
    ensures { result ≡ has_block block extent.now }
{
    extent.start as u64 <= block && block < extent_end(extent)
}

// Whether a block lies in one of the extents.
fn is_taken(block: u64, extents: &[Extent]) -> bool
    ensures { result ≡ list_any (has_block block) extents.now }
{
    extents.iter().any(|extent| has_block(block, extent))
}

// Whether a block of a disk is in no extent of its files.
fn is_free(blocks: u32, others: &[Extent], own: &[Extent], block: u64) -> bool
    ensures { result ≡ is_free blocks (others.now ++ own.now) block }
{
    block < blocks as u64 && !(is_taken(block, others) || is_taken(block, own))
}

// The least free block of a disk from block 1 on.
fn least_free(blocks: u32, others: &[Extent], own: &[Extent]) -> Option<u32>
    ensures { result ≡ least_free blocks (others.now ++ own.now) }
{
    for block in 1..blocks {
        if is_free(blocks, others, own, block as u64) {
            return Some(block);
        }
    }
    None
}

// Whether the block after the last extent is free.
fn can_lengthen(blocks: u32, others: &[Extent], own: &[Extent]) -> bool
    ensures exact { result ≡ can_lengthen blocks others.now own.now }
    ensures last { OnTrue result ((0 < length own.now)
        × ((d : Extent) → (slice_index_or own.now (length own.now - 1) d).pages + 1 < 2 ^ 32)) }
{
    match own.last() {
        Some(last) => is_free(blocks, others, own, extent_end(last)),
        None => false,
    }
}

// Makes the last extent one block longer.
fn lengthen_last(extents: &mut Vec<Extent>)
    requires some { 0 < length extents.old.items }
    requires fits { let last = length extents.old.items - 1 in
        (d : Extent) → (slice_index_or extents.old.items last d).pages + 1 < 2 ^ 32 }
    ensures { extents.new.items ≡ with_longer_last extents.old.items }
{
    let last = extents.len() - 1;
    extents[last].pages += 1;
}

// Adds a block to a file's extents. False where there is no block for it.
fn add_block(blocks: u32, others: &[Extent], own: &mut Vec<Extent>) -> Result<bool, AllocError>
    ensures { let grown = with_next_block blocks others.now own.old.items in
        IfOk result (λ added. grown ≡ (if added then Some own.new.items else None)) }
{
    if can_lengthen(blocks, others, own) {
        lengthen_last(own);
        return Ok(true);
    }
    if others.len() >= MOST_EXTENTS as usize - own.len().min(MOST_EXTENTS as usize) {
        return Ok(false);
    }
    let Some(start) = least_free(blocks, others, own) else {
        return Ok(false);
    };
    own.push(Extent { start, pages: 1 })?;
    Ok(true)
}

// How many pages these extents lack of so many.
fn missing(extents: &[Extent], pages: u64) -> u64
    ensures { result ≡ pages - page_count extents.now }
{
    let mut left = pages;
    for extent in extents {
        left = left.saturating_sub(extent.pages as u64);
    }
    left
}

/// The extents of a file that is to keep so many pages, on a disk of so many blocks. None where
/// there is no block for one of them. Each new block costs a look at the disk's extents, and a new
/// extent one at each block before its start.
pub(crate) fn growth(
    alloc: Global,
    blocks: u32,
    others: &[Extent],
    own: &[Extent],
    pages: u64,
) -> Result<Option<Vec<Extent>>, AllocError>
    ensures { let extents = growth blocks others.now own.now pages in
        IfOk result (λ grown. option_map (λ v. v.items) grown ≡ extents) }
{
    let mut grown = Vec::new(alloc);
    grown.extend_from_slice(own)?;
    for _added in 0..missing(own, pages) {
        if !add_block(blocks, others, &mut grown)? {
            return Ok(None);
        }
    }
    Ok(Some(grown))
}

// Appends the extents of those of the files that lie on a disk.
fn push_extents(all: &mut Vec<Extent>, files: &[FileState], disk: u32) -> Result<(), AllocError>
    ensures { let on = filter (λ f. f.disk == disk) (map flat_file files.now) in
        OnOk result (all.new.items ≡ all.old.items ++ flat_map (λ f. f.extents) on) }
{
    for file in files {
        if file.disk == disk {
            all.extend_from_slice(&file.extents)?;
        }
    }
    Ok(())
}

/// The extents on a disk of all files but one.
pub(crate) fn extents_beside(
    alloc: Global,
    files: &[FileState],
    file: u32,
    disk: u32,
) -> Result<Vec<Extent>, AllocError>
    requires { file < length files.now }
    ensures { let extents = extents_beside (map flat_file files.now) file disk in
        IfOk result (λ all. all.items ≡ extents) }
{
    let file = file as usize;
    let mut all = Vec::new(alloc);
    push_extents(&mut all, &files[..file], disk)?;
    push_extents(&mut all, &files[file + 1..], disk)?;
    Ok(all)
}
