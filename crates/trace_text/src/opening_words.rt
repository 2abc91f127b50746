//! The lines of a trace's opening part by their words, read loosely.
ghost use Rattle.std.specs.Prelude.{◌≡◌, IfOk, map as over, option_map};
ghost use Rattle.std.specs.List.{slice_split};
ghost use Rattle.trace_text.specs.OpeningReading as reading;
ghost use Rattle.trace_text.specs.OpeningSeen.{opening_line_seen};

use crate::numbers::{bytes_in, long_number_in, number_in, offset_in};
use std::alloc::{AllocError, Global};

/// The line of a file. An extent is its first block and its number of blocks.
#[derive(Drop)]
pub struct FileHead {
    pub file: u32,
    pub name: Vec<u8>,
    pub writable: bool,
    pub disk: u32,
    pub len: u32,
    pub extents: Vec<(u32, u32)>,
}

/// A line of a trace before its entries: the swap slots, a disk with its blocks, a top process, a
/// file, bytes of that file from an offset on, or the number of entries.
#[derive(Drop)]
pub enum OpeningLine {
    Slots(u32),
    Disk(u32, u32),
    Root(u32),
    File(FileHead),
    Piece(u32, Vec<u8>),
    Entries(u64),
}

fn parts_at_plus(alloc: Global, word: &[u8]) -> Result<Vec<&[u8]>, AllocError>
    ensures { IfOk result (λ ws. over (λ w. w.now) ws.items
        ≡ slice_split reading.is_plus word.now) }
{
    word.split(|b| *b == b'+').collect(alloc)
}

fn parts_at_comma(alloc: Global, word: &[u8]) -> Result<Vec<&[u8]>, AllocError>
    ensures { IfOk result (λ ws. over (λ w. w.now) ws.items
        ≡ slice_split reading.is_comma word.now) }
{
    word.split(|b| *b == b',').collect(alloc)
}

#[tactic(auto, unfolding(crate::specs::OpeningReading::extent_parts))]
fn extent_parts(parts: &[&[u8]]) -> Option<(u32, u32)>
    ensures { result ≡ reading.extent_parts (over (λ w. w.now) parts.now) }
{
    let [start, pages] = parts else {
        return None;
    };
    let start = number_in(start)?;
    let pages = number_in(pages)?;
    Some((start, pages))
}

#[tactic(auto, unfolding(crate::specs::OpeningReading::extent_in))]
fn extent_in(alloc: Global, word: &[u8]) -> Result<Option<(u32, u32)>, AllocError>
    ensures { IfOk result (λ x. x ≡ reading.extent_in word.now) }
{
    let parts = parts_at_plus(alloc, word)?;
    Ok(extent_parts(&parts))
}

#[tactic(auto, using(crate::proofs::Extents::nothing_read, crate::proofs::Extents::none_read))]
fn extents_of_parts(alloc: Global, parts: &[&[u8]]) -> Result<Option<Vec<(u32, u32)>>, AllocError>
    ensures { IfOk result (λ xs. option_map (λ v. v.items) xs
        ≡ reading.extents_of_parts (over (λ w. w.now) parts.now)) }
{
    let mut extents = Vec::new(alloc);
    let mut left = parts;
    while let [part, rest @ ..] = left {
        let Some(extent) = extent_in(alloc, part)? else {
            return Ok(None);
        };
        extents.push(extent)?;
        left = rest;
    }
    Ok(Some(extents))
}

#[tactic(auto, using(crate::proofs::Extents::none_extents, crate::proofs::Extents::some_extents))]
fn extents_in(alloc: Global, word: &[u8]) -> Result<Option<Vec<(u32, u32)>>, AllocError>
    ensures { IfOk result (λ xs. option_map (λ v. v.items) xs ≡ reading.extents_in word.now) }
{
    if word.is_empty() {
        return Ok(Some(Vec::new(alloc)));
    }
    let parts = parts_at_comma(alloc, word)?;
    extents_of_parts(alloc, &parts)
}

#[tactic(auto, unfolding(crate::specs::OpeningReading::mode_of_word))]
fn mode_of_word(word: &[u8]) -> Option<bool>
    ensures { result ≡ reading.mode_of_word word.now }
{
    if word == b"rw".as_slice() {
        return Some(true);
    }
    if word == b"ro".as_slice() {
        return Some(false);
    }
    None
}

#[tactic(auto, unfolding(crate::specs::OpeningReading::piece_in))]
fn piece_in(alloc: Global, word: &[u8], next: &[u8]) -> Result<Option<OpeningLine>, AllocError>
    ensures { IfOk result (λ l. option_map opening_line_seen l
        ≡ reading.piece_in word.now next.now) }
{
    let Some(offset) = offset_in(word) else {
        return Ok(None);
    };
    let Some(bytes) = bytes_in(next) else {
        return Ok(None);
    };
    let bytes = Vec::from_slice(alloc, bytes.bytes())?;
    Ok(Some(OpeningLine::Piece(offset, bytes)))
}

#[tactic(auto, unfolding(crate::specs::OpeningReading::root_in))]
fn root_in(next: &[u8]) -> Option<OpeningLine>
    ensures { option_map opening_line_seen result ≡ reading.root_in next.now }
{
    let process = number_in(next)?;
    Some(OpeningLine::Root(process))
}

#[tactic(auto, unfolding(crate::specs::OpeningReading::count_in))]
fn count_in(next: &[u8]) -> Option<OpeningLine>
    ensures { option_map opening_line_seen result ≡ reading.count_in next.now }
{
    let count = long_number_in(next)?;
    Some(OpeningLine::Entries(count))
}

#[tactic(auto, unfolding(crate::specs::OpeningReading::pair_in))]
fn pair_in(alloc: Global, word: &[u8], next: &[u8]) -> Result<Option<OpeningLine>, AllocError>
    ensures { IfOk result (λ l. option_map opening_line_seen l
        ≡ reading.pair_in word.now next.now) }
{
    if word.len() == 8 {
        return piece_in(alloc, word, next);
    }
    if word == b"root".as_slice() {
        return Ok(root_in(next));
    }
    Ok(count_in(next))
}

#[tactic(auto, unfolding(crate::specs::OpeningReading::disk_line_in))]
fn disk_line_in(next: &[u8], last: &[u8]) -> Option<OpeningLine>
    ensures { option_map opening_line_seen result ≡ reading.disk_line_in next.now last.now }
{
    let disk = number_in(next)?;
    let blocks = number_in(last)?;
    Some(OpeningLine::Disk(disk, blocks))
}

#[tactic(auto, unfolding(crate::specs::OpeningReading::slots_in))]
fn slots_in(last: &[u8]) -> Option<OpeningLine>
    ensures { option_map opening_line_seen result ≡ reading.slots_in last.now }
{
    let slots = number_in(last)?;
    Some(OpeningLine::Slots(slots))
}

#[tactic(auto, unfolding(crate::specs::OpeningReading::triple_in))]
fn triple_in(word: &[u8], next: &[u8], last: &[u8]) -> Option<OpeningLine>
    ensures { option_map opening_line_seen result
        ≡ reading.triple_in word.now next.now last.now }
{
    if word == b"trace".as_slice() {
        return slots_in(last);
    }
    disk_line_in(next, last)
}

#[tactic(auto, unfolding(crate::specs::OpeningReading::head_in))]
fn head_in(
    alloc: Global,
    file: &[u8],
    name: &[u8],
    mode: &[u8],
    disk: &[u8],
    len: &[u8],
    extents: &[u8],
) -> Result<Option<OpeningLine>, AllocError>
    ensures { IfOk result (λ l. option_map opening_line_seen l
        ≡ reading.head_in file.now name.now mode.now disk.now len.now extents.now) }
{
    let Some(file) = number_in(file) else {
        return Ok(None);
    };
    let Some(writable) = mode_of_word(mode) else {
        return Ok(None);
    };
    let Some(disk) = number_in(disk) else {
        return Ok(None);
    };
    let Some(len) = number_in(len) else {
        return Ok(None);
    };
    let Some(extents) = extents_in(alloc, extents)? else {
        return Ok(None);
    };
    let name = Vec::from_slice(alloc, name)?;
    let head = FileHead {
        file,
        name,
        writable,
        disk,
        len,
        extents,
    };
    Ok(Some(OpeningLine::File(head)))
}

/// The line that these words tell.
#[tactic(auto, unfolding(crate::specs::OpeningReading::opening_in))]
pub fn opening_in(alloc: Global, words: &[&[u8]]) -> Result<Option<OpeningLine>, AllocError>
    ensures { IfOk result (λ l. option_map opening_line_seen l
        ≡ reading.opening_in (over (λ w. w.now) words.now)) }
{
    match words {
        [word, next] => pair_in(alloc, word, next),
        [word, next, last] => Ok(triple_in(word, next, last)),
        [_, file, name, mode, disk, len, extents] => {
            head_in(alloc, file, name, mode, disk, len, extents)
        }
        _ => Ok(None),
    }
}
