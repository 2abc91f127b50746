//! The rules of block 0, tested in order.
ghost use Rattle.std.specs.Prelude.{◌≡◌, ◌≢◌, ◌<◌, ◌≤◌, ◌+◌, ◌-◌, ◌*◌, ◌^◌, ◌++◌, length, map, nat_le};
ghost use Rattle.std.specs.List.{flat_map, list_all, list_any, range_with_len};
ghost use Rattle.vnode_files.specs.Grow.{page_count};
ghost use Rattle.volume_format.specs.Layout.{are_same, number_at, version, file_count, entry_start, name_field, text_before_zero, name_of_file, own_extent, table_extent, first_extent, extents_number, extent_count};
ghost use Rattle.volume_format.specs.Rules.{first_failed, is_table_name_byte, is_name_field, is_on_disk, do_meet, header_tests, name_tests, header_tests_1, header_tests_2, entry_tests_1, entry_tests_2, extent_tests, extent_tests_1, extents_test, last_tests_1, last_tests_2, extents_before, end_tests_1, end_tests_2, file_tests_1, file_tests_2, tests};

use crate::bytes::{are_same, are_zeros, number_at};
use vnode_files::Extent;

/// The first rule of the grammar that a block breaks.
#[derive(Clone, Copy, PartialEq, Eq, Debug)]
pub struct BadVolume {
    /// The rule's number.
    pub rule: u32,
}

// Whether a byte may stand in a name.
#[tactic(auto, unfolding(crate::specs::Rules::is_table_name_byte))]
fn is_table_name_byte(b: u8) -> bool
    ensures { result ≡ is_table_name_byte b }
{
    matches!(b, b'a'..=b'z' | b'0'..=b'9' | b'_' | b'.' | b'-')
}

// The bytes of a field before the first zero.
pub(crate) fn text_before_zero(field: &[u8]) -> &[u8]
    ensures { result.now ≡ text_before_zero field.now }
{
    for (i, b) in field.iter().enumerate() {
        if *b == 0 {
            return &field[..i];
        }
    }
    field
}

// Whether all bytes may stand in a name.
fn are_name_bytes(bytes: &[u8]) -> bool
    ensures { result ≡ list_all is_table_name_byte bytes.now }
{
    bytes.iter().all(|b| is_table_name_byte(*b))
}

// Whether a field is a name with zeros behind it.
fn is_name_field(field: &[u8]) -> bool
    ensures { result ≡ is_name_field field.now }
{
    let name = text_before_zero(field);
    !name.is_empty()
        && are_name_bytes(name)
        && are_zeros(&field[name.len()..])
        && !are_same(name, b"zero")
}

// The field of a file's name.
pub(crate) fn name_field(block: &[u8], i: u32) -> &[u8]
    requires whole { length block.now ≡ 4096 }
    requires there { i < 64 }
    ensures { result.now ≡ name_field block.now i }
{
    let at = 32 + 32 * i as usize;
    &block[at..at + 16]
}

// A number of a file's entry, at so many bytes from its beginning.
pub(crate) fn entry_number(block: &[u8], i: u32, at: usize) -> u32
    requires whole { length block.now ≡ 4096 }
    requires there { i < 64 }
    requires within { at + 4 ≤ 32 }
    ensures { result ≡ number_at block.now (entry_start i + at) }
{
    number_at(block, 32 + 32 * i as usize + at)
}

// An extent of the table.
pub(crate) fn table_extent(block: &[u8], j: u32) -> Extent
    requires whole { length block.now ≡ 4096 }
    requires there { j < 252 }
    ensures { result ≡ table_extent block.now j }
{
    let at = 2080 + 8 * j as usize;
    Extent {
        start: number_at(block, at),
        pages: number_at(block, at + 4),
    }
}

// The one extent of a file in a block of version 1.
pub(crate) fn own_extent(block: &[u8], i: u32) -> Extent
    requires whole { length block.now ≡ 4096 }
    requires there { i < 64 }
    ensures { result ≡ own_extent block.now i }
{
    Extent {
        start: entry_number(block, i, 20),
        pages: entry_number(block, i, 24),
    }
}

// Whether two extents have a block in common.
fn do_meet(e: Extent, f: Extent) -> bool
    ensures { result ≡ do_meet e f }
{
    (e.start as u64) < f.start as u64 + f.pages as u64
        && (f.start as u64) < e.start as u64 + e.pages as u64
}

// Whether an extent has a block, and its blocks lie on a disk of so many blocks, past block 0.
fn is_on_disk(blocks: u32, e: Extent) -> bool
    ensures { result ≡ is_on_disk blocks e }
{
    let end = e.start as u64 + e.pages as u64;
    e.start != 0 && e.pages != 0 && end <= blocks as u64
}

// The rules of the header that both versions have.
fn failed_in_header(block: &[u8], blocks: u32) -> Option<u32>
    requires { length block.now ≡ 4096 }
    ensures { result ≡ first_failed (header_tests block.now blocks) }
{
    if !are_same(&block[0..8], b"SUNVMVOL") {
        return Some(1);
    }
    let version = number_at(block, 8);
    if version != 1 && version != 2 {
        return Some(2);
    }
    if number_at(block, 12) != blocks {
        return Some(3);
    }
    if number_at(block, 16) > 64 {
        return Some(4);
    }
    None
}

// The rules of an entry's name and mode.
fn failed_in_name(block: &[u8], i: u32) -> Option<u32>
    requires whole { length block.now ≡ 4096 }
    requires there { i < 64 }
    ensures { result ≡ first_failed (name_tests block.now i) }
{
    if !is_name_field(name_field(block, i)) {
        return Some(6);
    }
    if entry_number(block, i, 28) > 1 {
        return Some(7);
    }
    None
}

// Whether a file before file i has its name.
fn is_name_taken(block: &[u8], i: u32) -> bool
    requires whole { length block.now ≡ 4096 }
    requires there { i < 64 }
    ensures { result
        ≡ list_any (λ k. are_same (name_of_file block.now k) (name_of_file block.now i))
        (range_with_len 0 i) }
{
    let name = text_before_zero(name_field(block, i));
    for k in 0..i {
        if are_same(text_before_zero(name_field(block, k)), name) {
            return true;
        }
    }
    false
}

// Whether an extent meets one before it in the table.
fn meets_before(block: &[u8], j: u32) -> bool
    requires whole { length block.now ≡ 4096 }
    requires there { j < 252 }
    ensures { result
        ≡ list_any (λ k. do_meet (table_extent block.now k) (table_extent block.now j))
        (range_with_len 0 j) }
{
    let extent = table_extent(block, j);
    for k in 0..j {
        if do_meet(table_extent(block, k), extent) {
            return true;
        }
    }
    false
}

// Whether a file's length is at most the bytes of its pages.
fn fits(bytes: u32, pages: u64) -> bool
    requires { pages < 2 ^ 41 }
    ensures { result ≡ nat_le bytes (pages * 4096) }
{
    bytes as u64 <= pages * 4096
}

// The rules of a file's extent in its entry.
fn failed_in_own_extent(block: &[u8], blocks: u32, i: u32) -> Option<u32>
    requires whole { length block.now ≡ 4096 }
    requires there { i < 64 }
    ensures { result ≡ first_failed (extent_tests_1 block.now blocks i) }
{
    if !is_on_disk(blocks, own_extent(block, i)) {
        return Some(8);
    }
    None
}

// The last rules of an entry of version 1.
fn failed_in_last_1(block: &[u8], i: u32) -> Option<u32>
    requires whole { length block.now ≡ 4096 }
    requires first { version block.now ≡ 1 }
    requires there { i < 64 }
    ensures { result ≡ first_failed (last_tests_1 block.now i) }
{
    let extent = own_extent(block, i);
    if !fits(entry_number(block, i, 16), extent.pages as u64) {
        return Some(9);
    }
    if i > 0 {
        let before = own_extent(block, i - 1);
        if (extent.start as u64) < before.start as u64 + before.pages as u64 {
            return Some(10);
        }
    }
    if is_name_taken(block, i) {
        return Some(11);
    }
    None
}

// The rules of an entry of version 1.
#[tactic(auto, unfolding(crate::specs::Rules::entry_tests_1))]
fn failed_in_entry_1(block: &[u8], blocks: u32, i: u32) -> Option<u32>
    requires whole { length block.now ≡ 4096 }
    requires first { version block.now ≡ 1 }
    requires there { i < 64 }
    ensures { result ≡ first_failed (entry_tests_1 block.now blocks i) }
{
    if let Some(rule) = failed_in_name(block, i) {
        return Some(rule);
    }
    if let Some(rule) = failed_in_own_extent(block, blocks, i) {
        return Some(rule);
    }
    failed_in_last_1(block, i)
}

// The rule of what follows the entries of version 1.
fn failed_at_end_1(block: &[u8]) -> Option<u32>
    requires whole { length block.now ≡ 4096 }
    requires few { file_count block.now ≤ 64 }
    ensures { result ≡ first_failed (end_tests_1 block.now) }
{
    let count = number_at(block, 16);
    if !are_zeros(&block[32 + 32 * count as usize..4096]) {
        return Some(12);
    }
    None
}

// The rules of the entries of version 1, and of what follows them.
fn failed_in_files_1(block: &[u8], blocks: u32) -> Option<u32>
    requires whole { length block.now ≡ 4096 }
    requires first { version block.now ≡ 1 }
    requires few { file_count block.now ≤ 64 }
    ensures { result ≡ first_failed (file_tests_1 block.now blocks) }
{
    for i in 0..number_at(block, 16) {
        if let Some(rule) = failed_in_entry_1(block, blocks, i) {
            return Some(rule);
        }
    }
    failed_at_end_1(block)
}

// The rules of a block of version 1, but for the header's first.
fn failed_in_1(block: &[u8], blocks: u32) -> Option<u32>
    requires whole { length block.now ≡ 4096 }
    requires first { version block.now ≡ 1 }
    requires few { file_count block.now ≤ 64 }
    ensures { result ≡ first_failed (header_tests_1 block.now ++ file_tests_1 block.now blocks) }
{
    if !are_zeros(&block[20..32]) {
        return Some(5);
    }
    failed_in_files_1(block, blocks)
}

// The rules of an extent of file i at place j of the table.
fn failed_in_extent(block: &[u8], blocks: u32, i: u32, j: u32) -> Option<u32>
    requires whole { length block.now ≡ 4096 }
    requires there { i < 64 }
    requires within { j < 252 }
    requires after { first_extent block.now i ≤ j }
    ensures { result ≡ first_failed (extent_tests block.now blocks i j) }
{
    let extent = table_extent(block, j);
    if !is_on_disk(blocks, extent) {
        return Some(16);
    }
    if meets_before(block, j) {
        return Some(17);
    }
    if j > entry_number(block, i, 20) {
        let before = table_extent(block, j - 1);
        if before.start as u64 + before.pages as u64 == extent.start as u64 {
            return Some(18);
        }
    }
    None
}

// The rules of the extents of file i; they are from place `first` of the table up to place `end`.
fn failed_in_extents(block: &[u8], blocks: u32, i: u32) -> Option<u32>
    requires whole { length block.now ≡ 4096 }
    requires there { i < 64 }
    requires within { first_extent block.now i + extents_number block.now i ≤ 252 }
    ensures { result
        ≡ first_failed (flat_map (extent_tests block.now blocks i)
        (range_with_len (first_extent block.now i) (extents_number block.now i))) }
{
    let first = entry_number(block, i, 20);
    let end = first + entry_number(block, i, 24);
    for j in first..end {
        if let Some(rule) = failed_in_extent(block, blocks, i, j) {
            return Some(rule);
        }
    }
    None
}

// The pages of the extents of file i.
fn pages_of_file(block: &[u8], i: u32) -> u64
    requires whole { length block.now ≡ 4096 }
    requires there { i < 64 }
    requires within { first_extent block.now i + extents_number block.now i ≤ 252 }
    ensures pages { result
        ≡ page_count (map (table_extent block.now)
        (range_with_len (first_extent block.now i) (extents_number block.now i))) }
    ensures few { result < 2 ^ 41 }
{
    let first = entry_number(block, i, 20);
    let end = first + entry_number(block, i, 24);
    let mut pages: u64 = 0;
    for j in first..end {
        pages += table_extent(block, j).pages as u64;
    }
    pages
}

// The last rules of an entry of version 2.
fn failed_in_last_2(block: &[u8], i: u32) -> Option<u32>
    requires whole { length block.now ≡ 4096 }
    requires second { version block.now ≡ 2 }
    requires there { i < 64 }
    requires within { first_extent block.now i + extents_number block.now i ≤ 252 }
    requires here { first_extent block.now i < 252 }
    requires earlier { i ≢ 0 → first_extent block.now (i - 1) < 252 }

    // Its length, its place among the files and its name.
    ensures { result ≡ first_failed (last_tests_2 block.now i) }
{
    if !fits(entry_number(block, i, 16), pages_of_file(block, i)) {
        return Some(9);
    }
    if i > 0 {
        let before = table_extent(block, entry_number(block, i - 1, 20));
        let extent = table_extent(block, entry_number(block, i, 20));
        if before.start >= extent.start {
            return Some(10);
        }
    }
    if is_name_taken(block, i) {
        return Some(11);
    }
    None
}

// Whether the extents of a file are the next of the table, before which the files have so many.
fn has_next_extents(block: &[u8], i: u32, before: u32) -> bool
    requires whole { length block.now ≡ 4096 }
    requires there { i < 64 }
    requires before { before ≡ extents_before block.now i }
    ensures { result ≡ (extents_test block.now i).holds }
{
    let first = entry_number(block, i, 20);
    let number = entry_number(block, i, 24);
    first == before && number != 0 && first as u64 + number as u64 <= number_at(block, 20) as u64
}

// The rules of an entry of version 2, before which the files have so many extents.
fn failed_in_entry_2(block: &[u8], blocks: u32, i: u32, before: u32) -> Option<u32>
    requires whole { length block.now ≡ 4096 }
    requires second { version block.now ≡ 2 }
    requires there { i < 64 }
    requires before { before ≡ extents_before block.now i }
    requires few { extent_count block.now ≤ 252 }
    requires earlier { i ≢ 0 → first_extent block.now (i - 1) < 252 }

    // The entry and its extents.
    ensures { result ≡ first_failed (entry_tests_2 block.now blocks i) }
{
    if let Some(rule) = failed_in_name(block, i) {
        return Some(rule);
    }
    if !has_next_extents(block, i, before) {
        return Some(15);
    }
    if let Some(rule) = failed_in_extents(block, blocks, i) {
        return Some(rule);
    }
    failed_in_last_2(block, i)
}

// The rules of what follows the entries of version 2, which have so many extents.
fn failed_at_end_2(block: &[u8], all: u32) -> Option<u32>
    requires whole { length block.now ≡ 4096 }
    requires few { file_count block.now ≤ 64 }
    requires extents { extent_count block.now ≤ 252 }
    requires all { all ≡ extents_before block.now (file_count block.now) }
    ensures { result ≡ first_failed (end_tests_2 block.now) }
{
    let count = number_at(block, 16);
    let extents = number_at(block, 20);
    if all != extents {
        return Some(19);
    }
    if !are_zeros(&block[32 + 32 * count as usize..2080])
        || !are_zeros(&block[2080 + 8 * extents as usize..4096])
    {
        return Some(12);
    }
    None
}

// The rules of the entries of version 2, and of what follows them.
fn failed_in_files_2(block: &[u8], blocks: u32) -> Option<u32>
    requires whole { length block.now ≡ 4096 }
    requires second { version block.now ≡ 2 }
    requires few { file_count block.now ≤ 64 }
    requires extents { extent_count block.now ≤ 252 }
    ensures { result ≡ first_failed (file_tests_2 block.now blocks) }
{
    let mut before = 0;
    for i in 0..number_at(block, 16) {
        if let Some(rule) = failed_in_entry_2(block, blocks, i, before) {
            return Some(rule);
        }
        before += entry_number(block, i, 24);
    }
    failed_at_end_2(block, before)
}

// The rules of a block of version 2, but for the header's first.
fn failed_in_2(block: &[u8], blocks: u32) -> Option<u32>
    requires whole { length block.now ≡ 4096 }
    requires second { version block.now ≡ 2 }
    requires few { file_count block.now ≤ 64 }
    ensures { result ≡ first_failed (header_tests_2 block.now ++ file_tests_2 block.now blocks) }
{
    if number_at(block, 20) > 252 {
        return Some(14);
    }
    if !are_zeros(&block[24..32]) {
        return Some(5);
    }
    failed_in_files_2(block, blocks)
}

// The first rule that a block for a disk of so many blocks breaks.
#[tactic(auto, unfolding(crate::specs::Rules::tests))]
pub(crate) fn failed_rule(block: &[u8], blocks: u32) -> Option<u32>
    requires { length block.now ≡ 4096 }
    ensures { result ≡ first_failed (tests block.now blocks) }
{
    if let Some(rule) = failed_in_header(block, blocks) {
        return Some(rule);
    }
    if number_at(block, 8) == 1 {
        failed_in_1(block, blocks)
    } else {
        failed_in_2(block, blocks)
    }
}
