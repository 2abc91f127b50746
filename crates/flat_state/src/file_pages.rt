//! The pages of a file, changed in place: each call costs the pages that it touches.
ghost use Rattle.std.specs.Prelude.{◌≡◌, ◌≤◌, ◌+◌, ◌*◌, ◌-◌, ◌%◌, ◌++◌, IfOk, OnOk, OnErr, All, [], slice_index_or, min, length, take, drop, replicate};
ghost use Rattle.std.specs.List.{concat};
ghost use Rattle.flat_model.specs.vm_types.Pages.{line_rest};
ghost use Rattle.flat_model.specs.Words.{IsPage, page_size, pages_in, zero_page, with_bytes};
ghost use Rattle.flat_state.specs.Cells.{pages_in_vec, pages_of_length};
ghost use Rattle.flat_model.specs.Parts.{pages_of_bytes, pages_with_bytes};

use crate::zeros::zero_pages;
use flat_model::{Line, line_rest};
use std::alloc::{AllocError, Global};

/// How many pages a length takes.
pub(crate) fn pages_in(len: u64) -> u64
    ensures count { result ≡ pages_in len }
    ensures few { result ≤ len }
{
    len / 4096 + (len % 4096 != 0) as u64
}

// Puts bytes over those of a page from a place on.
fn put_bytes(page: &mut Vec<u8>, at: usize, bytes: &[u8])
    requires { at + length bytes.now ≤ length page.old.items }
    ensures { page.new.items ≡ with_bytes page.old.items at bytes.now }
{
    let end = at + bytes.len();
    page[at..end].copy_from_slice(bytes);
}

// Puts zeros over so many bytes of a page from a place on.
fn put_zeros(page: &mut Vec<u8>, at: usize, count: usize)
    requires { at + count ≤ length page.old.items }
    ensures { page.new.items ≡ with_bytes page.old.items at (replicate count 0) }
{
    let end = at + count;
    page[at..end].fill(0);
}

/// Puts bytes that lie in one page over those of the pages.
pub(crate) fn put(pages: &mut Vec<Vec<u8>>, at: u64, bytes: &[u8])
    requires whole { All IsPage (pages_in_vec pages.old) }
    requires one_page { at % page_size + length bytes.now ≤ page_size }
    requires inside { at + length bytes.now ≤ page_size * length pages.old.items }
    ensures { pages_in_vec pages.new ≡ pages_with_bytes (pages_in_vec pages.old) at bytes.now }
{
    if bytes.len() != 0 {
        put_bytes(
            &mut pages[(at / 4096) as usize],
            (at % 4096) as usize,
            bytes,
        );
    }
}

/// Puts zeros over so many bytes of the pages, which lie in one page.
pub(crate) fn clear(pages: &mut Vec<Vec<u8>>, at: u64, count: u64)
    requires whole { All IsPage (pages_in_vec pages.old) }
    requires one_page { at % page_size + count ≤ page_size }
    requires inside { at + count ≤ page_size * length pages.old.items }
    ensures { let zeros = replicate count 0 in
        pages_in_vec pages.new ≡ pages_with_bytes (pages_in_vec pages.old) at zeros }
{
    if count != 0 {
        put_zeros(
            &mut pages[(at / 4096) as usize],
            (at % 4096) as usize,
            count as usize,
        );
    }
}

/// The pages of a file of so many bytes that gets more: pages of zeros as far as it needs them, and
/// zeros from the old end on. Takes time and memory for the new pages.
pub(crate) fn lengthen(
    pages: &mut Vec<Vec<u8>>,
    alloc: Global,
    len: u64,
    end: u64,
) -> Result<(), AllocError>
    requires whole { All IsPage (pages_in_vec pages.old) }
    requires count { length pages.old.items ≡ pages_in len }
    ensures ok { let more = pages_in end - length pages.old.items in
        let grown = pages_in_vec pages.old ++ replicate more zero_page in
        OnOk result (pages_in_vec pages.new ≡ pages_with_bytes grown len (replicate (end - len) 0)) }
    ensures err { OnErr result (pages_in_vec pages.new ≡ pages_in_vec pages.old) }
{
    let missing = pages_in(end).saturating_sub(pages.len() as u64);
    let mut more = zero_pages(alloc, missing)?;
    pages.append(&mut more)?;
    clear(pages, len, end.saturating_sub(len).min(tail_of(len)));
    Ok(())
}

// How many bytes there are between the end of a file and the end of its last page.
fn tail_of(len: u64) -> u64
    ensures { len + result ≡ page_size * pages_in len }
{
    (4096 - len % 4096) % 4096
}

/// The tail of a file of so many bytes becomes zeros.
pub(crate) fn clear_tail(pages: &mut Vec<Vec<u8>>, len: u64)
    requires whole { All IsPage (pages_in_vec pages.old) }
    requires count { length pages.old.items ≡ pages_in len }
    ensures { let tail = replicate (page_size * length pages.old.items - len) 0 in
        pages_in_vec pages.new ≡ pages_with_bytes (pages_in_vec pages.old) len tail }
{
    clear(pages, len, tail_of(len));
}

// The page of some bytes from a place on, with zeros behind them where they are fewer.
fn page_from(alloc: Global, bytes: &[u8], at: usize) -> Result<Vec<u8>, AllocError>
    requires { at ≤ length bytes.now }
    ensures { let rest = drop at bytes.now in
        let zeros = replicate (page_size - length rest) 0 in
        IfOk result (λ page. page.items ≡ take page_size (rest ++ zeros)) }
{
    let rest = &bytes[at..];
    let mut page = Vec::with_capacity(alloc, 4096)?;
    page.extend_from_slice(&rest[..rest.len().min(4096)])?;
    page.resize(4096, 0)?;
    Ok(page)
}

/// The pages that bytes fill, with zeros up to the end of the last one.
pub(crate) fn pages_from(alloc: Global, bytes: &[u8]) -> Result<Vec<Vec<u8>>, AllocError>
    ensures { let count = pages_in (length bytes.now) in
        let whole = bytes.now ++ replicate (page_size * count - length bytes.now) 0 in
        IfOk result (λ pages. pages_in_vec pages ≡ pages_of_bytes count whole) }
{
    let mut pages = Vec::new(alloc);
    for i in 0..pages_in(bytes.len() as u64) {
        pages.push(page_from(alloc, bytes, 4096 * i as usize)?)?;
    }
    Ok(pages)
}

// The pages of a file that gets so many bytes, for which it has pages enough: those behind them go,
// and its tail becomes zeros.
fn shorten(pages: &mut Vec<Vec<u8>>, new: u64)
    requires whole { All IsPage (pages_in_vec pages.old) }
    requires enough { pages_in new ≤ length pages.old.items }
    ensures { let kept = take (pages_in new) (pages_in_vec pages.old) in
        let tail = replicate (page_size * length kept - new) 0 in
        pages_in_vec pages.new ≡ pages_with_bytes kept new tail }
{
    pages.truncate(pages_in(new) as usize);
    clear_tail(pages, new);
}

/// The pages of a file of so many bytes that gets another length. Takes time and memory for new
/// pages, and time for those that go.
pub(crate) fn resize(
    pages: &mut Vec<Vec<u8>>,
    alloc: Global,
    len: u64,
    new: u64,
) -> Result<(), AllocError>
    requires whole { All IsPage (pages_in_vec pages.old) }
    requires count { length pages.old.items ≡ pages_in len }
    ensures ok { let resized = pages_of_length len new (pages_in_vec pages.old) in
        OnOk result (pages_in_vec pages.new ≡ resized) }
    ensures err { OnErr result (pages_in_vec pages.new ≡ pages_in_vec pages.old) }
{
    if len < new {
        return lengthen(pages, alloc, len, new);
    }
    if new < len {
        shorten(pages, new);
    }
    Ok(())
}

/// A copy of the last page, empty where there is none.
pub(crate) fn last_page(alloc: Global, pages: &Vec<Vec<u8>>) -> Result<Vec<u8>, AllocError>
    ensures { let last = slice_index_or (pages_in_vec pages.now) (length pages.now.items - 1) [] in
        IfOk result (λ page. page.items ≡ last) }
{
    let mut page = Vec::new(alloc);
    let count = pages.len();
    if count == 0 {
        return Ok(page);
    }
    page.extend_from_slice(&pages[count - 1])?;
    Ok(page)
}

/// The bytes of a part of a read of a file of so many bytes: none past the line's end or the file's.
pub(crate) fn line_at(pages: &Vec<Vec<u8>>, len: u64, offset: u32, asked: u32) -> Line
    requires whole { All IsPage (pages_in_vec pages.now) }
    requires count { length pages.now.items ≡ pages_in len }
    ensures { let bytes = take len (concat (pages_in_vec pages.now)) in
        result ≡ take (min asked (line_rest offset)) (drop offset bytes) }
{
    let left = len.saturating_sub(offset as u64);
    if left == 0 {
        return Line::new(&[]);
    }
    let count = (asked.min(line_rest(offset)) as u64).min(left) as usize;
    piece(
        &pages[(offset / 4096) as usize],
        (offset % 4096) as usize,
        count,
    )
}

// So many bytes of a page from a place on.
fn piece(page: &[u8], at: usize, count: usize) -> Line
    requires inside { at + count ≤ length page.now }
    requires short { count ≤ 64 }
    ensures { result ≡ take count (drop at page.now) }
{
    let end = at + count;
    Line::new(&page[at..end])
}
