//! Pages of files and zero objects that are put in the place of old ones.
ghost use Rattle.std.specs.Prelude.{◌≡◌, ℕ, [], OnOk, OnErr, IfOk, slice_set, unwrap_or};
ghost use Rattle.std.specs.FinMap as finite;
ghost use Rattle.flat_model.specs.vm_types.Words.{IsWordSize, FitsWord, word_bytes};
ghost use Rattle.flat_model.specs.Words.{word_put, with_bytes};
ghost use Rattle.flat_state.specs.Cells.{pages_in_vec, zeros_in};

use crate::object_pages::ObjectPages;
use crate::page_bytes::PageBytes;
use flat_model::word_bytes;
use std::alloc::{AllocError, Global};
use std::collections::BTreeMap;

/// Puts a page at an index, where there is one.
pub(crate) fn set_page(pages: &mut Vec<Vec<u8>>, index: u32, page: Vec<u8>)
    ensures { pages_in_vec pages.new ≡ slice_set (pages_in_vec pages.old) index page.items }
{
    if (index as usize) < pages.len() {
        pages[index as usize] = page;
    }
}

/// Puts a page at an index of a zero object, where it has such an index. One that isn't there becomes one with no pages.
pub(crate) fn set_zero_page(
    zeros: &mut BTreeMap<u32, ObjectPages>,
    alloc: Global,
    zero: u32,
    index: u32,
    page: PageBytes,
) -> Result<(), AllocError>
    ensures ok { let old = unwrap_or (finite.get (zeros_in zeros.old) zero) [] in
        let new = slice_set old index page in
        OnOk result (zeros_in zeros.new ≡ finite.insert (zeros_in zeros.old) zero new) }
    ensures err { OnErr result (zeros_in zeros.new ≡ zeros_in zeros.old) }
{
    if !zeros.contains_key(&zero) {
        zeros.insert(zero, ObjectPages::new(alloc, 0))?;
        return Ok(());
    }
    let Some(pages) = zeros.get_mut(&zero) else {
        return Ok(());
    };
    pages.set(index as u64, page)
}

/// The bytes with some put in from a place on, over those that are there.
pub(crate) fn with_bytes(
    alloc: Global,
    old: &[u8],
    at: usize,
    bytes: &[u8],
) -> Result<Vec<u8>, AllocError>
    requires { at < 2 ^ 32 }
    ensures { IfOk result (λ new. new.items ≡ with_bytes old.now at bytes.now) }
{
    let mut new = Vec::new(alloc);
    new.extend_from_slice(&old[..at.min(old.len())])?;
    new.extend_from_slice(bytes)?;
    new.extend_from_slice(&old[(at + bytes.len()).min(old.len())..])?;
    Ok(new)
}

/// A page with a word of 1, 2 or 4 bytes put at an address.
pub(crate) fn with_word(
    alloc: Global,
    page: &[u8],
    addr: u32,
    size: u32,
    value: u32,
) -> Result<Vec<u8>, AllocError>
    requires size { IsWordSize size }
    requires fits { FitsWord size value }
    ensures { IfOk result (λ new. new.items ≡ word_put page.now addr size value) }
{
    with_bytes(
        alloc,
        page,
        (addr % 4096) as usize,
        word_bytes(size, value).bytes(),
    )
}

ghost use Rattle.std.specs.Prelude.{◌<◌, ◌^◌};
