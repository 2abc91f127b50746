//! The zero objects, and who was ever alive.
ghost use Rattle.std.specs.Prelude.{◌≡◌, IfOk, length, map, replicate, sum_by};
ghost use Rattle.std.specs.BTreeMap.{values, IsOrdered};
ghost use Rattle.std.specs.Ordering.{nat_cmp};
ghost use Rattle.std.specs.FinMap as finite;
ghost use Rattle.flat_model.specs.Words.{zero_page};
ghost use Rattle.flat_state.specs.Cells.{zeros_in};
ghost use Rattle.flat_state.specs.Mapped.{with_new_zeros, slots_left};
ghost use Rattle.flat_model.specs.Spaces.{names_zero};

use crate::object_pages::ObjectPages;
use crate::spaces::Spaces;
use std::alloc::{AllocError, Global};
use std::collections::BTreeMap;

/// The zero objects that no cell names go. Takes no memory.
pub(crate) fn keep_named(zeros: &mut BTreeMap<u32, ObjectPages>, spaces: &Spaces)
    ensures { let kept = finite.retain_keys (zeros_in zeros.old) (names_zero spaces.now) in
        zeros_in zeros.new ≡ kept }
{
    zeros.retain(|zero, _| spaces.names_zero(*zero));
}

/// A page of zeros.
pub(crate) fn zero_page(alloc: Global) -> Result<Vec<u8>, AllocError>
    ensures { IfOk result (λ page. page.items ≡ zero_page) }
{
    let mut page = Vec::new(alloc);
    page.resize(4096, 0)?;
    Ok(page)
}

/// So many pages of zeros.
pub(crate) fn zero_pages(alloc: Global, count: u64) -> Result<Vec<Vec<u8>>, AllocError>
    ensures { IfOk result (λ pages. map (λ p. p.items) pages.items ≡ replicate count zero_page) }
{
    let mut pages = Vec::new(alloc);
    for _i in 0..count {
        pages.push(zero_page(alloc)?)?;
    }
    Ok(pages)
}

/// The same zero objects once more.
pub(crate) fn copied(
    zeros: &BTreeMap<u32, ObjectPages>,
) -> Result<BTreeMap<u32, ObjectPages>, AllocError>
    ensures { IfOk result (λ new. zeros_in new ≡ zeros_in zeros.now) }
{
    let new = zeros.clone()?;
    Ok(new)
}

/// The zero objects and the one of so many pages that was made, if one was.
pub(crate) fn with_new_zeros(
    zeros: &BTreeMap<u32, ObjectPages>,
    alloc: Global,
    made: Option<u32>,
    count: u32,
) -> Result<BTreeMap<u32, ObjectPages>, AllocError>
    ensures { let all = with_new_zeros (zeros_in zeros.now) made count in
        IfOk result (λ new. zeros_in new ≡ all) }
{
    let mut new = copied(zeros)?;
    let Some(zero) = made else {
        return Ok(new);
    };
    new.insert(zero, ObjectPages::new(alloc, count as u64))?;
    Ok(new)
}

/// So many slots without some, where there are enough.
pub(crate) fn slots_left(slots: u32, count: u64) -> Option<u32>
    ensures { result ≡ slots_left slots count }
{
    if count <= slots as u64 {
        Some(slots - count as u32)
    } else {
        None
    }
}

/// So many slots without one for each page of the zero objects, where there are enough.
pub(crate) fn object_slots_left(zeros: &BTreeMap<u32, ObjectPages>, slots: u32) -> Option<u32>
    ensures left { result ≡ slots_left slots (sum_by length (values zeros.now)) }
    ensures ordered { IsOrdered nat_cmp zeros.now }
{
    let mut left = slots;
    for pages in zeros.values() {
        left = slots_left(left, pages.len())?;
    }
    Some(left)
}

/// So many slots without one for each page of the zero objects that some cell names, where there
/// are enough. Looks at each cell for each zero object.
pub(crate) fn named_slots_left(
    zeros: &BTreeMap<u32, ObjectPages>,
    spaces: &Spaces,
    slots: u32,
) -> Option<u32>
    ensures { let kept = finite.retain_keys (zeros_in zeros.now) (names_zero spaces.now) in
        result ≡ slots_left slots (sum_by length (finite.values kept)) }
{
    let mut left = slots;
    for (zero, pages) in zeros.iter() {
        if spaces.names_zero(*zero) {
            left = slots_left(left, pages.len())?;
        }
    }
    Some(left)
}
