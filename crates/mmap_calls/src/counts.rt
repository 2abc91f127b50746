//! What a range of pages has, counted by its pieces.
ghost use Rattle.std.specs.Prelude.{◌≡◌, ◌+◌, ◌<◌, ◌≤◌, ◌^◌, ℕ, Some, IfOk, MatchOption, length, slice_index, if◌then◌else◌};
ghost use Rattle.seg_vn.specs.addr_space.Space.{part, begins, FindsLast};
ghost use Rattle.seg_vn.specs.vm_world.CountsFit.{is_number};
ghost use Rattle.seg_vn.specs.Clears.{MayBeSpace};
ghost use Rattle.mmap_calls.specs.RangeCounts.{CountsRange, IsFewCounted, IsOwnPrivate, NoneBelow, count_within, pages_within, slots_within, zero_in};

use seg_vn::{Disk, Object, Ranges, VnSeg, World};
use std::alloc::AllocError;

/// What a range has: the pages that are mapped, the slots that these reserve, and for each zero object, by its number, how many
/// pieces that lie wholly in the range show it.
#[derive(Drop)]
pub(crate) struct RangeCounts {
    pub pages: u32,
    pub slots: u32,
    pub shown: Vec<u32>,
}

/// The last piece that begins below a page, where it has a page from another on: its first page, its number of pages, and the
/// piece. So the pieces of a range are found from the back. Time: the logarithm of the number of pieces.
pub(crate) fn last_piece(space: &Ranges<VnSeg>, from: u32, below: u32) -> Option<(u32, u32, &VnSeg)>
    ensures { MatchOption result (NoneBelow space.now.parts from below)
        (λ r. FindsLast space.now.parts below (Some r.0)
        × (begins space.now.parts r.0 ≡ Some (part r.0 r.1 r.2.now))
        × (from < r.0 + r.1)) }
{
    let page = space.last(below)?;
    let Some((first, pages, segment)) = space.find(page) else {
        unreachable!();
    };
    if first + pages <= from {
        return None;
    }
    Some((first, pages, segment))
}

// Counts an object, if it is a zero object.
fn count_object(shown: &mut Vec<u32>, object: Object)
    requires listed { (z : ℕ) → zero_in object ≡ Some z → z < length shown.old.items }
    requires few { (z : ℕ) → slice_index shown.old.items z + 1 < 2 ^ 32 }
    ensures len { length shown.new.items ≡ length shown.old.items }
    ensures counts { (z : ℕ) → slice_index shown.new.items z
        ≡ slice_index shown.old.items z + (if is_number z (zero_in object) then 1 else 0) }
{
    if let Object::Zero(number) = object {
        shown[number as usize] += 1;
    }
}

// Counts a piece that has pages of a range.
fn count_piece(
    counts: &mut RangeCounts,
    begin: u32,
    pages: u32,
    segment: &VnSeg,
    first: u32,
    end: u32,
)
    requires here { (begin < end) × (first < begin + pages) × (begin + pages ≤ 0x80000) }
    requires range { (first ≤ end) × (end ≤ 0x80000) }
    requires some { 0 < segment.now.pages }
    requires own { IsOwnPrivate segment.now }
    requires listed { (z : ℕ) → zero_in segment.now.object ≡ Some z
        → z < length counts.old.shown.items }
    requires few { IsFewCounted counts.old }
    // What is added.
    ensures pages { counts.new.pages
        ≡ counts.old.pages + pages_within first end (part begin pages segment.now) }
    ensures slots { counts.new.slots
        ≡ counts.old.slots + slots_within first end (part begin pages segment.now) }
    ensures shown { (z : ℕ) → slice_index counts.new.shown.items z
        ≡ slice_index counts.old.shown.items z
        + count_within first end z (part begin pages segment.now) }
    ensures len { length counts.new.shown.items ≡ length counts.old.shown.items }
{
    let within = (begin + pages).min(end) - begin.max(first);
    counts.pages += within;
    if segment.own().is_some() {
        counts.slots += within;
    }
    if first <= begin && begin + pages <= end {
        count_object(&mut counts.shown, segment.object(0).0);
    }
}

/// What a range of a space has. The only error is want of memory. Time: the logarithm of the number of pieces for each piece of
/// the range; and the number of zero objects, as does its memory.
pub(crate) fn count_range<D: Disk>(
    world: &World<D>,
    space: &Ranges<VnSeg>,
    first: u32,
    end: u32,
) -> Result<RangeCounts, AllocError>
    requires range { (first ≤ end) × (end ≤ 0x80000) }
    requires fits { MayBeSpace world.now space.now.parts }
    ensures counts { IfOk result (CountsRange space.now.parts first end) }
    ensures len { IfOk result (λ counts. length counts.shown.items ≡ length world.now.zeros) }
    ensures few { IfOk result (λ counts. length counts.shown.items ≤ 2 ^ 32) }
{
    let mut counts = RangeCounts {
        pages: 0,
        slots: 0,
        shown: world.zeros.tally()?,
    };
    let mut below = end;
    while let Some((begin, pages, segment)) = last_piece(space, first, below) {
        count_piece(&mut counts, begin, pages, segment, first, end);
        below = begin;
    }
    Ok(counts)
}
