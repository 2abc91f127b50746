//! The pieces of a space, from the front.
ghost use Rattle.std.specs.Prelude.{◌≡◌, ℕ, [], All, MatchOption, if◌then◌else◌, is_some, length, sum_by};
ghost use Rattle.seg_vn.specs.addr_space.Space.{IsInOrder, part};
ghost use Rattle.seg_vn.specs.vm_world.CountsFit.{slots_for_part};
ghost use Rattle.proc_calls.specs.Pieces.{IsFirstFrom, OwnsPages, parts_from};

use seg_vn::{Ranges, VnSeg};

/// How many pieces a space has, and how many slots they reserve.
#[derive(Clone, Copy, Drop)]
pub(crate) struct SpaceCounts {
    pub pieces: u32,
    pub slots: u32,
}

/// The first piece that begins at a page or behind it: its first page, its number of pages, and the piece. Time: the logarithm of
/// the number of pieces.
pub(crate) fn next_piece(space: &Ranges<VnSeg>, page: u32) -> Option<(u32, u32, &VnSeg)>
    ensures { MatchOption result (parts_from page space.now.parts ≡ [])
        (λ r. IsFirstFrom space.now.parts page (part r.0 r.1 r.2.now)) }
{
    let next = space.next(page)?;
    let Some((first, pages, segment)) = space.find(next) else {
        unreachable!();
    };
    Some((first, pages, segment))
}

// How many slots a piece of so many pages reserves.
fn slots_of(segment: &VnSeg, pages: u32) -> u32
    ensures { result ≡ (if is_some segment.now.own then pages else 0) }
{
    if segment.own().is_some() { pages } else { 0 }
}

/// How many pieces a space has, and how many slots they reserve: one for each private page. Time: the number of pieces, and the
/// logarithm of it for each.
pub(crate) fn count_pieces(space: &Ranges<VnSeg>) -> SpaceCounts
    requires ordered { IsInOrder 1 space.now.parts }
    requires owns { All OwnsPages space.now.parts }
    ensures pieces { result.pieces ≡ length space.now.parts }
    ensures slots { result.slots ≡ sum_by slots_for_part space.now.parts }
{
    let mut counts = SpaceCounts {
        pieces: 0,
        slots: 0,
    };
    let mut from = 0;
    while let Some((first, pages, segment)) = next_piece(space, from) {
        counts.pieces += 1;
        counts.slots += slots_of(segment, pages);
        from = first + pages;
    }
    counts
}
