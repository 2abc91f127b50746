//! Sync.
ghost use Rattle.std.specs.Prelude.{◌≡◌, ◌≤◌, ◌<◌, ℕ, List, Option, IsSome};
ghost use Rattle.std.specs.FinMap as finite;
ghost use Rattle.seg_vn.specs.vm_types.declared.call.Call.TheVariants as call;
ghost use Rattle.seg_vn.specs.vm_world.Words.{memory, Fits};
ghost use Rattle.seg_vn.specs.seg_ops.Rooms.{MakesRoom};
ghost use Rattle.seg_vn.specs.Serves.{Serves};
ghost use Rattle.mmap_calls.specs.Calls.{IsSyncAnswer, attempt_wanting};
ghost use Rattle.mmap_calls.specs.Protections.{AreMapped};
ghost use Rattle.mmap_calls.specs.SyncRanges.{MayShowParts, RangeCleaned};

use crate::protects::are_mapped;
use seg_vn::{
    Attempt, Disk, Errno, Ranges, Reply, Spaces, VnSeg, Wants, World, is_range, page_of, pages_in,
};

// What must come first of the pages of a range that a Sync wants clean: None where all are clean; else a page of the process that
// shows one which isn't, and that one's push, or whom the call waits for. Each page is looked at once, up to that one. Time: the
// logarithm of the number of pieces for each piece of the range, and what `clean_places` takes for each.
fn clean_range<D: Disk>(
    world: &mut World<D>,
    space: &Ranges<VnSeg>,
    first: u32,
    end: u32,
) -> Option<(u32, Wants)>
    requires mapped { AreMapped space.now.parts first end }
    requires fits { MayShowParts world.old space.now.parts }
    ensures cleans { RangeCleaned world.old world.new space.now.parts first end result }
    // What stays.
    ensures makes { MakesRoom world.old world.new }
{
    let mut page = first;
    while page < end {
        let Some((begin, pages, segment)) = space.find(page) else {
            unreachable!();
        };
        let to = pages.min(end - begin);
        if let Some((at, wants)) = segment.clean_places(world, page - begin, to) {
            return Some((begin + at, wants));
        }
        page = begin + to;
    }
    None
}

// The same, going round: from a page of the range to its end, and then from its first page to that one.
fn clean_round<D: Disk>(
    world: &mut World<D>,
    space: &Ranges<VnSeg>,
    first: u32,
    begin: u32,
    end: u32,
) -> Option<(u32, Wants)>
    requires low { first ≤ begin }
    requires high { begin ≤ end }
    requires mapped { AreMapped space.now.parts first end }
    requires fits { MayShowParts world.old space.now.parts }
    ensures cleans { RangeCleaned world.old world.new space.now.parts first end result }
    // What stays.
    ensures makes { MakesRoom world.old world.new }
{
    match clean_range(world, space, begin, end) {
        Some(found) => Some(found),
        None => clean_range(world, space, first, begin),
    }
}

// Where a round begins: at this page, where the range has it, else at its first.
fn begin_of_round(first: u32, end: u32, page: u32) -> u32
    requires { first ≤ end }
    ensures low { first ≤ result }
    ensures high { result ≤ end }
{
    if first <= page && page < end {
        page
    } else {
        first
    }
}

// What must come first, as the answer to a call.
fn wanting(wants: Wants) -> Attempt
    ensures { result ≡ attempt_wanting wants }
{
    match wants {
        Wants::Transfer(plan) => Attempt::Need(plan),
        Wants::Seat(hold) => Attempt::Busy(hold),
    }
}

/// What a Sync of a process comes to that began with so many entries in the history. It is done where, in the state in which it
/// answers, each page of a file that a shared mapping of its range shows is clean: not modified, and not moving. Else one that isn't
/// is to be pushed first, or the call waits for who moves it, or has its disk. It changes no page, takes no frame and no memory, and
/// makes no disk call.
///
/// `cursor` is the page of the process that was looked at last: each try looks at the pages of the range from there to its end and
/// then from its first page on, at each once, and stops at the first that isn't clean. So a Sync of n pages that is tried k times
/// looks at 2 n + k pages at most, and at n more for each time that a page of its range is modified or read in meanwhile. Nothing
/// but time depends on it.
/// Time: the logarithm of the number of pieces for each piece of the range, the pages of files that shared ones show, and these
/// pages' translations.
pub fn sync<D: Disk>(
    world: &mut World<D>,
    spaces: &Spaces,
    process: u32,
    addr: u32,
    length: u32,
    cursor: &mut u32,
    from: u64,
) -> Attempt
    requires fits { Fits world.old spaces.now.spaces }
    requires alive { IsSome (finite.get spaces.now.spaces process) }
    ensures serves { (calls : List (Option ℕ)) → Serves (memory world.old spaces.now.spaces)
        (memory world.new spaces.now.spaces) world.old.pending world.new.pending calls process
        (call.Sync addr length) result }
    ensures answer { IsSyncAnswer from result }
    // What stays.
    ensures makes { MakesRoom world.old world.new }
{
    let Some(space) = spaces.get(process) else {
        unreachable!();
    };
    if !is_range(addr, length) {
        return Attempt::Done(Reply::Refused(Errno::Invalid));
    }
    let first = page_of(addr);
    let end = first + pages_in(length);
    if !are_mapped(space, first, end) {
        return Attempt::Done(Reply::Refused(Errno::NotMapped));
    }
    let begin = begin_of_round(first, end, *cursor);
    match clean_round(world, space, first, begin, end) {
        None => Attempt::Done(Reply::Synced(from)),
        Some((page, wants)) => {
            *cursor = page;
            wanting(wants)
        }
    }
}
