//! The frame tables together: a frame that is taken for a name, or comes free.
ghost use Rattle.std.specs.Prelude.{◌≡◌, ◌≢◌, ℕ, ◌<◌, ◌≤◌, ◌++◌, true, false, length, replicate, drop, Some, None, IsSome, option_map, slice_set};
ghost use Rattle.core_arena.specs.Bytes.{bytes_at, zeros};
ghost use Rattle.page_hash.specs.Names.{find, AreDistinct};
ghost use Rattle.page_lists.specs.ListsSeen.{AreApart, first_listed};
ghost use Rattle.page_lock.specs.Rows.{row_at, clear_row};
ghost use Rattle.page_store.specs.Bytes.{clip};
ghost use Rattle.page_store.specs.Parts.{rows_paired, rows_parted, rows_forsaken};
ghost use Rattle.page_store.specs.Steps.{rest_free, rest_cached, fresh_row, held_row};

use core_arena::{Core, Frame};
use page_hash::{PageHash, PageName};
use page_lists::PageLists;
use page_lock::{PageLocks, Row};

/// Takes the first free frame, or where none is free the first cached one.
pub(crate) fn take_frame(lists: &mut PageLists) -> u32
    requires { IsSome (first_listed lists.old.free lists.old.cached) }
    ensures frame { first_listed lists.old.free lists.old.cached ≡ Some result }
    ensures rest { lists.new ≡ record lists.old
        { free = rest_free lists.old.free; cached = rest_cached lists.old.free lists.old.cached } }
    ensures apart { AreApart lists.new }
{
    match lists.take() {
        Some(taken) => taken.frame,
        None => unreachable!(),
    }
}

/// Gives a frame a name that no frame holds, in place of the name that it holds.
#[inline(always)]
pub(crate) fn rename(names: &mut PageHash, frame: u32, name: PageName)
    requires within { frame < length names.old }
    requires absent { find names.old name ≡ None }
    ensures new { names.new ≡ slice_set names.old frame (Some name) }
    ensures distinct { AreDistinct names.new }
{
    names.forget(frame);
    names.enter(name, frame);
}

/// Makes a frame's row that of a page at home.
pub(crate) fn reset(locks: &mut PageLocks, frame: u32, modified: bool)
    requires { frame < length locks.old }
    ensures { locks.new ≡ slice_set locks.old frame (fresh_row modified) }
{
    locks.clear(frame);
    locks.set_bits(frame, false, modified);
}

/// Makes a frame's row that of a page which a seat has.
pub(crate) fn reserve(locks: &mut PageLocks, frame: u32, seat: u32)
    requires { frame < length locks.old }
    ensures { locks.new ≡ slice_set locks.old frame (held_row clear_row seat) }
{
    locks.clear(frame);
    locks.lock(frame, seat);
}

/// Makes a frame a snapshot, which a seat has, of a page.
pub(crate) fn pair(locks: &mut PageLocks, own: u32, copy: u32, seat: u32)
    requires own { own < length locks.old }
    requires copy { copy < length locks.old }
    requires apart { own ≢ copy }
    ensures { locks.new ≡ rows_paired locks.old own copy seat }
{
    let row = Row {
        holder: Some(seat),
        source: Some(own),
        ..Row::CLEAR
    };
    locks.set_row(copy, row);
    let row = Row {
        snapshot: Some(copy),
        rewritten: false,
        ..locks.row(own)
    };
    locks.set_row(own, row);
}

/// Parts a page from its snapshot, which is gone then. The page gets this modified bit.
pub(crate) fn part(locks: &mut PageLocks, own: u32, copy: u32, modified: bool)
    requires own { own < length locks.old }
    requires copy { copy < length locks.old }
    requires apart { own ≢ copy }
    ensures { locks.new ≡ rows_parted locks.old own copy modified }
{
    let row = Row {
        source: None,
        gone: true,
        ..locks.row(copy)
    };
    locks.set_row(copy, row);
    let row = Row {
        snapshot: None,
        modified,
        ..locks.row(own)
    };
    locks.set_row(own, row);
}

/// The snapshot of a frame's page, where one is away, is gone.
pub(crate) fn forsake(locks: &mut PageLocks, own: u32)
    requires own { own < length locks.old }
    requires copy { (copy : ℕ) → (row_at locks.old own).snapshot ≡ Some copy
        → (copy < length locks.old) × (own ≢ copy) }
    ensures { locks.new ≡ rows_forsaken locks.old own }
{
    let row = locks.row(own);
    if let Some(copy) = row.snapshot {
        part(locks, own, copy, row.modified);
    }
}

/// Copies the first `valid` bytes of a home frame to a home frame, which may be the same one, and makes the others there zeros.
pub(crate) fn copy_front(core: &mut Core, from: u32, valid: u32, to: u32)
    requires from { IsSome (bytes_at core.old.frames from) }
    requires to { IsSome (bytes_at core.old.frames to) }
    requires valid { valid ≤ 4096 }
    ensures { core.new ≡ record core.old {
      frames = slice_set core.old.frames to
          (option_map (clip valid) (bytes_at core.old.frames from));
    } }
{
    copy_frame(core, from, to);
    clear_end(core, to, valid);
}

/// Copies the bytes of a home frame to a home frame, which may be the same one.
fn copy_frame(core: &mut Core, from: u32, to: u32)
    requires from { IsSome (bytes_at core.old.frames from) }
    requires to { IsSome (bytes_at core.old.frames to) }
    ensures { core.new ≡ record core.old {
      frames = slice_set core.old.frames to
          (bytes_at core.old.frames from);
    } }
{
    if from != to {
        let frame = take_copy(core, from, to);
        core.put(frame);
    }
}

/// Makes the bytes of a home frame behind the first `valid` ones zeros.
fn clear_end(core: &mut Core, frame: u32, valid: u32)
    requires home { IsSome (bytes_at core.old.frames frame) }
    requires valid { valid ≤ 4096 }
    ensures { core.new ≡ record core.old {
      frames = slice_set core.old.frames frame
          (option_map (clip valid) (bytes_at core.old.frames frame));
    } }
{
    cut_at(core.bytes_mut(frame), valid as usize);
}

fn cut_at(page: &mut [u8], valid: usize)
    requires within { valid ≤ 4096 }
    requires size { length page.old ≡ 4096 }
    ensures { page.new ≡ clip valid page.old }
{
    page[valid..].fill(0);
}

/// Takes a frame out of the core, with the bytes of another one.
pub(crate) fn take_copy(core: &mut Core, own: u32, at: u32) -> Frame
    requires own { IsSome (bytes_at core.old.frames own) }
    requires at { IsSome (bytes_at core.old.frames at) }
    requires apart { own ≢ at }
    // The frame goes out with the other one's bytes.
    ensures origin { result.origin ≡ core.old.origin }
    ensures number { result.number ≡ at }
    ensures bytes { bytes_at core.old.frames own ≡ Some result.bytes }
    ensures new { core.new ≡ record core.old { frames = slice_set core.old.frames at None } }
{
    let mut frame = core.take(at);
    frame.bytes_mut().copy_from_slice(core.bytes(own));
    frame
}

/// Makes the bytes of a home frame zeros.
pub(crate) fn zero_frame(core: &mut Core, frame: u32)
    requires { IsSome (bytes_at core.old.frames frame) }
    ensures { core.new ≡ record core.old { frames = slice_set core.old.frames frame (Some zeros) } }
{
    clear_page(core.bytes_mut(frame));
}

// The halves are written one by one: the C library writes so many zeros by vectors, and more of them by an instruction that takes long to begin
// and that is counted once a byte.
fn clear_page(page: &mut [u8])
    requires { length page.old ≡ 4096 }
    ensures { page.new ≡ zeros }
{
    clear_front(page);
    cut_at(page, HALF);
}

const HALF: usize = 2048;

// Makes the first half of a page zeros. It is never in line, so that the two halves aren't made one.
#[inline(never)]
fn clear_front(page: &mut [u8])
    requires { length page.old ≡ 4096 }
    ensures size { length page.new ≡ 4096 }
    ensures front { page.new ≡ replicate 2048 0 ++ drop 2048 page.old }
{
    page[..HALF].fill(0);
}
