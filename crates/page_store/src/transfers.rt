//! Transfers begin.
ghost use Rattle.std.specs.Prelude.{◌≡◌, ◌≢◌, ℕ, ◌<◌, ◌≤◌, true, false, length, Some, None, IsSome, slice_set};
ghost use Rattle.std.specs.Option.{option_or};
ghost use Rattle.block_device.specs.DiskSeen.{DiskSeen};
ghost use Rattle.core_arena.specs.Bytes.{bytes_at};
ghost use Rattle.page_hash.specs.Names.{find};
ghost use Rattle.page_hash.specs.declared.PageName.{PageName};
ghost use Rattle.page_lists.specs.ListsSeen.{first_listed};
ghost use Rattle.page_lock.specs.Rows.{row_at};
ghost use Rattle.page_store.specs.Bays.{bay_at, home};
ghost use Rattle.page_store.specs.Flight.{Begins};
ghost use Rattle.page_store.specs.Parts.{rows_pushed, names_taken};
ghost use Rattle.page_store.specs.Steps.{rest_free, rest_cached, home_bytes};
ghost use Rattle.page_store.specs.Transfers.{CanBegin, BeginsTransfer, after_begin, frame_out, frame_shown, is_push};
ghost use Rattle.page_store.specs.Waits.{Waits, plan_page};

use crate::flight::{Flight, Stage};
use crate::frames::{forsake, pair, rename, reserve, take_copy, take_frame};
use crate::plan::Plan;
use crate::store::Store;
use block_device::Disk;
use core_arena::{Core, Frame};
use page_hash::{PageHash, PageName};
use page_lists::PageLists;
use page_lock::PageLocks;

impl<D: Disk> Store<D> {
    /// Begins a transfer between a page and its block of a disk, of whose bytes the first `valid` are the page's own. A frame
    /// and the disk go out with the flight, for this seat. Constant expected time, and that of one copy of a page for a push;
    /// takes no memory and makes no disk call.
    ///
    /// A push takes a frame for a snapshot of the page, exactly where one is available; the page stays where it is, and
    /// modified. Where none is, the page's own frame goes out.
    #[inline(always)]
    pub fn begin(&mut self, seat: u32, plan: Plan, disk: u32, block: u32, valid: u32) -> Flight<D>
        requires ready { Waits self.old (plan_page plan) disk None }
        requires block { (d : DiskSeen) → bay_at self.old.bays disk ≡ home d → block < d.size }
        requires valid { valid ≤ 4096 }
        requires can { CanBegin plan self.old }
        // The flight, and the store without what went out with it.
        ensures flight { Begins result seat disk (bay_at self.old.bays disk) (is_push plan)
            (plan_page plan)
            block valid self.old.origin }
        ensures frame { frame_out plan self.old ≡ Some result.frame }
        ensures bytes { result.bytes ≡ home_bytes self.old (frame_shown plan self.old) }
        ensures new { self.new ≡ after_begin plan self.old seat disk }
        // What that does.
        ensures laws { BeginsTransfer self.old self.new plan (plan_page plan) result }
    {
        match plan {
            Plan::Read(name) => self.begin_read(seat, name, disk, block, valid),
            Plan::Push(name) => self.begin_push(seat, name, disk, block, valid),
        }
    }

    #[inline(always)]
    fn begin_push(
        &mut self,
        seat: u32,
        name: PageName,
        disk: u32,
        block: u32,
        valid: u32,
    ) -> Flight<D>
        requires bay { (d : DiskSeen) × (bay_at self.old.bays disk ≡ home d) }
        requires block { (d : DiskSeen) → bay_at self.old.bays disk ≡ home d → block < d.size }
        requires valid { valid ≤ 4096 }
        requires can { CanBegin (Plan.Push name) self.old }
        // The flight, and the store without what went out with it.
        ensures flight { Begins result seat disk
            (bay_at self.old.bays disk) true name block valid self.old.origin }
        ensures frame { frame_out (Plan.Push name) self.old ≡ Some result.frame }
        ensures bytes { result.bytes ≡ home_bytes self.old (find self.old.names name) }
        ensures new { self.new ≡ after_begin (Plan.Push name) self.old seat disk }
        // What that does.
        ensures laws { BeginsTransfer self.old self.new (Plan.Push name) name result }
    {
        let before = 0;
        let stage = Stage::Fresh;
        match self.names.find(name) {
            None => unreachable!(),
            Some(own) => {
                forsake(&mut self.locks, own);
                let frame = take_out(
                    &mut self.core,
                    &mut self.names,
                    &mut self.lists,
                    &mut self.locks,
                    own,
                    seat,
                );
                Flight {
                    seat,
                    number: disk,
                    disk: self.bays.take(disk, seat),
                    writes: true,
                    name,
                    block,
                    valid,
                    frame,
                    before,
                    stage,
                }
            }
        }
    }

    #[inline(always)]
    fn begin_read(
        &mut self,
        seat: u32,
        name: PageName,
        disk: u32,
        block: u32,
        valid: u32,
    ) -> Flight<D>
        requires bay { (d : DiskSeen) × (bay_at self.old.bays disk ≡ home d) }
        requires block { (d : DiskSeen) → bay_at self.old.bays disk ≡ home d → block < d.size }
        requires valid { valid ≤ 4096 }
        requires can { CanBegin (Plan.Read name) self.old }
        // The flight, and the store without what went out with it.
        ensures flight { Begins result seat disk
            (bay_at self.old.bays disk) false name block valid self.old.origin }
        ensures frame { frame_out (Plan.Read name) self.old ≡ Some result.frame }
        ensures bytes { result.bytes ≡ home_bytes self.old (frame_shown (Plan.Read name) self.old) }
        ensures new { self.new ≡ after_begin (Plan.Read name) self.old seat disk }
        // What that does.
        ensures laws { BeginsTransfer self.old self.new (Plan.Read name) name result }
    {
        let before = 0;
        let stage = Stage::Fresh;
        let at = take_frame(&mut self.lists);
        let frame = self.core.take(at);
        rename(&mut self.names, at, name);
        reserve(&mut self.locks, at, seat);
        Flight {
            seat,
            number: disk,
            disk: self.bays.take(disk, seat),
            writes: false,
            name,
            block,
            valid,
            frame,
            before,
            stage,
        }
    }
}

/// Takes a frame out with the bytes of a page: the next frame as a snapshot, where one is available, else the page's own.
fn take_out(
    core: &mut Core,
    names: &mut PageHash,
    lists: &mut PageLists,
    locks: &mut PageLocks,
    own: u32,
    seat: u32,
) -> Frame
    requires home { IsSome (bytes_at core.old.frames own) }
    requires unheld { (row_at locks.old own).holder ≡ None }
    requires within { own < length locks.old }
    requires others { (at : ℕ) → first_listed lists.old.free lists.old.cached ≡ Some at
        → IsSome (bytes_at core.old.frames at) × (own ≢ at) × (at < length names.old)
        × (at < length locks.old) }
    ensures origin { result.origin ≡ core.old.origin }
    ensures number { option_or (first_listed lists.old.free lists.old.cached) (Some own)
        ≡ Some result.number }
    ensures bytes { bytes_at core.old.frames own ≡ Some result.bytes }
    ensures core { core.new ≡ record core.old
        { frames = slice_set core.old.frames result.number None } }
    // The name that the taken frame held is gone, and the snapshot is paired with its page.
    ensures names { names.new
        ≡ names_taken (first_listed lists.old.free lists.old.cached) names.old }
    ensures lists { lists.new ≡ record lists.old {
      free = rest_free lists.old.free;
      cached = rest_cached lists.old.free lists.old.cached;
    } }
    ensures locks { locks.new ≡ rows_pushed
        (first_listed lists.old.free lists.old.cached) locks.old own seat }
{
    match lists.first_listed() {
        None => {
            locks.lock(own, seat);
            core.take(own)
        }
        Some(_) => {
            let at = take_frame(lists);
            names.forget(at);
            pair(locks, own, at, seat);
            take_copy(core, own, at)
        }
    }
}
