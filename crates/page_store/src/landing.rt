//! Transfers end.
ghost use Rattle.std.specs.Prelude.{◌≡◌, ◌≢◌, ◌⊎◌, ◌||◌, ℕ, ◌<◌, true, false, if◌then◌else◌, ◌++◌, ◌∷◌, [], length, Some, None, IsSome, slice_set, Contains};
ghost use Rattle.page_lock.specs.Rows.{row_at, clear_row};
ghost use Rattle.page_store.specs.Flight.{fresh};
ghost use Rattle.page_store.specs.Out.{IsFlightOf};
ghost use Rattle.page_store.specs.Parts.{rows_settled};
ghost use Rattle.page_store.specs.Stages.{outcome_at};
ghost use Rattle.page_store.specs.Steps.{after_end, is_lost, is_dirty, landed_row};
ghost use Rattle.page_store.specs.Transfers.{EndsTransfer};

use crate::flight::{Flight, Stage};
use crate::frames::part;
use crate::store::Store;
use block_device::Disk;
use page_hash::PageHash;
use page_lists::PageLists;
use page_lock::PageLocks;

impl<D: Disk> Store<D> {
    /// Ends a transfer: the frame and the disk come back. A page that isn't gone is home then, but for one that was to be read
    /// and that failed; it is modified where a write failed, and where it was written since its snapshot went out. A frame
    /// without a page is free: where the page is gone, wasn't read, or has its own frame. Constant expected time; takes no
    /// memory and makes no disk call.
    #[inline(always)]
    pub fn end(&mut self, flight: Flight<D>)
        requires out { IsFlightOf self.old flight }
        requires performed { flight.outcome ≢ fresh }
        ensures new { self.new ≡ after_end self.old flight }
        ensures laws { EndsTransfer self.old self.new flight }
    {
        let Flight {
            seat: _,
            number,
            disk,
            writes,
            name: _,
            block: _,
            valid: _,
            frame,
            before: _,
            stage,
        } = flight;
        let at = frame.number();
        self.core.put(frame);
        self.bays.bring_back(number, disk);
        settle(&mut self.locks, at, is_dirty(stage));
        let lost = is_lost(writes, stage, self.locks.row(at).gone);
        land(
            &mut self.names,
            &mut self.locks,
            &mut self.lists,
            at,
            lost,
            is_dirty(stage),
        );
        self.hand = next_hand(self.hand, at, is_dirty(stage), self.frames);
    }
}

// The frame behind which the next search for a victim begins: the one that it was, but where a transfer failed the one that
// it had. So a page that was pushed is found next, and one block that can't be written doesn't fail each access that wants a
// frame.
fn next_hand(hand: u32, at: u32, failed: bool, frames: u32) -> u32
    requires hand { hand < frames }
    requires at { at < frames }
    ensures next { result ≡ if failed then at else hand }
    ensures within { result < frames }
{
    if failed { at } else { hand }
}

// A snapshot that comes back parts from its page, which is modified where the transfer failed or it was written meanwhile.
fn settle(locks: &mut PageLocks, frame: u32, dirty: bool)
    requires frame { frame < length locks.old }
    requires own { (own : ℕ) → (row_at locks.old frame).source ≡ Some own
        → (own < length locks.old) × (own ≢ frame) }
    ensures { locks.new ≡ rows_settled (row_at locks.old frame).source locks.old frame dirty }
{
    if let Some(own) = locks.row(frame).source {
        let rewritten = locks.row(own).rewritten;
        part(locks, own, frame, dirty || rewritten);
    }
}

// A frame that comes back has no page.
fn is_lost(writes: bool, stage: Stage, gone: bool) -> bool
    ensures { result ≡ is_lost writes (outcome_at stage) gone }
{
    gone || (!writes && !is_done(stage))
}

fn is_dirty(stage: Stage) -> bool
    ensures { result ≡ is_dirty (outcome_at stage) }
{
    !is_done(stage)
}

fn is_done(stage: Stage) -> bool
    ensures { is_dirty (outcome_at stage) ≡ if result then false else true }
{
    match stage {
        Stage::Done => true,
        Stage::Fresh => false,
        Stage::Failed => false,
    }
}

// A frame that came back has its page and no holder, or is free.
#[inline(always)]
fn land(
    names: &mut PageHash,
    locks: &mut PageLocks,
    lists: &mut PageLists,
    frame: u32,
    lost: bool,
    dirty: bool,
)
    requires named { frame < length names.old }
    requires within { frame < length locks.old }
    requires listed { frame < lists.old.frames }
    requires held { IsSome (row_at locks.old frame).holder }
    requires unlisted { Contains lists.old.free frame ⊎ Contains lists.old.cached frame → ⊥ }
    // A lost page leaves its frame free, without a name.
    ensures names { names.new ≡ if lost then slice_set names.old frame None else names.old }
    ensures locks { locks.new ≡ slice_set locks.old frame
        (if lost then clear_row else landed_row (row_at locks.old frame) dirty) }
    ensures lists { lists.new ≡ record lists.old {
      free = if lost then lists.old.free
          ++ frame ∷ [] else lists.old.free;
    } }
{
    if lost {
        names.forget(frame);
        locks.clear(frame);
        lists.free(frame);
    } else {
        locks.unlock(frame);
        let (referenced, _) = locks.bits(frame);
        locks.set_bits(frame, referenced, dirty);
    }
}
