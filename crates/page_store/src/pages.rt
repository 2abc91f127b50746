//! What is done to pages while they are at home.
ghost use Rattle.std.specs.Prelude.{◌≡◌, ℕ, ◌+◌, ◌<◌, ◌≤◌, ◌==◌, ◌++◌, ◌∷◌, [], ◌↔◌, true, false, if◌then◌else◌, List, length, Some, None, IsSome, IsTrue, IfSome, is_some, slice_set, Contains};
ghost use Rattle.core_arena.specs.Bytes.{bytes_at, zeros};
ghost use Rattle.page_hash.specs.Names.{find};
ghost use Rattle.page_lists.specs.ListsSeen.{without_frame};
ghost use Rattle.page_lock.specs.Rows.{row_at, clear_row, with_bits};
ghost use Rattle.page_store.specs.Laws.{StaysInPlace, Releases, Pokes, FillsPage, Aborts};
ghost use Rattle.page_store.specs.Moves.{is_only};
ghost use Rattle.page_store.specs.Seen.{residence, IsListedFrame};
ghost use Rattle.page_store.specs.Steps.{next_frame, home_bytes, front_bytes, with_piece, after_poke, after_fill, after_abort, after_reclaim};
ghost use Rattle.page_store.specs.Value.{value};

use crate::frames::{copy_front, forsake, rename, reset, take_frame, zero_frame};
use crate::place::{PAGE_BYTES, SWAP_OBJECT};
use crate::residence::Residence;
use crate::store::Store;
use block_device::Disk;
use core_arena::Core;
use page_hash::PageName;
use page_lists::PageLists;
use page_lock::PageLocks;

impl<D: Disk> Store<D> {
    /// Writes a piece over a page that is home, from byte `at` of the page on, and sets its modified bit where `mark` is true.
    pub fn poke(&mut self, name: PageName, at: u32, from: &[u8], mark: bool)
        requires home { (frame : ℕ) × (residence self.old name ≡ Residence.Home frame)
            × (¬ IsListedFrame self.old frame) }
        requires within { at + length from.now ≤ 4096 }
        ensures new { self.new ≡ after_poke self.old name at from.now mark }
        ensures laws { Pokes self.old self.new name at from.now }
    {
        match self.names.find(name) {
            None => unreachable!(),
            Some(frame) => self.poke_frame(frame, at, from, mark),
        }
    }

    /// Does so to the page that is home in a frame. The frame needs no look for its page.
    pub fn poke_frame(&mut self, frame: u32, at: u32, from: &[u8], mark: bool)
        requires home { (name : PageName) × (residence self.old name ≡ Residence.Home frame) }
        requires unlisted { ¬ IsListedFrame self.old frame }
        requires within { at + length from.now ≤ 4096 }
        ensures new { self.new ≡ with_piece self.old frame at from.now mark }
        ensures laws { (name : PageName) → residence self.old name ≡ Residence.Home frame
            → Pokes self.old self.new name at from.now }
    {
        self.core.write(frame, at, from);
        mark_if(&mut self.locks, frame, mark);
    }

    /// Makes a page of zeros for a name that no frame holds. The frame of a slot is modified, that of a file's page is not.
    pub fn fill_zero(&mut self, name: PageName)
        requires available { IsSome (next_frame self.old) }
        requires absent { residence self.old name ≡ Residence.Absent }
        ensures new { self.new ≡ after_fill self.old name zeros (name.object == 64) }
        ensures laws { FillsPage self.old self.new name (name.object == 64) (λ notes table. zeros) }
    {
        let frame = take_frame(&mut self.lists);
        rename(&mut self.names, frame, name);
        reset(&mut self.locks, frame, name.object == SWAP_OBJECT);
        zero_frame(&mut self.core, frame);
    }

    /// Makes a slot's page with the first `valid` bytes of a frame that is home, and zeros after them. Where that frame is the one
    /// that is taken nothing is copied.
    pub fn fill_from(&mut self, name: PageName, frame: u32, valid: u32)
        requires available { IsSome (next_frame self.old) }
        requires absent { residence self.old name ≡ Residence.Absent }
        requires slot { name.object ≡ 64 }
        requires home { IsSome (bytes_at self.old.frames frame) }
        requires valid { valid ≤ 4096 }
        // The slot's page is home with these bytes.
        ensures new { self.new ≡ after_fill self.old name
            (front_bytes self.old.frames frame valid) true }
        ensures laws { FillsPage self.old self.new name true
            (λ notes table. front_bytes self.old.frames frame valid) }
    {
        let taken = take_frame(&mut self.lists);
        rename(&mut self.names, taken, name);
        reset(&mut self.locks, taken, true);
        copy_front(&mut self.core, frame, valid, taken);
    }

    /// Makes a slot's page with the bytes of a page that is home.
    ///
    /// The page keeps its frame, since a frame on no list isn't taken.
    pub fn copy(&mut self, from: PageName, to: PageName)
        requires available { IsSome (next_frame self.old) }
        requires absent { residence self.old to ≡ Residence.Absent }
        requires home { (frame : ℕ) × (residence self.old from ≡ Residence.Home frame)
            × (¬ IsListedFrame self.old frame) }
        requires slot { to.object ≡ 64 }
        // The slot's page is home with the other page's bytes.
        ensures new { self.new ≡ after_fill self.old to (home_bytes self.old
            (find self.old.names from)) true }
        ensures laws { FillsPage self.old self.new to true
            (λ notes table. value self.old notes table from) }
        ensures source { residence self.new from ≡ residence self.old from }
    {
        match self.names.find(from) {
            None => unreachable!(),
            Some(frame) => self.fill_from(to, frame, PAGE_BYTES),
        }
    }

    /// Gives up a page. A page that is moving is gone: its frame comes free at its flight's end. The frame of one that is
    /// home comes free at once, and a snapshot of it that is away is gone.
    pub fn abort(&mut self, name: PageName)
        ensures new { self.new ≡ after_abort self.old name }
        ensures laws { Aborts self.old self.new name }
    {
        let Some(frame) = self.names.remove(name) else {
            return;
        };
        forsake(&mut self.locks, frame);
        give_up(&self.core, &mut self.lists, &mut self.locks, frame);
    }

    /// Takes a page's frame back from the cache list; false where it isn't there.
    pub fn reclaim(&mut self, name: PageName) -> bool
        ensures cached { IsTrue result ↔ ((frame : ℕ) × (find self.old.names name ≡ Some frame)
            × Contains self.old.cached frame) }
        ensures new { self.new ≡ after_reclaim self.old name }
        ensures unlisted { IfSome (find self.old.names name)
            (λ frame. ¬ IsListedFrame self.new frame) }
        ensures laws { StaysInPlace self.old self.new (is_only (find self.old.names name)) }
    {
        let Some(frame) = self.names.find(name) else {
            return false;
        };
        self.lists.reclaim(frame)
    }

    /// Puts the frame of a page that has its bytes elsewhere too on the cache list, where it can be taken or reclaimed.
    pub fn release(&mut self, frame: u32)
        requires within { frame < length self.old.frames }
        requires unlisted { ¬ IsListedFrame self.old frame }
        requires clean { (row_at self.old.rows frame).modified ≡ false }
        requires unlocked { (row_at self.old.rows frame).holder ≡ None }
        requires unkept { (row_at self.old.rows frame).keeps ≡ 0 }
        requires unsent { is_some (row_at self.old.rows frame).snapshot ≡ false }
        // No page moves, and no value changes where this one is clean.
        ensures new { self.new ≡ record self.old { cached = self.old.cached ++ frame ∷ [] } }
        ensures laws { Releases self.old self.new frame }
    {
        self.lists.cache(frame);
    }
}

/// Sets a frame's modified bit where `mark` is true.
fn mark_if(locks: &mut PageLocks, frame: u32, mark: bool)
    requires { frame < length locks.old }
    ensures { locks.new ≡ (if mark then slice_set locks.old frame (with_bits
        (row_at locks.old frame) (row_at locks.old frame).referenced true) else locks.old) }
{
    if mark {
        let (referenced, _) = locks.bits(frame);
        locks.set_bits(frame, referenced, true);
    }
}

/// Frees a frame that is home; the page of one that is away is gone.
fn give_up(core: &Core, lists: &mut PageLists, locks: &mut PageLocks, frame: u32)
    requires within { frame < length core.now.frames }
    requires listed { frame < lists.old.frames }
    requires locked { frame < length locks.old }
    requires held { bytes_at core.now.frames frame ≡ None → IsSome (row_at locks.old frame).holder }
    requires used { Contains lists.old.free frame → ⊥ }
    // A frame at home is free, one that is away has a page that is gone.
    ensures lists { lists.new ≡ (if is_some
        (bytes_at core.now.frames frame) then record lists.old {
          cached = without_frame lists.old.cached frame;
          free = lists.old.free
              ++ frame ∷ [];
        } else lists.old) }
    ensures locks { locks.new ≡ (if is_some
        (bytes_at core.now.frames frame) then slice_set locks.old frame clear_row else slice_set
        locks.old frame (record (row_at locks.old frame) { gone = true })) }
{
    if core.is_home(frame) {
        lists.reclaim(frame);
        lists.free(frame);
        locks.clear(frame);
    } else {
        locks.abort(frame);
    }
}
