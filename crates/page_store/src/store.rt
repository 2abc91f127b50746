//! The store and what it tells.
ghost use Rattle.std.specs.Prelude.{◌≡◌, ◌≢◌, ℕ, ◌+◌, ◌-◌, ◌<◌, ◌≤◌, ◌^◌, ◌↔◌, true, false, List, length, Option, Some, None, IsSome, IsTrue, is_some, [], ◌∷◌, ◌++◌, IfSome, IfOk, nat_lt};
ghost use Rattle.block_device.specs.DiskSeen.{DiskSeen};
ghost use Rattle.core_arena.specs.Bytes.{bytes_at};
ghost use Rattle.page_clock.specs.Clock.{next_pick, next_clock, place_of};
ghost use Rattle.page_hash.specs.Names.{name_at, find};
ghost use Rattle.page_hash.specs.declared.PageName.{PageName};
ghost use Rattle.page_lock.specs.Rows.{row_at, with_bits, with_bits_added, with_use};
ghost use Rattle.page_store.specs.Bays.{bay_at, home, missing, home_faults};
ghost use Rattle.page_store.specs.Laws.{StaysInPlace};
ghost use Rattle.page_store.specs.Moves.{is_only};
ghost use Rattle.page_store.specs.Notes.{Notes};
ghost use Rattle.page_store.specs.Seen.{residence, IsListedFrame, IsSoundStore};
ghost use Rattle.page_store.specs.Steps.{next_frame, next_name, with_row};
ghost use Rattle.page_store.specs.Table.{PlaceTable};
ghost use Rattle.page_store.specs.Value.{value};
ghost use Rattle.page_store.specs.Waits.{Waits, holder_of, plan_page, ChoosesFrame, IsVictim};

use crate::bays::Bays;
use crate::order::Order;
use crate::plan::{Hold, Plan};
use crate::residence::Residence;
use block_device::Disk;
use core_arena::Core;
use page_clock::{Clock, Pick};
use page_hash::{PageHash, PageName};
use page_lists::PageLists;
use page_lock::PageLocks;
use std::marker::Model;

/// Pages by name, in frames, in flight or on disks.
#[derive(Drop)]
pub struct Store<D: Disk> {
    pub(crate) frames: u32,
    pub(crate) hand: u32,
    pub(crate) core: Core,
    pub(crate) names: PageHash,
    pub(crate) lists: PageLists,
    pub(crate) locks: PageLocks,
    pub(crate) clock: Clock,
    pub(crate) bays: Bays<D>,
    pub(crate) order: Order<D>,
}

impl<D: Disk> Model for Store<D> {
    ghost use Rattle.page_store.specs.Seen.{StoreSeen, store_of, IsWhole};

    ghost Value = { StoreSeen };

    ghost view = { λ s. store_of s.core s.names s.lists s.locks s.clock s.bays s.order };

    ghost invariant = { λ s. IsWhole s.frames s.hand s.core s.names s.lists s.locks s.clock s.bays s.order };
}

impl<D: Disk> Store<D> {
    /// Where a page is. Constant expected time.
    pub fn resident(&self, name: PageName) -> Residence
        ensures residence { result ≡ residence self.now name }
        ensures within { (frame : ℕ) → result ≡ Residence.Home frame
            → frame < length self.now.frames }
    {
        match self.names.find(name) {
            None => Residence::Absent,
            Some(frame) => {
                if self.core.is_home(frame) {
                    Residence::Home(frame)
                } else {
                    match self.locks.holder(frame) {
                        Some(seat) => Residence::Moving(seat),
                        None => Residence::Absent,
                    }
                }
            }
        }
    }

    /// What holds of every store.
    pub fn sound(&self)
        ensures { IsSoundStore self.now }
    {
        let _ = &self.frames;
    }

    /// The frame that the next call takes which takes one; None where none is available. Constant time.
    pub fn next_frame(&self) -> Option<u32>
        ensures next { result ≡ next_frame self.now }
        ensures within { IfSome result (λ frame. frame < length self.now.frames) }
    {
        self.lists.first_listed()
    }

    /// The name that this frame holds, if it holds one: whoever takes the frame takes it from this page. Constant time.
    pub fn next_name(&self) -> Option<PageName>
        ensures { result ≡ next_name self.now }
    {
        match self.next_frame() {
            None => None,
            Some(frame) => self.names.name_of(frame),
        }
    }

    /// Whether a frame can be taken, from the free list or the cache list.
    pub fn available(&self) -> bool
        ensures { IsTrue result ↔ IsSome (next_frame self.now) }
    {
        self.lists.is_available()
    }

    /// The 4096 bytes of a page that is home. Constant expected time.
    pub fn bytes(&self, name: PageName) -> &[u8]
        requires { (frame : ℕ) × (residence self.now name ≡ Residence.Home frame) }
        ensures size { length result.now ≡ 4096 }
        ensures value { (notes : Notes) (table : PlaceTable)
            → result.now ≡ value self.now notes table name }
    {
        match self.names.find(name) {
            None => unreachable!(),
            Some(frame) => self.core.bytes(frame),
        }
    }

    /// The 4096 bytes of the page that is home in a frame. Constant time: the frame needs no look for its page.
    pub fn frame_bytes(&self, frame: u32) -> &[u8]
        requires home { (name : PageName) × (residence self.now name ≡ Residence.Home frame) }
        ensures size { length result.now ≡ 4096 }
        ensures value { (name : PageName) → residence self.now name ≡ Residence.Home frame
            → (notes : Notes) (table : PlaceTable) → result.now ≡ value self.now notes table name }
    {
        self.core.bytes(frame)
    }

    /// The name that a frame holds, if it holds one.
    pub fn name_of(&self, frame: u32) -> Option<PageName>
        requires { frame < length self.now.frames }
        ensures held { result ≡ name_at self.now.names frame }
        ensures leads_here { IfSome result (λ name. find self.now.names name ≡ Some frame) }
    {
        self.names.name_of(frame)
    }

    /// Whether a frame is on the free list or the cache list.
    pub fn listed(&self, frame: u32) -> bool
        requires { frame < length self.now.frames }
        ensures { IsTrue result ↔ IsListedFrame self.now frame }
    {
        self.lists.listed(frame)
    }

    /// The seat that holds a frame's lock; None exactly where nobody does.
    pub fn holder(&self, frame: u32) -> Option<u32>
        requires { frame < length self.now.frames }
        ensures { result ≡ (row_at self.now.rows frame).holder }
    {
        self.locks.holder(frame)
    }

    /// Whether a snapshot of a frame's page is away.
    pub fn has_snapshot(&self, frame: u32) -> bool
        requires { frame < length self.now.frames }
        ensures { result ≡ is_some (row_at self.now.rows frame).snapshot }
    {
        self.locks.row(frame).snapshot.is_some()
    }

    /// Keeps a frame from being taken for another use, once more.
    pub fn keep(&mut self, frame: u32)
        requires frame { frame < length self.old.frames }
        requires room { (row_at self.old.rows frame).keeps < 2 ^ 32 - 1 }
        ensures new { self.new ≡ with_row self.old frame
            (record (row_at self.old.rows frame) {
              keeps =
                  (row_at self.old.rows frame).keeps + 1;
            }) }
        ensures laws { StaysInPlace self.old self.new (is_only (Some frame)) }
    {
        self.locks.keep(frame);
    }

    /// Undoes one `keep`.
    pub fn unkeep(&mut self, frame: u32)
        requires frame { frame < length self.old.frames }
        requires kept { 0 < (row_at self.old.rows frame).keeps }
        ensures new { self.new ≡ with_row self.old frame
            (record (row_at self.old.rows frame) {
              keeps =
                  (row_at self.old.rows frame).keeps - 1;
            }) }
        ensures laws { StaysInPlace self.old self.new (is_only (Some frame)) }
    {
        self.locks.unkeep(frame);
    }

    /// Whether a frame is referenced, and whether it is modified.
    pub fn bits(&self, frame: u32) -> (bool, bool)
        requires { frame < length self.now.frames }
        ensures referenced { result.0 ≡ (row_at self.now.rows frame).referenced }
        ensures modified { result.1 ≡ (row_at self.now.rows frame).modified }
    {
        self.locks.bits(frame)
    }

    /// Sets both bits of a frame to these. A page that is modified counts as rewritten since its last snapshot.
    pub fn set_bits(&mut self, frame: u32, referenced: bool, modified: bool)
        requires { frame < length self.old.frames }
        ensures new { self.new ≡ with_row self.old frame (with_bits
            (row_at self.old.rows frame) referenced modified) }
        ensures laws { StaysInPlace self.old self.new (is_only (Some frame)) }
    {
        self.locks.set_bits(frame, referenced, modified);
    }

    /// Sets the bit of use of a frame to this, and no other.
    pub fn set_used(&mut self, frame: u32, referenced: bool)
        requires { frame < length self.old.frames }
        ensures new { self.new ≡ with_row self.old frame (with_use
            (row_at self.old.rows frame) referenced) }
        ensures laws { StaysInPlace self.old self.new (is_only (Some frame)) }
    {
        self.locks.set_used(frame, referenced);
    }

    /// Adds bits that were told of a frame's translations: only where these say so the page counts as rewritten.
    pub fn add_bits(&mut self, frame: u32, referenced: bool, modified: bool)
        requires { frame < length self.old.frames }
        ensures new { self.new ≡ with_row self.old frame (with_bits_added
            (row_at self.old.rows frame) referenced modified) }
        ensures laws { StaysInPlace self.old self.new (is_only (Some frame)) }
    {
        self.locks.add_bits(frame, referenced, modified);
    }

    /// The next hand of the clock and its frame, as `Clock::step`.
    pub fn clock_turn(&mut self) -> Pick
        ensures pick { result ≡ next_pick self.old.clock }
        ensures within { place_of result < length self.old.frames }
        ensures new { self.new ≡ record self.old { clock = next_clock self.old.clock } }
        ensures laws { StaysInPlace self.old self.new (is_only None) }
    {
        self.clock.step()
    }

    /// How many faults a disk that is home has counted, by its number, which is 8 for the swap disk; None where none is home.
    pub fn faults(&self, disk: u32) -> Option<u64>
        requires { disk < 9 }
        ensures { result ≡ home_faults (bay_at self.now.bays disk) }
    {
        self.bays.faults(disk)
    }

    /// What a plan waits for, if it does: the seat that holds the page's lock, or the seat that has the disk.
    pub fn ready(&self, plan: &Plan, disk: u32) -> Option<Hold>
        requires { bay_at self.now.bays disk ≢ missing }
        ensures { Waits self.now (plan_page plan.now) disk result }
    {
        let name = match *plan {
            Plan::Read(name) => name,
            Plan::Push(name) => name,
        };
        if let Some(frame) = self.names.find(name) {
            if let Some(seat) = self.locks.holder(frame) {
                return Some(Hold::Page(seat));
            }
        }
        self.bays.holder(disk).map(Hold::Disk)
    }

    /// What a plan waits for whose page nobody has locked: the seat that has the disk, if one does. The page needs no look.
    pub fn disk_ready(&self, disk: u32) -> Option<Hold>
        requires { bay_at self.now.bays disk ≢ missing }
        ensures { (name : PageName) → holder_of self.now name ≡ None
            → Waits self.now name disk result }
    {
        self.bays.holder(disk).map(Hold::Disk)
    }

    /// How many frames there are.
    pub fn frame_count(&self) -> u32
        ensures { result ≡ length self.now.frames }
    {
        self.frames
    }

    /// A frame whose page can be pushed or released; None where there is none.
    ///
    /// It looks at the frames in order, from the one behind the hand, so that successive searches go round the frames.
    pub fn victim(&self) -> Option<u32>
        ensures { ChoosesFrame self.now result }
    {
        let next = self.hand + 1;
        match self.victim_in(next, self.frames) {
            Some(frame) => Some(frame),
            None => self.victim_in(0, next),
        }
    }

    /// The frame that lies so many frames behind the hand, round the frames.
    pub fn frame_behind(&self, distance: u32) -> u32
        requires { distance < length self.now.frames }
        ensures { result < length self.now.frames }
    {
        let ahead = self.frames - distance;
        if self.hand < ahead {
            self.hand + distance
        } else {
            self.hand - ahead
        }
    }

    /// The hand goes to a frame: the next search for a victim begins behind it. A transfer that failed moves it, too.
    pub fn move_hand(&mut self, frame: u32)
        requires { frame < length self.old.frames }
        ensures { self.new ≡ self.old }
    {
        self.hand = frame;
    }

    fn victim_in(&self, from: u32, to: u32) -> Option<u32>
        requires { to ≤ length self.now.frames }
        ensures some { IfSome result (IsVictim self.now) }
        ensures none { result ≡ None → (frame : ℕ) → from ≤ frame → frame < to
            → IsVictim self.now frame → ⊥ }
    {
        for frame in from..to {
            if self.is_victim(frame) {
                return Some(frame);
            }
        }
        None
    }

    /// Whether the page in a frame can be pushed or released.
    pub fn is_victim(&self, frame: u32) -> bool
        requires { frame < length self.now.frames }
        ensures { IsTrue result ↔ IsVictim self.now frame }
    {
        self.core.is_home(frame) && !self.lists.listed(frame) && !self.locks.kept(frame)
    }
}
