//! The locks of the frames: for each frame who holds it, how many keep it, and its bits.
#![tactic(auto)]

ghost use Rattle.std.specs.Prelude.{◌≡◌, ◌+◌, ◌-◌, ◌^◌, ◌<◌, true, false, Some, None, IsSome, IfOk, nat_lt, length, replicate, slice_set};
ghost use Rattle.page_lock.specs.Rows.{row_at, clear_row, with_bits, with_bits_added, with_use};

use filled::filled;
use std::alloc::{AllocError, Global};
use std::marker::Model;

/// Want of memory.
pub type OutOfMemory = AllocError;

/// What is kept of one frame.
#[derive(Clone, Copy, PartialEq, Debug)]
pub struct Row {
    /// The seat that holds the frame's lock, if one does.
    pub holder: Option<u32>,
    /// How many keep the frame from being taken for another use.
    pub keeps: u32,
    /// Whether the page was given up while its lock was held.
    pub gone: bool,
    /// Whether the page was used.
    pub referenced: bool,
    /// Whether the page differs from what its disk has.
    pub modified: bool,
    /// Whether the page was written since its last snapshot went out.
    pub rewritten: bool,
    /// The frame that is away with a snapshot of this frame's page.
    pub snapshot: Option<u32>,
    /// The frame whose page this frame, which is away, has a snapshot of.
    pub source: Option<u32>,
}

impl Row {
    /// Nobody holds the frame or keeps it, and no bit is set.
    pub const CLEAR: Row = Row {
        holder: None,
        keeps: 0,
        gone: false,
        referenced: false,
        modified: false,
        rewritten: false,
        snapshot: None,
        source: None,
    };
}

/// A row for each frame, numbered from 0. Each call takes constant time.
#[derive(Drop)]
pub struct PageLocks {
    rows: Vec<Row>,
}

impl Model for PageLocks {
    ghost use Rattle.std.specs.Prelude.{List};
    ghost use Rattle.page_lock.specs.declared.Row.{Row};

    ghost Value = { List Row };

    ghost view = { λ p. p.rows.items };
}

impl PageLocks {
    /// The locks of so many frames, all clear. The time grows with their number.
    pub fn new(alloc: Global, frames: u32) -> Result<PageLocks, OutOfMemory>
        ensures { IfOk result (λ locks. locks ≡ replicate frames clear_row) }
    {
        Ok(PageLocks {
            rows: filled(alloc, Row::CLEAR, frames as usize)?,
        })
    }

    /// The whole row of a frame.
    pub fn row(&self, frame: u32) -> Row
        requires { frame < length self.now }
        ensures { result ≡ row_at self.now frame }
    {
        self.rows[frame as usize]
    }

    /// Gives the frame's lock to a seat.
    pub fn lock(&mut self, frame: u32, seat: u32)
        requires frame { frame < length self.old }
        requires unheld { (row_at self.old frame).holder ≡ None }
        ensures { self.new ≡ slice_set self.old frame (record
            (row_at self.old frame) { holder = Some seat }) }
    {
        self.rows[frame as usize].holder = Some(seat);
    }

    /// Takes the lock back, and says whether the page was given up meanwhile.
    pub fn unlock(&mut self, frame: u32) -> bool
        requires frame { frame < length self.old }
        requires held { IsSome (row_at self.old frame).holder }
        ensures gone { result ≡ (row_at self.old frame).gone }
        ensures new { self.new ≡ slice_set self.old frame (record
            (row_at self.old frame) { holder = None; gone = false }) }
    {
        let row = &mut self.rows[frame as usize];
        let gone = row.gone;
        row.holder = None;
        row.gone = false;
        gone
    }

    /// Gives up the page of a frame whose lock is held. Whoever takes the lock back is told.
    pub fn abort(&mut self, frame: u32)
        requires frame { frame < length self.old }
        requires held { IsSome (row_at self.old frame).holder }
        ensures { self.new ≡ slice_set self.old frame (record
            (row_at self.old frame) { gone = true }) }
    {
        self.rows[frame as usize].gone = true;
    }

    /// The seat that holds the frame's lock; None exactly where nobody does.
    pub fn holder(&self, frame: u32) -> Option<u32>
        requires { frame < length self.now }
        ensures { result ≡ (row_at self.now frame).holder }
    {
        self.rows[frame as usize].holder
    }

    /// Keeps the frame from being taken for another use, once more.
    pub fn keep(&mut self, frame: u32)
        requires frame { frame < length self.old }
        requires room { (row_at self.old frame).keeps < 2 ^ 32 - 1 }
        ensures { self.new ≡ slice_set self.old frame (record (row_at self.old frame) {
          keeps =
              (row_at self.old frame).keeps + 1;
        }) }
    {
        self.rows[frame as usize].keeps += 1;
    }

    /// Undoes one `keep`.
    pub fn unkeep(&mut self, frame: u32)
        requires frame { frame < length self.old }
        requires kept { 0 < (row_at self.old frame).keeps }
        ensures { self.new ≡ slice_set self.old frame (record (row_at self.old frame) {
          keeps =
              (row_at self.old frame).keeps - 1;
        }) }
    {
        self.rows[frame as usize].keeps -= 1;
    }

    /// Whether anybody keeps the frame.
    pub fn kept(&self, frame: u32) -> bool
        requires { frame < length self.now }
        ensures { result ≡ nat_lt 0 (row_at self.now frame).keeps }
    {
        self.rows[frame as usize].keeps > 0
    }

    /// Makes the frame's row this.
    pub fn set_row(&mut self, frame: u32, row: Row)
        requires { frame < length self.old }
        ensures { self.new ≡ slice_set self.old frame row }
    {
        self.rows[frame as usize] = row;
    }

    /// Sets both bits of the frame to these. A page that is modified counts as rewritten.
    pub fn set_bits(&mut self, frame: u32, referenced: bool, modified: bool)
        requires { frame < length self.old }
        ensures { self.new ≡ slice_set self.old frame (with_bits
            (row_at self.old frame) referenced modified) }
    {
        let row = &mut self.rows[frame as usize];
        row.referenced = referenced;
        row.modified = modified;
        row.rewritten = row.rewritten || modified;
    }

    /// Sets the bit of use of the frame to this, and no other.
    pub fn set_used(&mut self, frame: u32, referenced: bool)
        requires { frame < length self.old }
        ensures { self.new ≡ slice_set self.old frame (with_use
            (row_at self.old frame) referenced) }
    {
        let row = &mut self.rows[frame as usize];
        row.referenced = referenced;
    }

    /// Adds bits that were told of the frame's translations: only where these say that the page was written does it count as rewritten.
    pub fn add_bits(&mut self, frame: u32, referenced: bool, modified: bool)
        requires { frame < length self.old }
        ensures { self.new ≡ slice_set self.old frame (with_bits_added
            (row_at self.old frame) referenced modified) }
    {
        let row = &mut self.rows[frame as usize];
        row.referenced = row.referenced || referenced;
        row.modified = row.modified || modified;
        row.rewritten = row.rewritten || modified;
    }

    /// Whether the frame is referenced, and whether it is modified.
    pub fn bits(&self, frame: u32) -> (bool, bool)
        requires { frame < length self.now }
        ensures referenced { result.0 ≡ (row_at self.now frame).referenced }
        ensures modified { result.1 ≡ (row_at self.now frame).modified }
    {
        let row = self.rows[frame as usize];
        (row.referenced, row.modified)
    }

    /// Makes the frame's row clear: nobody holds it or keeps it, and no bit is set.
    pub fn clear(&mut self, frame: u32)
        requires { frame < length self.old }
        ensures { self.new ≡ slice_set self.old frame clear_row }
    {
        self.rows[frame as usize] = Row::CLEAR;
    }
}
