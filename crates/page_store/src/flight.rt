//! A page on its way to or from its disk.
ghost use Rattle.std.specs.Prelude.{◌≡◌, ◌↔◌, ℕ, ◌+◌, ◌<◌, ◌≤◌, true, false, length, IsTrue};
ghost use Rattle.block_device.specs.Counts.{HasRisen, HasCause};
ghost use Rattle.block_device.specs.DiskSeen.{Writes, DiskSeen};
ghost use Rattle.page_store.specs.Bytes.{clip};
ghost use Rattle.page_store.specs.Flight.{IsPerformed, note_of, fresh, failed, outcome_of, IsReadClipped, file_push_of};
ghost use Rattle.page_store.specs.Seen.{StoreSeen};
ghost use Rattle.page_store.specs.Out.{IsFlightOf};

use crate::place::SWAP_OBJECT;
use block_device::{Disk, Failed};
use core_arena::Frame;
use page_hash::PageName;
use std::marker::Model;

/// How far a transfer is.
#[derive(Clone, Copy, PartialEq, Eq, Debug)]
pub enum Stage {
    Fresh,
    Done,
    Failed,
}

/// A page on its way, with the disk and the frame, which belong to whoever has the flight.
#[derive(Drop)]
pub struct Flight<D: Disk> {
    pub(crate) seat: u32,
    pub(crate) number: u32,
    pub(crate) disk: D,
    pub(crate) name: PageName,
    pub(crate) block: u32,
    pub(crate) valid: u32,
    pub(crate) frame: Frame,
    pub(crate) before: u64,
    pub(crate) writes: bool,
    pub(crate) stage: Stage,
}

impl<D: Disk> Model for Flight<D> {
    ghost use Rattle.std.specs.Prelude.{◌≡◌, ◌<◌, ◌≤◌, length};
    ghost use Rattle.page_store.specs.Flight.{FlightSeen};
    ghost use Rattle.page_store.specs.Stages.{outcome_at};

    ghost Value = { FlightSeen };

    ghost view = { λ f. record {
      seat = f.seat;
      number = f.number;
      disk = D.seen f.disk;
      writes = f.writes;
      name = f.name;
      block = f.block;
      valid = f.valid;
      origin = f.frame.origin;
      frame = f.frame.number;
      bytes = f.frame.bytes;
      before = f.before;
      outcome = outcome_at f.stage;
    } };

    ghost invariant = { λ f. (f.block < (D.seen f.disk).size) × (f.valid ≤ 4096) };
}

impl<D: Disk> Flight<D> {
    /// Makes the transfer, by one call of the disk.
    pub fn perform(&mut self) -> Result<(), Failed>
        requires { self.old.outcome ≡ fresh }
        ensures performed { IsPerformed (note_of self.old) self.new }
        ensures outcome { self.new.outcome ≡ outcome_of result }
        ensures store { (s : StoreSeen) → IsFlightOf s self.old → IsFlightOf s self.new }
        // The disk was called, and a failure has its cause.
        ensures calls { HasRisen self.old.disk.calls self.new.disk.calls }
        ensures cause { HasCause self.old.disk.faults self.new.disk.faults result }
    {
        self.before = self.disk.faults();
        let result = if self.writes {
            write_page(&mut self.disk, self.block, self.valid, &self.frame)
        } else {
            read_page(&mut self.disk, self.block, self.valid, &mut self.frame)
        };
        self.stage = match result {
            Ok(()) => Stage::Done,
            Err(_) => Stage::Failed,
        };
        whole(&self.frame);
        result
    }

    /// Whether the transfer was made and failed.
    pub fn has_failed(&self) -> bool
        ensures { IsTrue result ↔ (self.now.outcome ≡ failed) }
    {
        matches!(self.stage, Stage::Failed)
    }

    /// The disk's number, and its count of faults before the transfer and now.
    pub fn counts(&self) -> (u32, u64, u64)
        ensures number { result.0 ≡ self.now.number }
        ensures before { result.1 ≡ self.now.before }
        ensures after { result.2 ≡ self.now.disk.faults }
    {
        (self.number, self.before, self.disk.faults())
    }

    /// The page of a file that the transfer writes, and its block; none for any other transfer.
    pub fn file_push(&self) -> Option<(PageName, u32)>
        ensures { result ≡ file_push_of self.now }
    {
        if self.writes && self.name.object != SWAP_OBJECT {
            Some((self.name, self.block))
        } else {
            None
        }
    }
}

/// A frame has 4096 bytes.
fn whole(frame: &Frame)
    ensures { length frame.now.bytes ≡ 4096 }
{
    let _ = frame.bytes();
}

fn write_page<D: Disk>(disk: &mut D, block: u32, valid: u32, frame: &Frame) -> Result<(), Failed>
    requires block { block < (D.seen disk.old).size }
    requires valid { valid ≤ 4096 }
    ensures { Writes (D.seen disk.old) (D.seen disk.new) block
        (clip valid frame.now.bytes) result }
{
    let bytes = frame.bytes();
    if valid as usize == bytes.len() {
        return disk.write(block, bytes);
    }
    let page = clip(bytes, valid as usize);
    disk.write(block, &page)
}

// The first valid bytes, and zeros after them.
fn clip(bytes: &[u8], valid: usize) -> [u8; 4096]
    requires within { valid ≤ 4096 }
    requires size { length bytes.now ≡ 4096 }
    ensures { result ≡ clip valid bytes.now }
{
    let mut page = [0u8; 4096];
    page[..valid].copy_from_slice(&bytes[..valid]);
    page
}

fn read_page<D: Disk>(disk: &mut D, block: u32, valid: u32, frame: &mut Frame) -> Result<(), Failed>
    requires block { block < (D.seen disk.old).size }
    requires valid { valid ≤ 4096 }
    ensures reads { IsReadClipped (D.seen disk.old)
        (D.seen disk.new) block valid frame.new.bytes result }
    ensures number { frame.new.number ≡ frame.old.number }
    ensures origin { frame.new.origin ≡ frame.old.origin }
{
    let bytes = frame.bytes_mut();
    let result = disk.read(block, bytes);
    bytes[valid as usize..].fill(0);
    result
}
