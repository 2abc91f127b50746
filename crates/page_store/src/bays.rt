//! The disks by number, each at home or out with a seat.
ghost use Rattle.std.specs.Prelude.{◌≡◌, ◌≢◌, ℕ, ◌<◌, List, length, slice_set, MatchOption, IfOk, replicate};
ghost use Rattle.block_device.specs.DiskSeen.{DiskSeen};
ghost use Rattle.page_store.specs.Bays.{bay_at, home, out, missing, home_faults, IsStill};

use block_device::Disk;
use std::alloc::{AllocError, Global};
use std::marker::Model;
use std::mem;

/// How many numbers of disks there are: 0 to 7 for files, and 8 for swap.
pub const BAYS: usize = 9;

/// Where a disk is.
#[derive(Drop)]
pub enum Bay<D> {
    Missing,
    Home(D),
    Out(u32),
}

/// The disks by number.
#[derive(Drop)]
pub struct Bays<D: Disk> {
    bays: Vec<Bay<D>>,
}

impl<D: Disk> Model for Bays<D> {
    ghost use Rattle.std.specs.Prelude.{List, map};
    ghost use Rattle.page_store.specs.Bays.{BaySeen, bay_seen};

    ghost Value = { List BaySeen };

    ghost view = { λ a. map (bay_seen D.seen) a.bays.items };
}

impl<D: Disk> Bays<D> {
    /// No disks.
    pub fn new(alloc: Global) -> Result<Bays<D>, AllocError>
        ensures { IfOk result (λ bays. bays ≡ replicate 9 missing) }
    {
        let mut bays = Vec::with_capacity(alloc, BAYS)?;
        for _made in 0..BAYS {
            bays.push_reserved(Bay::Missing);
        }
        Ok(Bays { bays })
    }

    /// Takes a disk out for a seat.
    pub fn take(&mut self, number: u32, seat: u32) -> D
        requires { (d : DiskSeen) × (bay_at self.old number ≡ home d) }
        ensures disk { bay_at self.old number ≡ home (D.seen result) }
        ensures new { self.new ≡ slice_set self.old number (out seat) }
    {
        match mem::replace(&mut self.bays[number as usize], Bay::Out(seat)) {
            Bay::Home(disk) => disk,
            Bay::Missing => unreachable!(),
            Bay::Out(_) => unreachable!(),
        }
    }

    /// Puts a disk at home.
    pub fn put(&mut self, number: u32, disk: D)
        requires { number < length self.old }
        ensures { self.new ≡ slice_set self.old number (home (D.seen disk)) }
    {
        self.bays[number as usize] = Bay::Home(disk);
    }

    /// Puts back a disk that is out. That there is none in its place is told first, so that none is looked for and dropped.
    pub fn bring_back(&mut self, number: u32, disk: D)
        requires { (seat : ℕ) × (bay_at self.old number ≡ out seat) }
        ensures { self.new ≡ slice_set self.old number (home (D.seen disk)) }
    {
        match &self.bays[number as usize] {
            Bay::Out(_) => {}
            Bay::Home(_) => unreachable!(),
            Bay::Missing => unreachable!(),
        }
        self.put(number, disk);
    }

    /// Takes a disk out for good.
    pub fn remove(&mut self, number: u32) -> Option<D>
        requires within { number < length self.old }
        requires still { IsStill (bay_at self.old number) }
        ensures disk { MatchOption result (bay_at self.old number
            ≡ missing) (λ disk. bay_at self.old number ≡ home (D.seen disk)) }
        ensures new { self.new ≡ slice_set self.old number missing }
    {
        match mem::replace(&mut self.bays[number as usize], Bay::Missing) {
            Bay::Home(disk) => Some(disk),
            Bay::Missing => None,
            Bay::Out(_) => unreachable!(),
        }
    }

    /// How many faults a disk that is home has counted; None where none is home under this number.
    pub fn faults(&self, number: u32) -> Option<u64>
        requires { number < length self.now }
        ensures { result ≡ home_faults (bay_at self.now number) }
    {
        match &self.bays[number as usize] {
            Bay::Home(disk) => Some(disk.faults()),
            Bay::Missing => None,
            Bay::Out(_) => None,
        }
    }

    /// The seat that has a disk; None where the disk is home.
    pub fn holder(&self, number: u32) -> Option<u32>
        requires { bay_at self.now number ≢ missing }
        ensures { MatchOption result ((d : DiskSeen)
            × (bay_at self.now number ≡ home d)) (λ seat. bay_at self.now number ≡ out seat) }
    {
        match &self.bays[number as usize] {
            Bay::Home(_) => None,
            Bay::Out(seat) => Some(*seat),
            Bay::Missing => unreachable!(),
        }
    }
}
