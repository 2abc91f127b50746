//! Slots for anonymous pages: how many map places hold each, which were pushed to the swap disk,
//! and how many are reserved.
#![tactic(auto)]

ghost use Rattle.std.specs.Prelude.{◌≡◌, ◌+◌, ◌-◌, ◌^◌, ◌<◌, ◌≤◌, ◌==◌, ◌↔◌, List, length, position, Some, IsTrue, IsErr, IfOk, OnOk, OnErr, slice_set, slice_index_or, true, false};
ghost use Rattle.std.specs.Bool.{OnTrue, OnFalse};
ghost use Rattle.anon_slots.specs.Slots.{AnonSlotsSeen, unused_slots, slots_in_use, count_at, IsHeldSlot, IsSoundAnonSlots, with_count, with_new_slot};

use filled::filled;
use std::alloc::{AllocError, Global};
use std::marker::Model;
use swap_slots::SwapSlots;
use thiserror::Error;

/// A reservation was refused: it would be more than the slots of the swap area.
#[derive(Clone, Copy, Debug, PartialEq, Eq, Error)]
#[error("no swap space is left to reserve")]
pub struct NoSwap;

/// The anonymous pages' slots, seen as the count of each slot, whether it was pushed, and the
/// reservation, in slots.
#[derive(Drop)]
pub struct AnonSlots {
    area: SwapSlots,
    counts: Vec<u32>,
    swapped: Vec<bool>,
    reserved: u32,
    in_use: u32,
}

impl Model for AnonSlots {
    ghost use Rattle.anon_slots.specs.Slots.{AnonSlotsSeen, IsKeptAnonSlots};

    ghost Value = { AnonSlotsSeen };

    ghost view = { λ s. record {
      counts = s.counts.items;
      swapped = s.swapped.items;
      reserved = s.reserved;
    } };

    ghost invariant = { λ s. IsKeptAnonSlots s.area s.counts.items s.swapped.items s.reserved s.in_use };
}

impl AnonSlots {
    /// Slots numbered from 0, none in use and none reserved. Later calls take no memory.
    pub fn new(alloc: Global, slots: u32) -> Result<AnonSlots, AllocError>
        ensures new { IfOk result (λ made. made ≡ unused_slots slots) }
        ensures sound { IfOk result IsSoundAnonSlots }
    {
        let area = SwapSlots::new(alloc, slots)?;
        let counts = filled(alloc, 0u32, slots as usize)?;
        let swapped = filled(alloc, false, slots as usize)?;
        Ok(AnonSlots {
            area,
            counts,
            swapped,
            reserved: 0,
            in_use: 0,
        })
    }

    /// How many slots there are.
    pub fn slots(&self) -> u32
        ensures value { result ≡ length self.now.counts }
        ensures sound { IsSoundAnonSlots self.now }
    {
        self.counts.len() as u32
    }

    /// How many slots are reserved, those in use among them.
    pub fn reserved(&self) -> u32
        ensures value { result ≡ self.now.reserved }
        ensures sound { IsSoundAnonSlots self.now }
    {
        self.reserved
    }

    /// How many slots are in use, in constant time.
    pub fn in_use(&self) -> u32
        ensures value { result ≡ slots_in_use self.now }
        ensures sound { IsSoundAnonSlots self.now }
    {
        self.in_use
    }

    /// Reserves `n` more slots, so that as many calls of `make` have one. A mapping or a fork
    /// reserves a slot for each page that it may have to copy, whether or not it ever does.
    pub fn reserve(&mut self, n: u32) -> Result<(), NoSwap>
        ensures refused { IsErr result ↔ (length self.old.counts < self.old.reserved + n) }
        ensures ok { OnOk result (self.new ≡ record self.old { reserved = self.old.reserved + n }) }
        ensures err { OnErr result (self.new ≡ self.old) }
        ensures sound { IsSoundAnonSlots self.new }
    {
        if n > self.slots() - self.reserved {
            return Err(NoSwap);
        }
        self.reserved += n;
        Ok(())
    }

    /// Gives up the reservation of `n` slots.
    pub fn unreserve(&mut self, n: u32)
        requires { n ≤ self.old.reserved - slots_in_use self.old }
        ensures new { self.new ≡ record self.old { reserved = self.old.reserved - n } }
        ensures sound { IsSoundAnonSlots self.new }
    {
        self.reserved -= n;
    }

    /// Takes the least slot that isn't in use for one map place. Nothing of its page was pushed.
    /// Time as `SwapSlots::alloc`.
    pub fn make(&mut self) -> u32
        requires { slots_in_use self.old < self.old.reserved }
        ensures least { position (λ count. count == 0) self.old.counts ≡ Some result }
        ensures free { count_at self.old result ≡ 0 }
        // What it leaves.
        ensures new { self.new ≡ with_new_slot self.old result }
        ensures in_use { slots_in_use self.new ≡ slots_in_use self.old + 1 }
        ensures sound { IsSoundAnonSlots self.new }
    {
        let slot = self.area.alloc().unwrap();
        self.counts[slot as usize] = 1;
        self.swapped[slot as usize] = false;
        self.in_use += 1;
        slot
    }

    /// Counts one more map place that holds a slot, as fork does.
    pub fn dup(&mut self, slot: u32)
        requires in_use { IsHeldSlot self.old slot }
        requires fits { count_at self.old slot < 2 ^ 32 - 1 }
        ensures new { self.new ≡ with_count self.old slot (count_at self.old slot + 1) }
        ensures in_use { slots_in_use self.new ≡ slots_in_use self.old }
        ensures sound { IsSoundAnonSlots self.new }
    {
        self.counts[slot as usize] += 1;
    }

    /// Counts one map place less that holds a slot, and answers whether it was the last: then the
    /// slot is free.
    pub fn drop_one(&mut self, slot: u32) -> bool
        requires { IsHeldSlot self.old slot }
        ensures last { IsTrue result ↔ (count_at self.old slot ≡ 1) }
        ensures new { self.new ≡ with_count self.old slot (count_at self.old slot - 1) }
        // How many are in use.
        ensures freed { OnTrue result (slots_in_use self.new + 1 ≡ slots_in_use self.old) }
        ensures kept { OnFalse result (slots_in_use self.new ≡ slots_in_use self.old) }
        ensures sound { IsSoundAnonSlots self.new }
    {
        let left = self.counts[slot as usize] - 1;
        self.counts[slot as usize] = left;
        if left != 0 {
            return false;
        }
        self.area.free(slot);
        self.in_use -= 1;
        true
    }

    /// How many map places hold a slot: 0 where it isn't in use.
    pub fn count(&self, slot: u32) -> u32
        requires { slot < length self.now.counts }
        ensures { result ≡ count_at self.now slot }
    {
        self.counts[slot as usize]
    }

    /// Whether a page of this slot was pushed to the swap disk since the slot was made.
    pub fn swapped(&self, slot: u32) -> bool
        requires { slot < length self.now.counts }
        ensures { result ≡ slice_index_or self.now.swapped slot false }
    {
        self.swapped[slot as usize]
    }

    /// Notes that a page of this slot was pushed to the swap disk.
    pub fn set_swapped(&mut self, slot: u32)
        requires { slot < length self.old.counts }
        ensures new { self.new
            ≡ record self.old { swapped = slice_set self.old.swapped slot true } }
        ensures sound { IsSoundAnonSlots self.new }
    {
        self.swapped[slot as usize] = true;
    }
}
