//! The slots of the swap area: which are in use, and the least that isn't.
#![tactic(auto)]

ghost use Rattle.std.specs.Prelude.{◌≡◌, ◌<◌, Bool, List, length, replicate, position, not, IsTrue, IfOk, IfSome, IfNone, slice_set, slice_index_or, true, false};
ghost use Rattle.swap_slots.specs.Slots.{IsInUse};

mod bits;

use std::alloc::{AllocError, Global};
use std::marker::Model;

/// Which slots of the swap area are in use, seen as a list with `true` for each slot in use.
#[derive(Drop)]
pub struct SwapSlots {
    slots: u32,
    // One bit a slot, set where the slot is in use.
    words: Vec<u64>,
    // One bit a word of `words`, set where all 64 bits of that word are.
    full: Vec<u64>,
}

impl Model for SwapSlots {
    ghost use Rattle.std.specs.Prelude.{List, Bool};
    ghost use Rattle.swap_slots.specs.Bits.{flags, IsSoundSwapSlots};

    ghost Value = { List Bool };

    ghost view = { λ s. flags s.words.items s.slots };

    ghost invariant = { λ s. IsSoundSwapSlots s.slots s.words.items s.full.items };
}

impl SwapSlots {
    /// A swap area of `slots` slots, none in use. Later calls take no memory.
    pub fn new(alloc: Global, slots: u32) -> Result<SwapSlots, AllocError>
        ensures { IfOk result (λ made. made ≡ replicate slots false) }
    {
        let count = (slots as usize).div_ceil(64);
        let words = vec![in alloc; 0u64; count]?;
        let full = vec![in alloc; 0u64; count.div_ceil(64)]?;
        Ok(SwapSlots { slots, words, full })
    }

    /// Takes the least slot that isn't in use, if there is one. It looks at one word for each 4096
    /// slots, and two more.
    pub fn alloc(&mut self) -> Option<u32>
        ensures least { result ≡ position not self.old }
        ensures taken { IfSome result (λ slot. self.new ≡ slice_set self.old slot true) }
        ensures unchanged { IfNone result (self.new ≡ self.old) }
    {
        let slot = bits::first_free(&self.words, &self.full)?;
        if slot >= self.slots as usize {
            return None;
        }
        bits::take(self.words.as_mut_slice(), self.full.as_mut_slice(), slot);
        Some(slot as u32)
    }

    /// Gives a slot back, in constant time.
    pub fn free(&mut self, slot: u32)
        requires { IsInUse self.old slot }
        ensures { self.new ≡ slice_set self.old slot false }
    {
        bits::give(
            self.words.as_mut_slice(),
            self.full.as_mut_slice(),
            slot as usize,
        );
    }

    /// Whether a slot is in use, in constant time.
    pub fn is_in_use(&self, slot: u32) -> bool
        requires { slot < length self.now }
        ensures { result ≡ slice_index_or self.now slot false }
    {
        bits::is_set(&self.words, slot as usize)
    }
}
