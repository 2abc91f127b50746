//! Zero objects by number.
ghost use Rattle.std.specs.Prelude.{◌≡◌, ◌<◌, ◌≤◌, ◌^◌, ℕ, [], length, replicate, Some, None, IsSome, IfOk, OnErr, slice_set, slice_index_or};
ghost use Rattle.zero_objects.specs.ZeroNumbers.{AreSameZeros, free_number};

use std::alloc::{AllocError, Global};
use std::marker::Model;

/// The anon map of each zero object, by the object's number: a list with a map, or none, at each number.
///
/// A new object gets the least number that is none's, so the list is at most one number longer than there ever were objects at
/// once.
#[derive(Drop)]
pub struct ZeroObjects {
    maps: Vec<Option<u32>>,
}

impl Model for ZeroObjects {
    ghost use Rattle.std.specs.Prelude.{List, Option, ℕ, length, ◌≤◌, ◌^◌};

    ghost Value = { List (Option ℕ) };

    ghost view = { λ s. s.maps.items };

    ghost invariant = { λ s. length s.maps.items ≤ 2 ^ 32 };
}

impl ZeroObjects {
    /// No zero object. It takes no memory, and keeps the allocator for later calls.
    pub fn new(alloc: Global) -> ZeroObjects
        ensures { result ≡ [] }
    {
        ZeroObjects {
            maps: Vec::new(alloc),
        }
    }

    /// The anon map of an object; None where there is no such object. Constant time.
    pub fn map(&self, number: u32) -> Option<u32>
        ensures { result ≡ slice_index_or self.now number None }
    {
        *self.maps.get(number as usize)?
    }

    /// Sees to it that a number is free for `add`. The only error is want of memory, or of numbers; then nothing changed. Time:
    /// the numbers.
    pub fn reserve(&mut self) -> Result<(), AllocError>
        ensures free { IfOk result (λ _. IsSome (free_number self.new)) }
        ensures same { AreSameZeros self.old self.new }
        ensures err { OnErr result (self.new ≡ self.old) }
    {
        if self.free_number().is_some() {
            return Ok(());
        }
        if self.maps.len() > u32::MAX as usize {
            return Err(AllocError);
        }
        self.maps.push(None)?;
        Ok(())
    }

    /// A new object with this map, under the least number that is free. Takes no memory. Time: the numbers.
    pub fn add(&mut self, map: u32) -> u32
        requires free { IsSome (free_number self.old) }
        ensures number { free_number self.old ≡ Some result }
        ensures new { self.new ≡ slice_set self.old result (Some map) }
    {
        let Some(number) = self.free_number() else {
            unreachable!();
        };
        self.maps[number as usize] = Some(map);
        number
    }

    /// The object is gone, and its number is free. Constant time.
    pub fn remove(&mut self, number: u32)
        requires there { number < length self.old }
        ensures { self.new ≡ slice_set self.old number None }
    {
        self.maps[number as usize] = None;
    }

    /// A count for each number, where nothing is counted yet. The only error is want of memory. Time and memory: the numbers.
    pub fn tally(&self) -> Result<Vec<u32>, AllocError>
        ensures counts { IfOk result (λ counts. counts.items ≡ replicate (length self.now) 0) }
        ensures few { IfOk result (λ counts. length counts.items ≤ 2 ^ 32) }
    {
        let alloc = *self.maps.allocator();
        vec![in alloc; 0; self.maps.len()]
    }

    // The least number that is free.
    fn free_number(&self) -> Option<u32>
        ensures { result ≡ free_number self.now }
    {
        for number in 0..self.maps.len() {
            if self.maps[number].is_none() {
                return Some(number as u32);
            }
        }
        None
    }
}
