//! An input in memory.
ghost use Rattle.std.specs.Prelude.{◌≡◌, ◌≤◌, ◌++◌, length, take, drop};

use crate::byte_input::ByteInput;
use crate::stream_flaw::{Flaws, StreamFlaw};
use std::io;
use std::marker::Model;

/// An input in memory, which tells the bytes that are still to come. The flaw of its first call comes first in
/// the list that it is given; calls behind the list have none.
#[derive(Drop)]
pub struct MemInput {
    bytes: Vec<u8>,
    at: usize,
    flaws: Flaws,
}

impl Model for MemInput {
    ghost use Rattle.std.specs.Prelude.{ℕ, List, ◌≤◌, length, drop};

    ghost Value = { List ℕ };

    ghost view = { λ input. drop input.at input.bytes.items };

    ghost invariant = { λ input. input.at ≤ length input.bytes.items };
}

impl MemInput {
    /// An input of these bytes, whose calls have these flaws.
    pub fn new(bytes: Vec<u8>, flaws: Vec<Option<StreamFlaw>>) -> MemInput
        ensures { result ≡ bytes.items }
    {
        MemInput {
            bytes,
            at: 0,
            flaws: Flaws::new(flaws),
        }
    }

    /// The bytes that are still to come.
    pub fn rest(&self) -> &[u8]
        ensures { result.now ≡ self.now }
    {
        &self.bytes[self.at..]
    }

    // Gives the next bytes, so many.
    fn give(&mut self, into: &mut [u8], count: usize)
        requires fits { count ≤ length into.old }
        requires there { count ≤ length self.old }
        ensures bytes { into.new ≡ take count self.old ++ drop count into.old }
        ensures new { self.new ≡ drop count self.old }
    {
        into[..count].copy_from_slice(&self.bytes[self.at..self.at + count]);
        self.at += count;
    }
}

impl ByteInput for MemInput {
    ghost use Rattle.std.specs.Prelude.{Some};

    ghost rest = { λ input. Some input };

    fn read(&mut self, into: &mut [u8]) -> io::Result<usize> {
        let wanted = into.len().min(self.rest().len());
        let count = self.flaws.moved(wanted)?;
        self.give(into, count);
        Ok(count)
    }
}
