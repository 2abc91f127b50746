//! An output in memory.
ghost use Rattle.std.specs.Prelude.{◌≡◌, [], IfOk};

use crate::byte_output::ByteOutput;
use crate::stream_flaw::{Flaws, StreamFlaw};
use std::alloc::{AllocError, Global};
use std::io;
use std::marker::Model;

/// An output in memory with room for so many bytes, which tells what was written. Once it is full it writes
/// nothing more, and says so. The flaw of its first call comes first in the list that it is given; calls
/// behind the list have none.
#[derive(Drop)]
pub struct MemOutput {
    text: Vec<u8>,
    room: usize,
    flaws: Flaws,
}

impl Model for MemOutput {
    ghost use Rattle.std.specs.Prelude.{ℕ, List, ◌≤◌, length, vec_capacity};

    ghost Value = { List ℕ };

    ghost view = { λ output. output.text.items };

    ghost invariant = { λ output. (length output.text.items ≤ output.room)
        × (output.room ≤ vec_capacity output.text) };
}

impl MemOutput {
    /// An empty output with room for `room` bytes, whose calls have these flaws.
    pub fn new(
        alloc: Global,
        room: usize,
        flaws: Vec<Option<StreamFlaw>>,
    ) -> Result<MemOutput, AllocError>
        ensures { IfOk result (λ output. output ≡ []) }
    {
        Ok(MemOutput {
            text: Vec::with_capacity(alloc, room)?,
            room,
            flaws: Flaws::new(flaws),
        })
    }

    /// What was written.
    pub fn written(&self) -> &[u8]
        ensures { result.now ≡ self.now }
    {
        self.text.as_slice()
    }
}

impl ByteOutput for MemOutput {
    ghost use Rattle.std.specs.Prelude.{Some};

    ghost written = { λ output. Some output };

    fn write(&mut self, from: &[u8]) -> io::Result<usize> {
        let wanted = from.len().min(self.room - self.text.len());
        let count = self.flaws.moved(wanted)?;
        self.text.extend_from_slice(&from[..count]).unwrap();
        Ok(count)
    }
}
