//! A source over an input.
ghost use Rattle.std.specs.Prelude.{◌≡◌};

use crate::byte_input::ByteInput;
use block_device::{Failed, Source};
use std::marker::Model;

/// An input as a source, which counts the reads that fail. It tells what is to come where its input does. A
/// read is one call of the input; one that is interrupted or fails otherwise is a failure that is counted,
/// and the source can be read again after it.
#[derive(Drop)]
pub struct InputSource<I: ByteInput> {
    input: I,
    faults: u64,
}

impl<I: ByteInput> Model for InputSource<I> {
    ghost use Rattle.block_device.specs.StreamSeen.{SourceSeen};

    ghost Value = { SourceSeen };

    ghost view = { λ source. record { rest = I.rest source.input; faults = source.faults } };
}

impl<I: ByteInput> InputSource<I> {
    /// A source over an input, with no fault yet.
    pub fn new(input: I) -> InputSource<I>
        ensures { result ≡ record { rest = I.rest input; faults = 0 } }
    {
        InputSource { input, faults: 0 }
    }

    /// The input.
    pub fn into_input(self) -> I
        ensures { I.rest result ≡ self.rest }
    {
        self.input
    }
}

impl<I: ByteInput> Source for InputSource<I> {
    ghost seen = { λ source. source };

    fn faults(&self) -> u64 {
        self.faults
    }

    fn read(&mut self, into: &mut [u8]) -> Result<usize, Failed> {
        match self.input.read(into) {
            Ok(count) => Ok(count),
            Err(_) => {
                self.faults = self.faults.saturating_add(1);
                Err(Failed)
            }
        }
    }
}
