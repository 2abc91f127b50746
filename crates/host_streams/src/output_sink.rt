//! A sink over an output.
ghost use Rattle.std.specs.Prelude.{◌≡◌};
ghost use Rattle.block_device.specs.MemSeen.{one_more};

use crate::byte_output::ByteOutput;
use block_device::{Failed, Sink};
use std::marker::Model;

/// An output as a sink, which counts the writes that fail. It tells what it took where its output does. A
/// write is one call of the output, so write long pieces. One that takes no byte of a piece that isn't empty,
/// is interrupted or fails otherwise is a failure that is counted, and the sink can be written again after it.
#[derive(Drop)]
pub struct OutputSink<O: ByteOutput> {
    output: O,
    faults: u64,
}

impl<O: ByteOutput> Model for OutputSink<O> {
    ghost use Rattle.block_device.specs.StreamSeen.{SinkSeen};

    ghost Value = { SinkSeen };

    ghost view = { λ sink. record { written = O.written sink.output; faults = sink.faults } };
}

impl<O: ByteOutput> OutputSink<O> {
    /// A sink over an output, with no fault yet.
    pub fn new(output: O) -> OutputSink<O>
        ensures { result ≡ record { written = O.written output; faults = 0 } }
    {
        OutputSink { output, faults: 0 }
    }

    /// The output.
    pub fn into_output(self) -> O
        ensures { O.written result ≡ self.written }
    {
        self.output
    }

    // Counts a fault.
    fn fail(&mut self) -> Failed
        ensures { self.new ≡ record self.old { faults = one_more self.old.faults } }
    {
        self.faults = self.faults.saturating_add(1);
        Failed
    }
}

impl<O: ByteOutput> Sink for OutputSink<O> {
    ghost seen = { λ sink. sink };

    fn faults(&self) -> u64 {
        self.faults
    }

    fn write(&mut self, from: &[u8]) -> Result<usize, Failed> {
        match self.output.write(from) {
            Ok(0) if !from.is_empty() => Err(self.fail()),
            Ok(count) => Ok(count),
            Err(_) => Err(self.fail()),
        }
    }
}
