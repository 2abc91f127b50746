//! Standard input and output.
ghost use Rattle.std.specs.Prelude.{◌≡◌};
ghost use Rattle.block_device.specs.MemSeen.{one_more};

use crate::failing::one_more;
use crate::{Failed, Sink, Source};
use std::io::{Read, Stdin, Stdout, Write};
use std::marker::Model;

/// Standard input as a source. It tells nothing of what is to come. Contracts see its count of faults.
#[derive(Drop)]
pub struct HostSource {
    input: Stdin,
    faults: u64,
}

impl Model for HostSource {
    ghost use Rattle.std.specs.Prelude.{ℕ};

    ghost Value = { ℕ };

    ghost view = { λ source. source.faults };
}

impl HostSource {
    /// Standard input, with no fault yet.
    pub fn new(input: Stdin) -> HostSource
        ensures { result ≡ 0 }
    {
        HostSource { input, faults: 0 }
    }
}

impl Source for HostSource {
    ghost use Rattle.std.specs.Prelude.{None};

    ghost seen = { λ faults. record { rest = None; faults = faults } };

    fn faults(&self) -> u64 {
        self.faults
    }

    fn read(&mut self, into: &mut [u8]) -> Result<usize, Failed> {
        match self.input.read(into) {
            Ok(count) => Ok(count),
            Err(_) => {
                self.faults = one_more(self.faults);
                Err(Failed)
            }
        }
    }
}

/// Standard output as a sink. It tells nothing of what it took. Contracts see its count of faults.
///
/// Each write is one call of the system, so write long pieces.
#[derive(Drop)]
pub struct HostSink {
    output: Stdout,
    faults: u64,
}

impl Model for HostSink {
    ghost use Rattle.std.specs.Prelude.{ℕ};

    ghost Value = { ℕ };

    ghost view = { λ sink. sink.faults };
}

impl HostSink {
    /// Standard output, with no fault yet.
    pub fn new(output: Stdout) -> HostSink
        ensures { result ≡ 0 }
    {
        HostSink { output, faults: 0 }
    }

    // Counts a fault.
    fn fail(&mut self) -> Failed
        ensures { self.new ≡ one_more self.old }
    {
        self.faults = one_more(self.faults);
        Failed
    }
}

impl Sink for HostSink {
    ghost use Rattle.std.specs.Prelude.{None};

    ghost seen = { λ faults. record { written = None; faults = faults } };

    fn faults(&self) -> u64 {
        self.faults
    }

    // A write of no byte of a piece that isn't empty is a failure too.
    fn write(&mut self, from: &[u8]) -> Result<usize, Failed> {
        match self.output.write(from) {
            Ok(0) if !from.is_empty() => Err(self.fail()),
            Ok(count) => Ok(count),
            Err(_) => Err(self.fail()),
        }
    }
}
