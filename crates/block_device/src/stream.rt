//! Sources of bytes and sinks for text.
ghost use Rattle.std.specs.Prelude.{◌≡◌};
ghost use Rattle.block_device.specs.StreamSeen.{SourceSeen, SinkSeen, ReadsNext, WritesNext};

use crate::Failed;

/// Where bytes come from, as standard input. A source need not tell what is still to come.
pub trait Source {
    ghost seen: { Self → SourceSeen };

    /// How often a read has failed. The count never falls, and stays at 2^64 - 1.
    fn faults(&self) -> u64
        ensures { result ≡ (seen self.now).faults };

    /// Reads the next bytes into the front of `into`, and says how many. Where `into` isn't empty, 0 is
    /// the end of the input. After `Failed` nothing was taken, and what `into` holds is arbitrary.
    fn read(&mut self, into: &mut [u8]) -> Result<usize, Failed>
        ensures { ReadsNext (seen self.old) (seen self.new) into.new result };
}

/// Where text goes, as standard output. A sink need not tell what it took.
pub trait Sink {
    ghost seen: { Self → SinkSeen };

    /// How often a write has failed. The count never falls, and stays at 2^64 - 1.
    fn faults(&self) -> u64
        ensures { result ≡ (seen self.now).faults };

    /// Takes a front of `from`, and says how many bytes. Of a piece that isn't empty it takes at least
    /// one byte, or fails; after `Failed` nothing was taken.
    fn write(&mut self, from: &[u8]) -> Result<usize, Failed>
        ensures { WritesNext (seen self.old) (seen self.new) from.now result };
}
