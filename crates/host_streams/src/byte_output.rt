//! Where bytes go out.
ghost use Rattle.std.specs.Prelude.{ℕ, List, Option};
ghost use Rattle.host_streams.specs.ByteStreams.{WritesBytes};

use std::io::{Result, Stdout, Write};

/// Bytes that go out one after another. It need not tell what was written: clauses on bytes hold where they
/// are told.
pub trait ByteOutput: Drop {
    /// The bytes that were written, where it tells them.
    ghost written: { Self → Option (List ℕ) };

    /// Writes a front of `from`, and answers how many bytes it has. After an error nothing was written.
    fn write(&mut self, from: &[u8]) -> Result<usize>
        ensures { WritesBytes (written self.old) (written self.new) from.now result };
}

/// Standard output. It tells nothing. That a call does what its clauses say, no proof sees.
impl ByteOutput for Stdout {
    ghost use Rattle.std.specs.Prelude.{None};

    ghost written = { λ output. None };

    fn write(&mut self, from: &[u8]) -> Result<usize> {
        Write::write(self, from)
    }
}
