//! Where bytes come in.
ghost use Rattle.std.specs.Prelude.{ℕ, List, Option};
ghost use Rattle.host_streams.specs.ByteStreams.{ReadsBytes};

use std::fs::File;
use std::io::{Read, Result, Stdin};

/// Bytes that come in one after another. It need not tell what is still to come: clauses on bytes hold where
/// they are told.
pub trait ByteInput: Drop {
    /// The bytes that are still to come, where it tells them.
    ghost rest: { Self → Option (List ℕ) };

    /// Reads the next bytes into the front of `into`, and answers how many came. Where `into` isn't empty, 0
    /// is the end. After an error nothing was taken, and what `into` holds is arbitrary.
    fn read(&mut self, into: &mut [u8]) -> Result<usize>
        ensures { ReadsBytes (rest self.old) (rest self.new) into.new result };
}

/// Standard input. It tells nothing. That a call does what its clauses say, no proof sees.
impl ByteInput for Stdin {
    ghost use Rattle.std.specs.Prelude.{None};

    ghost rest = { λ input. None };

    fn read(&mut self, into: &mut [u8]) -> Result<usize> {
        Read::read(self, into)
    }
}

/// A file of the system, read from where it stands. It tells nothing, as standard input.
impl ByteInput for File {
    ghost use Rattle.std.specs.Prelude.{None};

    ghost rest = { λ file. None };

    fn read(&mut self, into: &mut [u8]) -> Result<usize> {
        Read::read(self, into)
    }
}
