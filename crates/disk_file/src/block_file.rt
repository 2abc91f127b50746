//! Files that hold a disk's blocks.
ghost use Rattle.std.specs.Prelude.{◌≤◌, ◌+◌, ℕ, List, Option, length, IfSome};
ghost use Rattle.disk_file.specs.FileBytes.{AreOctets, ReadsAt, WritesAt};

use std::fs::File;
use std::io;
use std::os::unix::fs::FileExt;

/// A file, whose bytes are read and written at an offset in bytes. It need not tell what they are: clauses on
/// bytes hold where they are told. A file that tells is changed by its own calls alone.
pub trait BlockFile: Drop {
    /// Its bytes, where it tells them.
    ghost bytes: { Self → Option (List ℕ) };

    /// Reads at an offset, and answers how many bytes came. After an error what `into` holds is arbitrary.
    fn read_at(&mut self, into: &mut [u8], offset: u64) -> io::Result<usize>
        ensures { ReadsAt (bytes self.old) (bytes self.new) offset into.new result };

    /// Writes within the file at an offset, and answers how many bytes were written. After an error some
    /// bytes may have been.
    fn write_at(&mut self, from: &[u8], offset: u64) -> io::Result<usize>
        requires { IfSome (bytes self.old) (λ all. offset + length from.now ≤ length all) }
        ensures { WritesAt (bytes self.old) (bytes self.new) offset from.now result };

    ghost are_bytes: { (file : Self) → IfSome (bytes file) AreOctets };
}

/// A file of the system. It tells nothing: another process may change it at any time. That a call does what
/// its clauses say, no proof sees.
impl BlockFile for File {
    ghost use Rattle.std.specs.Prelude.{None};

    ghost bytes = { λ file. None };

    fn read_at(&mut self, into: &mut [u8], offset: u64) -> io::Result<usize> {
        FileExt::read_at(self, into, offset)
    }

    fn write_at(&mut self, from: &[u8], offset: u64) -> io::Result<usize> {
        FileExt::write_at(self, from, offset)
    }

    ghost are_bytes = { λ file. tt };
}
