//! A file each write of which is flushed.
ghost use Rattle.std.specs.Prelude.{◌≡◌, ◌+◌, ◌≤◌, IfSome, length};
ghost use Rattle.disk_file.specs.FileBytes.{WritesAt};
ghost use Rattle.durable_file.specs.Flushing.{FlushedIfOk};

use crate::flushed_file::FlushedFile;
use disk_file::BlockFile;
use std::io;
use std::marker::Model;

/// A file whose writes are answered once the host's disk has them: each is flushed right behind it, and fails
/// where that fails. Contracts see the file.
#[derive(Drop)]
pub struct DurableFile<F: FlushedFile> {
    file: F,
}

impl<F: FlushedFile> Model for DurableFile<F> {
    ghost Value = { F };

    ghost view = { λ durable. durable.file };
}

impl<F: FlushedFile> DurableFile<F> {
    /// The file, each write of which is flushed from now on.
    pub fn new(file: F) -> DurableFile<F>
        ensures { result ≡ file }
    {
        DurableFile { file }
    }

    /// The file.
    pub fn into_file(self) -> F
        ensures { result ≡ self }
    {
        self.file
    }
}

impl<F: FlushedFile> BlockFile for DurableFile<F> {
    ghost bytes = { F.bytes };

    fn read_at(&mut self, into: &mut [u8], offset: u64) -> io::Result<usize> {
        self.file.read_at(into, offset)
    }

    fn write_at(&mut self, from: &[u8], offset: u64) -> io::Result<usize>
        requires { IfSome (F.bytes self.old) (λ all. offset + length from.now ≤ length all) }
        ensures writes { WritesAt (F.bytes self.old) (F.bytes self.new) offset from.now result }
        // The host's disk has it.
        ensures flushed { FlushedIfOk (F.flushed self.new) result }
    {
        let count = self.file.write_at(from, offset)?;
        self.file.flush()?;
        Ok(count)
    }

    ghost are_bytes = { F.are_bytes };
}
