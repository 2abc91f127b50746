//! A file in memory that can be flushed.
ghost use Rattle.std.specs.Prelude.{◌≡◌};
ghost use Rattle.durable_file.specs.MemFlushedLook.{mem_flushed_bytes, is_mem_flushed};

use crate::flushed_file::FlushedFile;
use disk_file::{BlockFile, MemFile};
use std::io;

/// A file in memory, which tells whether it was flushed since it was last written. The flushes at the places
/// of the list that it is given that are true fail, and those behind the list don't.
#[derive(Drop)]
pub struct MemFlushed {
    file: MemFile,
    is_flushed: bool,
    fails: Vec<bool>,
    flushes: usize,
}

impl MemFlushed {
    /// A file that wasn't flushed yet, the flushes of which fail so.
    pub fn new(file: MemFile, fails: Vec<bool>) -> MemFlushed {
        MemFlushed {
            file,
            is_flushed: false,
            fails,
            flushes: 0,
        }
    }

    /// Whether all that was written is flushed.
    pub fn is_flushed(&self) -> bool
        ensures { result ≡ is_mem_flushed self.now }
    {
        self.is_flushed
    }

    /// The bytes.
    pub fn bytes(&self) -> &[u8]
        ensures { result.now ≡ mem_flushed_bytes self.now }
    {
        self.file.bytes()
    }
}

impl BlockFile for MemFlushed {
    ghost use Rattle.std.specs.Prelude.{Some};
    ghost use Rattle.durable_file.specs.MemFlushedLook.{mem_flushed_bytes, mem_flushed_are_bytes};

    ghost bytes = { λ file. Some (mem_flushed_bytes file) };

    fn read_at(&mut self, into: &mut [u8], offset: u64) -> io::Result<usize> {
        self.file.read_at(into, offset)
    }

    fn write_at(&mut self, from: &[u8], offset: u64) -> io::Result<usize> {
        self.is_flushed = false;
        self.file.write_at(from, offset)
    }

    ghost are_bytes = { mem_flushed_are_bytes };
}

impl FlushedFile for MemFlushed {
    ghost use Rattle.std.specs.Prelude.{Some};
    ghost use Rattle.durable_file.specs.MemFlushedLook.{is_mem_flushed};

    ghost flushed = { λ file. Some (is_mem_flushed file) };

    fn flush(&mut self) -> io::Result<()> {
        let fails = match self.fails.get(self.flushes) {
            Some(fails) => *fails,
            None => false,
        };
        self.flushes = self.flushes.saturating_add(1);
        if fails {
            return Err(io::ErrorKind::Interrupted.into());
        }
        self.is_flushed = true;
        Ok(())
    }
}
