//! A file in memory.
ghost use Rattle.std.specs.Prelude.{◌≡◌, ◌≤◌, IfOk};
ghost use Rattle.disk_file.specs.FileBytes.{AreOctets};

use crate::block_file::BlockFile;
use std::io;

/// What goes wrong in a call of a memory file.
#[derive(Clone, Copy, Drop)]
pub enum Flaw {
    /// At most so many bytes are moved, and the call says how many.
    Short(usize),
    /// At most so many bytes are moved, and the call fails.
    Fails(usize),
}

/// A file in memory, which tells its bytes. The flaw of its first call comes first in the list that it is
/// given; calls behind the list have none.
#[derive(Drop)]
pub struct MemFile {
    bytes: Vec<u8>,
    flaws: Vec<Option<Flaw>>,
    calls: usize,
    ghost are_bytes: { AreOctets bytes.items },
}

// How many of so many bytes a call with this flaw moves.
fn moved(flaw: Option<Flaw>, wanted: usize) -> usize
    ensures { result ≤ wanted }
{
    match flaw {
        Some(Flaw::Short(most) | Flaw::Fails(most)) => wanted.min(most),
        None => wanted,
    }
}

// What a call with this flaw answers where it moved so many bytes.
fn answer(flaw: Option<Flaw>, count: usize) -> io::Result<usize>
    ensures { IfOk result (λ told. told ≡ count) }
{
    match flaw {
        Some(Flaw::Fails(_)) => Err(io::ErrorKind::Interrupted.into()),
        _ => Ok(count),
    }
}

impl MemFile {
    ghost use Rattle.disk_file.specs.MemFileLook.{mem_file_bytes};

    /// A file of these bytes, whose calls have these flaws.
    pub fn new(bytes: Vec<u8>, flaws: Vec<Option<Flaw>>) -> MemFile
        ensures { mem_file_bytes result ≡ bytes.items }
    {
        MemFile {
            bytes,
            flaws,
            calls: 0,
        }
    }

    /// The bytes.
    pub fn bytes(&self) -> &[u8]
        ensures { result.now ≡ mem_file_bytes self.now }
    {
        self.bytes.as_slice()
    }

    // The flaw of the next call, which is counted.
    fn next_flaw(&mut self) -> Option<Flaw>
        ensures { mem_file_bytes self.new ≡ mem_file_bytes self.old }
    {
        let flaw = match self.flaws.get(self.calls) {
            Some(flaw) => *flaw,
            None => None,
        };
        self.calls = self.calls.saturating_add(1);
        flaw
    }
}

impl BlockFile for MemFile {
    ghost use Rattle.std.specs.Prelude.{Some};
    ghost use Rattle.disk_file.specs.MemFileLook.{mem_file_bytes, mem_file_are_bytes};

    ghost bytes = { λ file. Some (mem_file_bytes file) };

    fn read_at(&mut self, into: &mut [u8], offset: u64) -> io::Result<usize> {
        let flaw = self.next_flaw();
        let at = offset.min(self.bytes.len() as u64) as usize;
        let count = moved(flaw, into.len()).min(self.bytes.len() - at);
        into[..count].copy_from_slice(&self.bytes[at..at + count]);
        answer(flaw, count)
    }

    fn write_at(&mut self, from: &[u8], offset: u64) -> io::Result<usize> {
        let flaw = self.next_flaw();
        let at = offset as usize;
        let count = moved(flaw, from.len());
        self.bytes[at..at + count].copy_from_slice(&from[..count]);
        answer(flaw, count)
    }

    ghost are_bytes = { mem_file_are_bytes };
}
