//! Files that can be flushed.
ghost use Rattle.std.specs.Prelude.{Bool, Option};
ghost use Rattle.durable_file.specs.Flushing.{Flushes};

use disk_file::BlockFile;
use std::fs::File;
use std::io;

/// A file whose bytes can be flushed: the disk of the host takes all that was written.
pub trait FlushedFile: BlockFile {
    /// Whether the host's disk has all that was written, where the file tells that.
    ghost flushed: { Self → Option Bool };

    /// Flushes the file.
    fn flush(&mut self) -> io::Result<()>
        ensures { Flushes (Self.bytes self.old) (Self.bytes self.new) (flushed self.new) result };
}

/// A file of the system. It tells nothing. That a call does what its clauses say, no proof sees.
impl FlushedFile for File {
    ghost use Rattle.std.specs.Prelude.{None};

    ghost flushed = { λ file. None };

    fn flush(&mut self) -> io::Result<()> {
        self.sync_data()
    }
}
