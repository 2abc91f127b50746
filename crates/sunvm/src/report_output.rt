//! Where the report of a run goes.
use host_streams::ByteOutput;
use std::alloc::Global;
use std::io;

// The line that a run prints last has fewer bytes.
const MOST_LINE: usize = 80;

/// An output that keeps the last piece that it was given where that is as short as a line that a run prints last. It tells what was written where the output in
/// it does.
#[derive(Drop)]
pub struct ReportOutput<O: ByteOutput> {
    output: O,
    last: Vec<u8>,
}

impl<O: ByteOutput> ReportOutput<O> {
    /// An output of which no piece is kept yet.
    pub fn new(alloc: Global, output: O) -> ReportOutput<O> {
        ReportOutput {
            output,
            last: Vec::new(alloc),
        }
    }

    /// The last piece that was to be written, where it was short, and memory didn't lack for it.
    pub fn last(&self) -> &[u8] {
        &self.last
    }
}

// Keeps a piece in the place of what was kept, where it is short.
fn keep(last: &mut Vec<u8>, piece: &[u8]) {
    last.clear();
    if piece.len() < MOST_LINE {
        let _ = last.extend_from_slice(piece);
    }
}

impl<O: ByteOutput> ByteOutput for ReportOutput<O> {
    ghost written = { λ report. O.written report.output };

    fn write(&mut self, from: &[u8]) -> io::Result<usize> {
        keep(&mut self.last, from);
        self.output.write(from)
    }
}
