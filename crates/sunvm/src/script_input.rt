//! Where the script of a run comes from: standard input, or a file.
use host_streams::ByteInput;
use std::alloc::Global;
use std::fs::File;
use std::io;
use std::io::{ErrorKind, Stdin};

// So many bytes of a script are kept at most: one more than a script may have.
const MOST_KEPT: usize = 1_048_577;

/// What a script is read from. It tells nothing of what is to come.
#[derive(Drop)]
pub enum Origin {
    Standard(Stdin),
    File(File),
}

impl ByteInput for Origin {
    ghost use Rattle.std.specs.Prelude.{None};

    ghost rest = { λ origin. None };

    fn read(&mut self, into: &mut [u8]) -> io::Result<usize> {
        match self {
            Origin::Standard(input) => input.read(into),
            Origin::File(file) => file.read(into),
        }
    }
}

/// An input that keeps the front of what it gave, so that it can be explained, and why a read of it failed. It tells what is to come where the input in it does.
#[derive(Drop)]
pub struct ScriptInput<I: ByteInput> {
    from: I,
    kept: Vec<u8>,
    cause: Option<ErrorKind>,
}

impl<I: ByteInput> ScriptInput<I> {
    /// An input that was not read yet.
    pub fn new(alloc: Global, from: I) -> ScriptInput<I> {
        ScriptInput {
            from,
            kept: Vec::new(alloc),
            cause: None,
        }
    }

    /// The front of what was read. Where memory lacked for it, it is a front of that.
    pub fn kept(&self) -> &[u8] {
        &self.kept
    }

    /// Why a read failed, where one did.
    pub fn cause(&self) -> Option<ErrorKind> {
        self.cause
    }
}

// Keeps what was read behind what was kept, as far as it is kept.
fn keep(kept: &mut Vec<u8>, bytes: &[u8]) {
    let room = MOST_KEPT.saturating_sub(kept.len());
    let _ = kept.extend_from_slice(&bytes[..bytes.len().min(room)]);
}

impl<I: ByteInput> ByteInput for ScriptInput<I> {
    ghost rest = { λ input. I.rest input.from };

    fn read(&mut self, into: &mut [u8]) -> io::Result<usize> {
        match self.from.read(into) {
            Ok(count) => {
                keep(&mut self.kept, &into[..count]);
                Ok(count)
            }
            Err(error) => {
                self.cause = Some(error.kind());
                Err(error)
            }
        }
    }
}
