//! Why a script isn't read.
ghost use Rattle.std.specs.Prelude.{◌≡◌};
ghost use Rattle.vm_script.specs.declared.fault.ReadError.TheVariants.{Memory};

use std::alloc::{AllocError, AllocFailed};

/// What is wrong with a line: the first test that fails, in this order from `Byte` on.
#[derive(Clone, Copy, Debug, PartialEq, Eq)]
pub enum ScriptKind {
    /// The script has more than 1,048,576 bytes.
    Long,
    /// A byte is outside 0x20 to 0x7e.
    Byte,
    /// The first field is no word of the grammar.
    Word,
    /// The line may not stand there.
    Place,
    /// It has too few or too many fields.
    Count,
    /// A field is no number.
    Number,
    /// A field is no name.
    Name,
    /// A field is no bytes.
    Bytes,
    /// A field is outside its choices or its range.
    Value,
}

/// The first bad line of a script and what is wrong with it. Lines are numbered from 1; line 0
/// stands for the whole script.
#[derive(Clone, Copy, Debug, PartialEq, Eq)]
pub struct ScriptFault {
    pub line: u32,
    pub kind: ScriptKind,
}

/// Why a line wasn't read: its fault, or want of memory.
#[derive(Debug, Drop)]
pub(crate) enum ReadError {
    Memory,
    Fault(ScriptKind),
}

impl From<AllocError> for ReadError {
    ghost from_gives = { λ _ e. e ≡ Memory };

    fn from(_e: AllocError) -> ReadError {
        ReadError::Memory
    }
}

impl<T: Drop> From<AllocFailed<T>> for ReadError {
    ghost from_gives = { λ _ e. e ≡ Memory };

    fn from(_e: AllocFailed<T>) -> ReadError {
        ReadError::Memory
    }
}
