//! The names that a report prints.
ghost use Rattle.std.specs.Prelude.{◌≡◌, Some};
ghost use Rattle.vm_types.specs.Names.{errno_number, errno_name, signal_text};

use crate::call::{Errno, Signal};
use std::fmt;

impl Errno {
    /// The error's number, from 1 to 9.
    pub fn number(&self) -> u32
        ensures { result ≡ errno_number self.now }
    {
        *self as u32
    }

    /// The error's name, as `NoSwap`.
    pub fn name(&self) -> &'static str
        ensures { result.now ≡ errno_name self.now }
    {
        match self {
            Errno::Invalid => "Invalid",
            Errno::Access => "Access",
            Errno::NoSwap => "NoSwap",
            Errno::NoRoom => "NoRoom",
            Errno::TooLarge => "TooLarge",
            Errno::NotMapped => "NotMapped",
            Errno::ReadOnly => "ReadOnly",
            Errno::TooBig => "TooBig",
            Errno::NoObject => "NoObject",
        }
    }
}

impl Signal {
    /// The signal and its cause, as `SEGV nomap`.
    pub fn text(&self) -> &'static str
        ensures { result.now ≡ signal_text self.now }
    {
        match self {
            Signal::NoMap => "SEGV nomap",
            Signal::Prot => "SEGV prot",
            Signal::Align => "BUS align",
            Signal::Past => "BUS past",
        }
    }
}

/// Prints the name alone.
impl fmt::Display for Errno {
    ghost output = { λ e. Some (errno_name e) };

    fn fmt<W: fmt::Write>(&self, f: &mut fmt::Formatter<W>) -> fmt::Result {
        f.write_str(self.name())
    }
}

/// Prints the signal and its cause.
impl fmt::Display for Signal {
    ghost output = { λ s. Some (signal_text s) };

    fn fmt<W: fmt::Write>(&self, f: &mut fmt::Formatter<W>) -> fmt::Result {
        f.write_str(self.text())
    }
}
