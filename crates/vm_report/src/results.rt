//! The results of calls.
ghost use Rattle.std.specs.Prelude.{◌≡◌, ◌++◌, OnOk, All};
ghost use Rattle.vm_script.specs.vm_types.WellFormed.{IsWellFormed};
ghost use Rattle.vm_script.specs.vm_types.Words.{IsWordSize};
ghost use Rattle.vm_report.specs.Texts.{call_word, counts_text};
ghost use Rattle.vm_report.specs.Results.{word_size, io_word, done_text, bytes_text, refusal_text, result_text};

use crate::text::{push_decimal, push_hex, push_number, push_space, push_text, push_word};
use std::alloc::AllocError;
use vm_script::{Call, Errno, Reply};

/// The word of a call.
pub fn word_of_call(call: &Call) -> &'static [u8]
    ensures { result.now ≡ call_word call.now }
{
    match call {
        Call::Load { .. } => b"load",
        Call::Store { .. } => b"store",
        Call::Map { .. } => b"map",
        Call::Unmap { .. } => b"unmap",
        Call::Protect { .. } => b"protect",
        Call::Sync { .. } => b"sync",
        Call::Read { .. } => b"read",
        Call::Write { .. } => b"write",
        Call::Truncate { .. } => b"truncate",
        Call::Fork { .. } => b"fork",
        Call::Exit => b"exit",
    }
}

fn word_size(call: &Call) -> u32
    requires { IsWellFormed call.now }
    ensures size { result ≡ word_size call.now }
    ensures word { IsWordSize result }
{
    match call {
        Call::Load { size, .. } => *size,
        _ => 4,
    }
}

fn io_word_of(call: &Call) -> &'static [u8]
    ensures { result.now ≡ io_word call.now }
{
    match call {
        Call::Load { .. } | Call::Store { .. } => b"BUS io ",
        _ => b"error io ",
    }
}

// Adds the number and the name of an error.
fn push_errno(out: &mut Vec<u8>, errno: Errno) -> Result<(), AllocError>
    ensures { OnOk result (out.new.items ≡ out.old.items ++ refusal_text errno) }
{
    push_text(out, b"error ")?;
    push_number(out, errno.number())?;
    push_space(out)?;
    push_text(out, errno.name().as_bytes())
}

/// Adds a disk and its counts of faults.
pub fn push_counts(out: &mut Vec<u8>, disk: u32, before: u64, after: u64) -> Result<(), AllocError>
    ensures { OnOk result (out.new.items ≡ out.old.items ++ counts_text disk before after) }
{
    push_number(out, disk)?;
    push_space(out)?;
    push_decimal(out, before)?;
    push_space(out)?;
    push_decimal(out, after)
}

fn push_done(out: &mut Vec<u8>, call: &Call) -> Result<(), AllocError>
    ensures { OnOk result (out.new.items ≡ out.old.items ++ done_text call.now) }
{
    match call {
        Call::Fork { child } => push_number(out, *child),
        _ => push_text(out, b"ok"),
    }
}

/// Adds the number of bytes of a read and, where there are some, their digits.
pub fn push_bytes(out: &mut Vec<u8>, bytes: &[u8]) -> Result<(), AllocError>
    ensures { OnOk result (out.new.items ≡ out.old.items ++ bytes_text bytes.now) }
{
    push_decimal(out, bytes.len() as u64)?;
    if bytes.is_empty() {
        return Ok(());
    }
    push_space(out)?;
    push_hex(out, bytes)
}

/// Adds the result of a call.
pub fn push_result(out: &mut Vec<u8>, call: &Call, reply: &Reply) -> Result<(), AllocError>
    requires { IsWellFormed call.now }
    ensures { OnOk result (out.new.items ≡ out.old.items ++ result_text call.now reply.now) }
{
    match reply {
        Reply::Word(value) => push_word(out, word_size(call), *value),
        Reply::Done => push_done(out, call),
        Reply::Synced(_) => push_text(out, b"ok"),
        Reply::Mapped(addr) => push_word(out, 4, *addr),
        Reply::Bytes(line) => push_bytes(out, line.bytes()),
        Reply::Signal(signal) => push_text(out, signal.text().as_bytes()),
        Reply::Refused(errno) => push_errno(out, *errno),
        Reply::Io {
            disk,
            before,
            after,
        } => {
            push_text(out, io_word_of(call))?;
            push_counts(out, *disk, *before, *after)
        }
    }
}
