//! The test of what an entry of a trace may tell.
ghost use Rattle.std.specs.Prelude.{◌↔◌, ◌≡◌, IsTrue};
ghost use Rattle.vm_report.specs.vm_types.WellFormed.{IsNumber, IsWellFormed};
ghost use Rattle.vm_report.specs.vm_types.Words.{IsWordSize, FitsWord};
ghost use Rattle.trace_text.specs.EntryForm.{IsLongNumber, IsLoadedWord, IsMappedAddress, IsReplyTo, IsTracedEntry};

use vm_report::{Call, Entry, Line, Reply};

/// Each `u32` is a number, and each `u64` a long one. What is behind a reference shows this only as
/// its fields are read.
pub fn is_number(_number: u32) -> bool
    ensures { IsTrue result ↔ IsNumber _number }
{
    true
}

/// Each `u64` is a long number.
pub fn is_long_number(_number: u64) -> bool
    ensures { IsTrue result ↔ IsLongNumber _number }
{
    true
}

// Whether the value fits a word of this size.
fn fits_word(size: u32, value: u32) -> bool
    requires { IsWordSize size }
    ensures { IsTrue result ↔ FitsWord size value }
{
    size == 4 || value >> (8 * size) == 0
}

fn is_loaded_word(call: &Call, value: u32) -> bool
    requires { IsWellFormed call.now }
    ensures { IsTrue result ↔ IsLoadedWord call.now value }
{
    match *call {
        Call::Load { size, .. } => fits_word(size, value),
        _ => false,
    }
}

fn is_mapped_address(call: &Call, addr: u32) -> bool
    ensures { IsTrue result ↔ IsMappedAddress call.now addr }
{
    match call {
        Call::Map { .. } => is_number(addr),
        _ => false,
    }
}

// At most 64 bytes, each below 256.
fn is_line(line: &Line) -> bool
    ensures { IsTrue result ↔ IsReplyTo Call.Exit (Reply.Bytes line.now) }
{
    let _bytes = line.bytes();
    line.len() <= 64
}

fn is_reply_to(call: &Call, reply: &Reply) -> bool
    requires { IsWellFormed call.now }
    ensures { IsTrue result ↔ IsReplyTo call.now reply.now }
{
    match reply {
        Reply::Word(value) => is_loaded_word(call, *value),
        Reply::Mapped(addr) => is_mapped_address(call, *addr),
        Reply::Bytes(line) => is_line(line),
        Reply::Synced(from) => is_long_number(*from),
        Reply::Io {
            disk,
            before,
            after,
        } => is_number(*disk) && is_long_number(*before) && is_long_number(*after),
        Reply::Done | Reply::Signal(_) | Reply::Refused(_) => true,
    }
}

/// Whether a trace may tell this entry.
pub fn may_tell(entry: &Entry) -> bool
    ensures { IsTrue result ↔ IsTracedEntry entry.now }
{
    is_number(entry.process)
        && is_long_number(entry.cleared)
        && entry.call.is_well_formed()
        && is_reply_to(&entry.call, &entry.reply)
}
