//! What a report has to say of a history, worked out anew: the section of each process, and the lines of a file.
ghost use Rattle.std.specs.Prelude.{◌≤◌, length};

use block_device::Block;
use std::alloc::{AllocError, Global};
use vm_types::{Call, Entry, Errno, Reply, Signal, ends_call};

/// A line of a script that makes a call, and the process whose line it is.
#[derive(Clone, Copy)]
pub struct Own {
    pub process: u32,
    pub line: u32,
}

fn refusal(errno: Errno) -> &'static str {
    match errno {
        Errno::Invalid => "error 1 Invalid",
        Errno::Access => "error 2 Access",
        Errno::NoSwap => "error 3 NoSwap",
        Errno::NoRoom => "error 4 NoRoom",
        Errno::TooLarge => "error 5 TooLarge",
        Errno::NotMapped => "error 6 NotMapped",
        Errno::ReadOnly => "error 7 ReadOnly",
        Errno::TooBig => "error 8 TooBig",
        Errno::NoObject => "error 9 NoObject",
    }
}

fn cause(signal: Signal) -> &'static str {
    match signal {
        Signal::NoMap => "SEGV nomap",
        Signal::Prot => "SEGV prot",
        Signal::Align => "BUS align",
        Signal::Past => "BUS past",
    }
}

fn word(call: &Call) -> &'static str {
    match call {
        Call::Load { .. } => "load",
        Call::Store { .. } => "store",
        Call::Map { .. } => "map",
        Call::Unmap { .. } => "unmap",
        Call::Protect { .. } => "protect",
        Call::Sync { .. } => "sync",
        Call::Read { .. } => "read",
        Call::Write { .. } => "write",
        Call::Truncate { .. } => "truncate",
        Call::Fork { .. } => "fork",
        Call::Exit => "exit",
    }
}

// What a call that isn't made of parts, or its last part, tells where it didn't do its work.
fn trouble(alloc: Global, call: &Call, reply: &Reply) -> Result<Option<String>, AllocError> {
    match *reply {
        Reply::Signal(why) => Ok(Some(String::from_str(alloc, cause(why))?)),
        Reply::Refused(errno) => Ok(Some(String::from_str(alloc, refusal(errno))?)),
        Reply::Io {
            disk,
            before,
            after,
        } => {
            let error = match call {
                Call::Load { .. } | Call::Store { .. } => "BUS",
                _ => "error",
            };
            Ok(Some(format!(in alloc; "{error} io {disk} {before} {after}")?))
        }
        _ => Ok(None),
    }
}

// What a call that did its work tells.
fn work(alloc: Global, call: &Call, reply: &Reply) -> Result<String, AllocError> {
    match (*call, *reply) {
        (Call::Load { size: 1, .. }, Reply::Word(value)) => format!(in alloc; "0x{value:02x}"),
        (Call::Load { size: 2, .. }, Reply::Word(value)) => format!(in alloc; "0x{value:04x}"),
        (Call::Load { .. }, Reply::Word(value)) => format!(in alloc; "0x{value:08x}"),
        (Call::Map { .. }, Reply::Mapped(addr)) => format!(in alloc; "0x{addr:08x}"),
        (Call::Fork { child }, _) => format!(in alloc; "{child}"),
        _ => String::from_str(alloc, "ok"),
    }
}

// What is told of a read or a write: the parts that were done, and the error that ended them.
fn parts(alloc: Global, entries: &[Entry]) -> Result<String, AllocError> {
    let mut bytes = String::new(alloc);
    let mut count = 0u32;
    let mut error = String::new(alloc);
    for part in entries {
        match (part.call, part.reply) {
            (_, Reply::Bytes(line)) => {
                for byte in line.bytes() {
                    bytes.push_str(&format!(in alloc; "{byte:02x}")?)?;
                }
                count = count.saturating_add(line.len());
            }
            (Call::Write { bytes: line, .. }, Reply::Done) => {
                count = count.saturating_add(line.len());
            }
            (call, reply) => {
                if let Some(why) = trouble(alloc, &call, &reply)? {
                    error = format!(in alloc; " {why}")?;
                }
            }
        }
    }
    if bytes.is_empty() {
        format!(in alloc; "{count}{error}")
    } else {
        format!(in alloc; "{count} {bytes}{error}")
    }
}

// The word and the result of a call, whose entries these are.
fn told(alloc: Global, entries: &[Entry]) -> Result<String, AllocError> {
    let [entry, ..] = entries else {
        return Ok(String::new(alloc));
    };
    let result = if let Call::Read { .. } | Call::Write { .. } = entry.call {
        parts(alloc, entries)?
    } else {
        match trouble(alloc, &entry.call, &entry.reply)? {
            Some(why) => why,
            None => work(alloc, &entry.call, &entry.reply)?,
        }
    };
    format!(in alloc; "{} {result}", word(&entry.call))
}

// The entries of a process.
fn entries_of(alloc: Global, process: u32, entries: &[Entry]) -> Result<Vec<Entry>, AllocError> {
    let mut own = Vec::new(alloc);
    for entry in entries {
        if entry.process == process {
            own.push(*entry)?;
        }
    }
    Ok(own)
}

// How many of the entries, all of one process, are those of the first call.
fn first_call(entries: &[Entry]) -> usize
    ensures { result ≤ length entries.now }
{
    for (place, entry) in entries.iter().enumerate() {
        if !entry.call.is_well_formed() || ends_call(&entry.call, &entry.reply) {
            return place + 1;
        }
    }
    entries.len()
}

// The section of a process: its calls in the order of its lines.
fn section(
    alloc: Global,
    process: u32,
    lines: &[Own],
    entries: &[Entry],
) -> Result<String, AllocError> {
    let own = entries_of(alloc, process, entries)?;
    if own.is_empty() {
        return format!(in alloc; "process {process} not born\n");
    }
    let mut text = format!(in alloc; "process {process}\n")?;
    let mut left = own.as_slice();
    for own in lines {
        if own.process == process && !left.is_empty() {
            let (call, rest) = left.split_at(first_call(left));
            text.push_str(&format!(in alloc; "{} {}\n", own.line, told(alloc, call)?)?)?;
            left = rest;
        }
    }
    if !left.is_empty() {
        text.push_str("more entries than lines\n")?;
    }
    Ok(text)
}

/// The sections of the processes from 1 on, up to this one.
pub fn sections(
    alloc: Global,
    processes: u32,
    lines: &[Own],
    entries: &[Entry],
) -> Result<String, AllocError> {
    let mut text = String::new(alloc);
    for process in 1..processes.saturating_add(1) {
        text.push_str(&section(alloc, process, lines, entries)?)?;
    }
    Ok(text)
}

// A line of 32 bytes or fewer, where they aren't all zeros.
fn bytes_line(alloc: Global, offset: usize, bytes: &[u8]) -> Result<String, AllocError> {
    let mut text = String::new(alloc);
    if bytes.iter().any(|byte| *byte != 0) {
        text.push_str(&format!(in alloc; "{offset:08x} ")?)?;
        for byte in bytes {
            text.push_str(&format!(in alloc; "{byte:02x}")?)?;
        }
        text.push_str("\n")?;
    }
    Ok(text)
}

/// What is told of a file of this length, whose pages are these.
pub fn file_section(
    alloc: Global,
    name: &str,
    length: usize,
    pages: &[Block],
) -> Result<String, AllocError> {
    let mut text = format!(in alloc; "file {name} {length}\n")?;
    for (page, block) in pages.iter().enumerate() {
        for line in 0..128usize {
            let offset = page.saturating_mul(4096).saturating_add(32 * line);
            if offset < length {
                let count = (length - offset).min(32);
                let bytes = &block.bytes[32 * line..32 * line + count];
                text.push_str(&bytes_line(alloc, offset, bytes)?)?;
            }
        }
    }
    Ok(text)
}
