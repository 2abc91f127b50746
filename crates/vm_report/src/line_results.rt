//! The result of a line, by the entries that it made.
ghost use Rattle.std.specs.Prelude.{◌≡◌, ◌≤◌, ◌<◌, ◌^◌, ◌++◌, [], All, length, OnOk};
ghost use Rattle.vm_script.specs.vm_types.WellFormed.{IsWellFormed};
ghost use Rattle.vm_script.specs.Texts.{hex_text};
ghost use Rattle.entry_list.specs.Rows.{entry_seen};
ghost use Rattle.vm_report.specs.Results as results;

use crate::results::{push_bytes, push_result};
use crate::text::{push_decimal, push_hex, push_space};
use entry_list::{EntryAt, EntrySlice};
use std::alloc::AllocError;
use vm_script::{Call, Entry, Line, Reply};

fn is_failure(reply: &Reply) -> bool
    ensures { result ≡ results.is_failure reply.now }
{
    matches!(reply, Reply::Refused(_) | Reply::Io { .. })
}

fn push_failure_of(out: &mut Vec<u8>, entry: &Entry) -> Result<(), AllocError>
    requires { IsWellFormed entry.now.call }
    ensures { OnOk result (out.new.items ≡ out.old.items ++ results.failure_of entry.now) }
{
    if !is_failure(&entry.reply) {
        return Ok(());
    }
    push_space(out)?;
    push_result(out, &entry.call, &entry.reply)
}

// The same of an entry of a list: what is kept short was neither refused nor met a device error.
fn push_failure_at(out: &mut Vec<u8>, entry: EntryAt<'_>) -> Result<(), AllocError>
    requires { IsWellFormed (entry_seen entry).call }
    ensures { OnOk result (out.new.items
        ≡ out.old.items ++ results.failure_of (entry_seen entry.entry)) }
{
    match entry {
        EntryAt::Whole(entry) => push_failure_of(out, entry),
        EntryAt::Load { .. } | EntryAt::Store { .. } | EntryAt::Read { .. } => Ok(()),
    }
}

// Where the last part was refused or met a device error, adds that.
fn push_failure(out: &mut Vec<u8>, entries: &EntrySlice<'_>) -> Result<(), AllocError>
    requires well_formed { All (λ e. IsWellFormed e.call) entries.now }
    ensures { OnOk result (out.new.items
        ≡ out.old.items ++ results.failure_text entries.now) }
{
    if entries.is_empty() {
        return Ok(());
    }
    push_failure_at(out, entries.at(entries.len() - 1))
}

fn bytes_of_line(line: &Line) -> &[u8]
    ensures bytes { result.now ≡ line.now }
    ensures few { length result.now ≤ 64 }
{
    let _len = line.len();
    line.bytes()
}

fn bytes_of_reply(reply: &Reply) -> &[u8]
    ensures bytes { result.now ≡ results.reply_bytes reply.now }
    ensures few { length result.now ≤ 64 }
{
    match reply {
        Reply::Bytes(line) => bytes_of_line(line),
        _ => &[],
    }
}

// The bytes that an entry got.
fn bytes_got<'a>(entry: EntryAt<'a>) -> &'a [u8]
    ensures bytes { result.now ≡ results.reply_bytes (entry_seen entry.entry).reply }
    ensures few { length result.now ≤ 64 }
{
    match entry {
        EntryAt::Read { bytes, .. } => bytes_of_line(bytes),
        EntryAt::Whole(entry) => bytes_of_reply(&entry.reply),
        EntryAt::Load { .. } | EntryAt::Store { .. } => &[],
    }
}

fn count_read(entries: &EntrySlice<'_>) -> u64
    requires few { length entries.now < 2 ^ 32 }
    ensures { result ≡ length (results.bytes_read entries.now) }
{
    let mut count = 0;
    let mut left = entries.again();
    while let Some((entry, rest)) = left.split_first() {
        count += bytes_got(entry).len() as u64;
        left = rest;
    }
    count
}

fn push_bytes_read(out: &mut Vec<u8>, entries: &EntrySlice<'_>) -> Result<(), AllocError>
    ensures { OnOk result (out.new.items ≡ out.old.items
        ++ hex_text (results.bytes_read entries.now)) }
{
    let mut left = entries.again();
    while let Some((entry, rest)) = left.split_first() {
        push_hex(out, bytes_got(entry))?;
        left = rest;
    }
    Ok(())
}

fn push_read_bytes(out: &mut Vec<u8>, entries: &EntrySlice<'_>) -> Result<(), AllocError>
    requires few { length entries.now < 2 ^ 32 }
    ensures { OnOk result (out.new.items ≡ out.old.items
        ++ results.bytes_text (results.bytes_read entries.now)) }
{
    let count = count_read(entries);
    push_decimal(out, count)?;
    if count == 0 {
        return Ok(());
    }
    push_space(out)?;
    push_bytes_read(out, entries)
}

fn bytes_done(call: &Call, reply: &Reply) -> u64
    ensures done { result ≡ results.bytes_done call.now reply.now }
    ensures few { result ≤ 64 }
{
    match (call, reply) {
        (Call::Write { bytes, .. }, Reply::Done) => u64::from(bytes.len()),
        _ => 0,
    }
}

// How many bytes an entry wrote.
fn bytes_put(entry: EntryAt<'_>) -> u64
    ensures done { result
        ≡ results.bytes_done (entry_seen entry.entry).call (entry_seen entry.entry).reply }
    ensures few { result ≤ 64 }
{
    match entry {
        EntryAt::Whole(entry) => bytes_done(&entry.call, &entry.reply),
        EntryAt::Load { .. } | EntryAt::Store { .. } | EntryAt::Read { .. } => 0,
    }
}

fn bytes_written(entries: &EntrySlice<'_>) -> u64
    requires few { length entries.now < 2 ^ 32 }
    ensures { result ≡ results.bytes_written entries.now }
{
    let mut count = 0;
    let mut left = entries.again();
    while let Some((entry, rest)) = left.split_first() {
        count += bytes_put(entry);
        left = rest;
    }
    count
}

// Adds the result of a read that made these entries.
fn push_read_result(out: &mut Vec<u8>, entries: &EntrySlice<'_>) -> Result<(), AllocError>
    requires few { length entries.now < 2 ^ 32 }
    requires well_formed { All (λ e. IsWellFormed e.call) entries.now }
    ensures { OnOk result (out.new.items
        ≡ out.old.items ++ results.read_result entries.now) }
{
    push_read_bytes(out, entries)?;
    push_failure(out, entries)
}

// Adds the result of a line that made these entries, of which the first is kept whole.
fn push_whole_result(
    out: &mut Vec<u8>,
    first: &Entry,
    entries: &EntrySlice<'_>,
) -> Result<(), AllocError>
    requires few { length entries.now < 2 ^ 32 }
    requires well_formed { All (λ e. IsWellFormed e.call) entries.now }
    requires first { IsWellFormed first.now.call }
    ensures { OnOk result (out.new.items
        ≡ out.old.items ++ results.call_result first.now.call first.now.reply entries.now) }
{
    match &first.call {
        Call::Read { .. } => push_read_result(out, entries),
        Call::Write { .. } => {
            push_decimal(out, bytes_written(entries))?;
            push_failure(out, entries)
        }
        _ => push_result(out, &first.call, &first.reply),
    }
}

/// Adds the result of a line that made these entries.
pub fn push_line_result(out: &mut Vec<u8>, entries: &EntrySlice<'_>) -> Result<(), AllocError>
    requires few { length entries.now < 2 ^ 32 }
    requires well_formed { All (λ e. IsWellFormed e.call) entries.now }
    ensures { OnOk result (out.new.items
        ≡ out.old.items ++ results.line_result entries.now) }
{
    let Some((first, _)) = entries.split_first() else {
        return Ok(());
    };
    match first {
        EntryAt::Whole(first) => push_whole_result(out, first, entries),
        EntryAt::Read { .. } => push_read_result(out, entries),
        EntryAt::Load { .. } | EntryAt::Store { .. } => {
            let first = first.entry();
            push_result(out, &first.call, &first.reply)
        }
    }
}
