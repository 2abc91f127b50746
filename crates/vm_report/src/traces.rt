//! The texts of a trace.
ghost use Rattle.std.specs.Prelude.{◌≡◌, ◌<◌, ◌^◌, ◌+◌, ◌++◌, ◌∷◌, [], All, List, length, map, codes, decimal, OnOk};
ghost use Rattle.std.specs.List.{flat_map};
ghost use Rattle.vm_script.specs.vm_types.WellFormed.{IsWellFormed};
ghost use Rattle.vm_script.specs.vm_types.Words.{IsWordSize};
ghost use Rattle.vm_script.specs.Texts as words;
ghost use Rattle.vm_report.specs.Trace as trace;

use crate::results::{push_bytes, push_result, word_of_call};
use crate::text::{
    end_line, push_argument, push_decimal, push_hex, push_mask, push_number, push_space, push_text,
    push_word,
};
use bitflags::Flags;
use entry_list::Entries;
use std::alloc::AllocError;
use vm_script::{Call, Entry, Kind, Object, Place, Prot, Reply};

fn word_of_kind(kind: Kind) -> &'static [u8]
    ensures { result.now ≡ words.kind_text kind }
{
    match kind {
        Kind::Shared => b"shared",
        Kind::Private => b"private",
    }
}

fn word_of_prot(prot: Prot) -> &'static [u8]
    ensures { result.now ≡ words.prot_text prot }
{
    match prot.bits() {
        0 => b"none",
        1 => b"r",
        2 => b"w",
        _ => b"rw",
    }
}

fn push_place(out: &mut Vec<u8>, place: Place) -> Result<(), AllocError>
    ensures { OnOk result (out.new.items ≡ out.old.items ++ trace.place_word place) }
{
    match place {
        Place::At(addr) => push_word(out, 4, addr),
        Place::Any => push_text(out, b"any"),
    }
}

fn push_object(out: &mut Vec<u8>, object: Object) -> Result<(), AllocError>
    ensures { OnOk result (out.new.items ≡ out.old.items ++ trace.object_words object) }
{
    match object {
        Object::File(file) => {
            push_text(out, b"file ")?;
            push_number(out, file)
        }
        Object::NewZero => push_text(out, b"newzero"),
        Object::Zero(zero) => {
            push_text(out, b"zero ")?;
            push_number(out, zero)
        }
    }
}

// Adds a space, an address and a length.
fn push_range(out: &mut Vec<u8>, addr: u32, length: u32) -> Result<(), AllocError>
    ensures { OnOk result (out.new.items ≡ out.old.items ++ 32 ∷ trace.range_text addr length) }
{
    push_space(out)?;
    push_word(out, 4, addr)?;
    push_argument(out, length)
}

// Adds a space, a protection, a space and a kind.
fn push_rights(out: &mut Vec<u8>, prot: Prot, kind: Kind) -> Result<(), AllocError>
    ensures { OnOk result (out.new.items
        ≡ out.old.items ++ 32 ∷ words.prot_text prot ++ 32 ∷ words.kind_text kind) }
{
    push_space(out)?;
    push_text(out, word_of_prot(prot))?;
    push_space(out)?;
    push_text(out, word_of_kind(kind))
}

fn push_map(
    out: &mut Vec<u8>,
    place: Place,
    length: u32,
    prot: Prot,
    kind: Kind,
    object: Object,
    offset: u32,
) -> Result<(), AllocError>
    ensures { OnOk result (out.new.items ≡ out.old.items
        ++ trace.arguments_text (Call.Map place length prot kind object offset)) }
{
    push_space(out)?;
    push_place(out, place)?;
    push_argument(out, length)?;
    push_rights(out, prot, kind)?;
    push_space(out)?;
    push_object(out, object)?;
    push_argument(out, offset)
}

fn push_write(
    out: &mut Vec<u8>,
    file: u32,
    offset: u32,
    bytes: &[u8],
    rest: u32,
) -> Result<(), AllocError>
    ensures { OnOk result (out.new.items ≡ out.old.items
        ++ trace.arguments_text (Call.Write file offset bytes.now rest)) }
{
    push_argument(out, file)?;
    push_argument(out, offset)?;
    push_space(out)?;
    push_hex(out, bytes)?;
    push_argument(out, rest)
}

fn push_store(out: &mut Vec<u8>, addr: u32, size: u32, value: u32) -> Result<(), AllocError>
    requires { IsWordSize size }
    ensures { OnOk result (out.new.items ≡ out.old.items
        ++ trace.arguments_text (Call.Store addr size value)) }
{
    push_range(out, addr, size)?;
    push_space(out)?;
    push_word(out, size, value)
}

fn push_protect(out: &mut Vec<u8>, addr: u32, length: u32, prot: Prot) -> Result<(), AllocError>
    ensures { OnOk result (out.new.items ≡ out.old.items
        ++ trace.arguments_text (Call.Protect addr length prot)) }
{
    push_range(out, addr, length)?;
    push_space(out)?;
    push_text(out, word_of_prot(prot))
}

fn push_read(out: &mut Vec<u8>, file: u32, offset: u32, length: u32) -> Result<(), AllocError>
    ensures { OnOk result (out.new.items ≡ out.old.items
        ++ trace.arguments_text (Call.Read file offset length)) }
{
    push_argument(out, file)?;
    push_argument(out, offset)?;
    push_argument(out, length)
}

fn push_truncate(out: &mut Vec<u8>, file: u32, length: u32) -> Result<(), AllocError>
    ensures { OnOk result (out.new.items ≡ out.old.items
        ++ trace.arguments_text (Call.Truncate file length)) }
{
    push_argument(out, file)?;
    push_argument(out, length)
}

// Adds what stands behind a call's word.
fn push_arguments(out: &mut Vec<u8>, call: &Call) -> Result<(), AllocError>
    requires { IsWellFormed call.now }
    ensures { OnOk result (out.new.items ≡ out.old.items ++ trace.arguments_text call.now) }
{
    match call {
        Call::Load { addr, size } => push_range(out, *addr, *size),
        Call::Store { addr, size, value } => push_store(out, *addr, *size, *value),
        Call::Map {
            place,
            length,
            prot,
            kind,
            object,
            offset,
        } => { push_map(out, *place, *length, *prot, *kind, *object, *offset) }
        Call::Unmap { addr, length } => push_range(out, *addr, *length),
        Call::Protect { addr, length, prot } => push_protect(out, *addr, *length, *prot),
        Call::Sync { addr, length } => push_range(out, *addr, *length),
        Call::Read {
            file,
            offset,
            length,
        } => { push_read(out, *file, *offset, *length) }
        Call::Write {
            file,
            offset,
            bytes,
            rest,
        } => { push_write(out, *file, *offset, bytes.bytes(), *rest) }
        Call::Truncate { file, length } => push_truncate(out, *file, *length),
        Call::Fork { child } => push_argument(out, *child),
        Call::Exit => Ok(()),
    }
}

fn push_call(out: &mut Vec<u8>, call: &Call) -> Result<(), AllocError>
    requires { IsWellFormed call.now }
    ensures { OnOk result (out.new.items ≡ out.old.items ++ trace.call_text call.now) }
{
    push_text(out, word_of_call(call))?;
    push_arguments(out, call)
}

// Adds a reply.
fn push_reply(out: &mut Vec<u8>, call: &Call, reply: &Reply) -> Result<(), AllocError>
    requires { IsWellFormed call.now }
    ensures { OnOk result (out.new.items ≡ out.old.items ++ trace.reply_text call.now reply.now) }
{
    match reply {
        Reply::Done => push_text(out, b"ok"),
        Reply::Synced(from) => {
            push_text(out, b"ok ")?;
            push_decimal(out, *from)
        }
        Reply::Bytes(line) => {
            push_text(out, b"bytes ")?;
            push_bytes(out, line.bytes())
        }
        _ => push_result(out, call, reply),
    }
}

/// Adds the line of an entry: process, mask of the files whose tails became zeros, call and reply.
pub fn trace_entry(entry: &Entry, out: &mut Vec<u8>) -> Result<(), AllocError>
    requires { IsWellFormed entry.now.call }
    ensures new { OnOk result (out.new.items ≡ out.old.items ++ trace.entry_text entry.now) }
{
    push_number(out, entry.process)?;
    push_space(out)?;
    push_mask(out, entry.cleared)?;
    push_space(out)?;
    push_call(out, &entry.call)?;
    push_text(out, b" = ")?;
    push_reply(out, &entry.call, &entry.reply)?;
    end_line(out)
}

fn push_entries(history: &Entries, out: &mut Vec<u8>) -> Result<(), AllocError>
    requires { All (λ e. IsWellFormed e.call) history.now }
    ensures { OnOk result (out.new.items ≡ out.old.items ++ flat_map trace.entry_text history.now) }
{
    for place in 0..history.len() {
        trace_entry(&history.at(place).entry(), out)?;
    }
    Ok(())
}

/// Adds the line of the number of entries.
pub fn trace_count(count: u64, out: &mut Vec<u8>) -> Result<(), AllocError>
    ensures new { OnOk result (out.new.items
        ≡ out.old.items ++ codes "entries " ++ decimal count ++ 10 ∷ []) }
{
    push_text(out, b"entries ")?;
    push_decimal(out, count)?;
    end_line(out)
}

/// Adds the part of a trace that tells the history: the number of its entries, and a line for each.
pub fn trace_entries(history: &Entries, out: &mut Vec<u8>) -> Result<(), AllocError>
    requires { All (λ e. IsWellFormed e.call) history.now }
    ensures new { OnOk result (out.new.items ≡ out.old.items ++ trace.entries_text history.now) }
{
    trace_count(history.len() as u64, out)?;
    push_entries(history, out)
}

/// Adds the line of a disk: its number and its blocks.
pub fn trace_disk(disk: (u32, u32), out: &mut Vec<u8>) -> Result<(), AllocError>
    ensures new { OnOk result (out.new.items ≡ out.old.items ++ trace.disk_text disk) }
{
    push_text(out, b"disk")?;
    push_argument(out, disk.0)?;
    push_argument(out, disk.1)?;
    end_line(out)
}

fn push_disks(out: &mut Vec<u8>, disks: &[(u32, u32)]) -> Result<(), AllocError>
    ensures { OnOk result (out.new.items ≡ out.old.items ++ flat_map trace.disk_text disks.now) }
{
    for disk in disks {
        trace_disk(*disk, out)?;
    }
    Ok(())
}

/// Adds the line of a top process, or nothing for a process that has a parent.
pub fn trace_root(process: u32, parent: u32, out: &mut Vec<u8>) -> Result<(), AllocError>
    ensures new { OnOk result (out.new.items ≡ out.old.items ++ trace.root_text process parent) }
{
    if parent != 0 {
        return Ok(());
    }
    push_text(out, b"root ")?;
    push_number(out, process)?;
    end_line(out)
}

fn push_roots(out: &mut Vec<u8>, parents: &[u32]) -> Result<(), AllocError>
    requires { length parents.now < 2 ^ 31 }
    ensures { OnOk result (out.new.items ≡ out.old.items ++ trace.roots_text 1 parents.now) }
{
    let mut process = 1;
    let mut left = parents;
    while let [parent, rest @ ..] = left {
        trace_root(process, *parent, out)?;
        process += 1;
        left = rest;
    }
    Ok(())
}

/// Adds the opening part of a trace before its files: the swap slots, the file disks with their
/// blocks, and the top processes by the parents of all.
pub fn trace_opening(
    slots: u32,
    disks: &[(u32, u32)],
    parents: &[u32],
    out: &mut Vec<u8>,
) -> Result<(), AllocError>
    requires { length parents.now < 2 ^ 31 }
    ensures new { OnOk result
        (out.new.items ≡ out.old.items ++ trace.opening_text slots disks.now parents.now) }
{
    push_text(out, b"trace swap ")?;
    push_number(out, slots)?;
    end_line(out)?;
    push_disks(out, disks)?;
    push_roots(out, parents)
}

fn push_extent(out: &mut Vec<u8>, extent: (u32, u32)) -> Result<(), AllocError>
    ensures { OnOk result (out.new.items ≡ out.old.items ++ trace.extent_text extent) }
{
    push_number(out, extent.0)?;
    push_text(out, b"+")?;
    push_number(out, extent.1)
}

fn push_comma(out: &mut Vec<u8>, rest: &[(u32, u32)]) -> Result<(), AllocError>
    ensures { OnOk result (out.new.items ≡ out.old.items ++ trace.comma_before rest.now) }
{
    if rest.is_empty() {
        return Ok(());
    }
    push_text(out, b",")
}

fn push_extents(out: &mut Vec<u8>, extents: &[(u32, u32)]) -> Result<(), AllocError>
    ensures { OnOk result (out.new.items ≡ out.old.items ++ trace.extents_text extents.now) }
{
    let mut left = extents;
    while let [extent, rest @ ..] = left {
        push_extent(out, *extent)?;
        push_comma(out, rest)?;
        left = rest;
    }
    Ok(())
}

fn push_mode(out: &mut Vec<u8>, writable: bool) -> Result<(), AllocError>
    ensures { OnOk result (out.new.items ≡ out.old.items ++ trace.mode_text writable) }
{
    if writable {
        push_text(out, b" rw")
    } else {
        push_text(out, b" ro")
    }
}

/// Adds the line of a file in the opening part of a trace. An extent is its first block and its
/// number of blocks. The file's bytes follow as in a report.
pub fn trace_file(
    file: u32,
    name: &[u8],
    writable: bool,
    disk: u32,
    length: u32,
    extents: &[(u32, u32)],
    out: &mut Vec<u8>,
) -> Result<(), AllocError>
    ensures new { OnOk result (out.new.items ≡ out.old.items
        ++ trace.file_text file name.now writable disk length extents.now) }
{
    push_text(out, b"file ")?;
    push_number(out, file)?;
    push_space(out)?;
    push_text(out, name)?;
    push_mode(out, writable)?;
    push_argument(out, disk)?;
    push_argument(out, length)?;
    push_space(out)?;
    push_extents(out, extents)?;
    end_line(out)
}
