//! Files are read back and shown.
ghost use Rattle.std.specs.Prelude.{ℕ, ◌≡◌, ◌≤◌, ◌<◌, ◌++◌, List, length, map, Some, IfOk, OnOk, slice_get};
ghost use Rattle.block_device.specs.DiskSeen.{DiskSeen, failures_told};
ghost use Rattle.stored_files.specs.Written.{infos_made};
ghost use Rattle.stored_files.specs.Texts.{extent_pairs, heading_text};
ghost use Rattle.stored_files.specs.Showing.{LiesOn, LooksAt, IsHeadingShown, FileShown, FileShownAmong, shown_info};
ghost use Rattle.stored_files.specs.Uncut.{UnlessCut, counts_of};
ghost use Rattle.stored_files.specs.Written.{LieWell, HaveDisks, AreOnlyRead, AreFilesBytes, ShowsSections};

use crate::page_disk::PageDisk;
use crate::page_lines::{PageBuffer, show_lines};
use block_device::{Sink, write_all};
use std::alloc::{AllocError, Global};
use vm_report::{file_heading, trace_file};
use volume_format::{Extents, FileInfo, Files};

/// The line above the bytes of a file: that of the report, or that of a trace's opening part.
#[derive(Clone, Copy, Debug, PartialEq, Eq)]
pub enum Heading {
    Report,
    Trace,
}

/// Why files weren't shown to their end.
#[derive(Debug, Drop)]
pub enum ShowStop<F: Drop> {
    /// There is no memory left.
    Memory,
    /// The sink failed.
    Sink,
    /// A page wasn't read.
    Fault(F),
}

// The extents of a file as numbers.
fn extent_pairs(alloc: Global, extents: &Extents) -> Result<Vec<(u32, u32)>, AllocError>
    ensures { IfOk result (λ pairs. pairs.items ≡ extent_pairs extents.now) }
{
    extents
        .list()
        .iter()
        .map(|e| (e.start, e.pages))
        .collect(alloc)
}

// Adds the line above the bytes of a file.
fn push_heading(
    alloc: Global,
    heading: Heading,
    file: u32,
    info: &FileInfo,
    text: &mut Vec<u8>,
) -> Result<(), AllocError>
    ensures { OnOk result
        (text.new.items ≡ text.old.items ++ heading_text heading file info.now) }
{
    match heading {
        Heading::Report => file_heading(info.name.bytes(), info.length, text),
        Heading::Trace => {
            let extents = extent_pairs(alloc, &info.extents)?;
            trace_file(
                file,
                info.name.bytes(),
                info.writable,
                info.disk,
                info.length,
                &extents,
                text,
            )
        }
    }
}

// Writes the line above the bytes of a file.
fn show_heading<F: Drop, K: Sink>(
    alloc: Global,
    heading: Heading,
    file: u32,
    info: &FileInfo,
    text: &mut Vec<u8>,
    out: &mut K,
) -> Result<(), ShowStop<F>>
    ensures shown { IsHeadingShown (heading_text heading file info.now)
        (K.seen out.old) (K.seen out.new) result }
    ensures later { (K.seen out.old).faults ≤ (K.seen out.new).faults }
    ensures steady { UnlessCut result ((K.seen out.new).faults ≡ (K.seen out.old).faults) }
{
    text.clear();
    if push_heading(alloc, heading, file, info, text).is_err() {
        return Err(ShowStop::Memory);
    }
    match write_all(out, text) {
        Ok(()) => Ok(()),
        Err(_) => Err(ShowStop::Sink),
    }
}

// ShowsSections a file that lies on this disk.
fn show_file<P: PageDisk, K: Sink>(
    alloc: Global,
    heading: Heading,
    files: &Files,
    file: u32,
    disk: &mut P,
    buffer: &mut PageBuffer,
    out: &mut K,
) -> Result<(), ShowStop<P::Fault>>
    requires { LiesOn files.now file (P.numbered disk.old) }
    ensures shown { FileShown heading file (shown_info files.now file)
        (K.seen out.old) (K.seen out.new)
        (P.numbered disk.old) (P.numbered disk.new) P.counts result }
    ensures looks { LooksAt (P.numbered disk.old) (P.numbered disk.new) }
    // Counts of faults.
    ensures later { (K.seen out.old).faults ≤ (K.seen out.new).faults }
    ensures steady { UnlessCut result ((K.seen out.new).faults ≡ (K.seen out.old).faults) }
    ensures failures { UnlessCut result
        (failures_told (P.numbered disk.new).1 ≡ failures_told (P.numbered disk.old).1) }
{
    show_heading(
        alloc,
        heading,
        file,
        files.info(file),
        &mut buffer.text,
        out,
    )?;
    show_lines(files, file, disk, buffer, out)
}

// The place of the disk of a number.
fn place_of<P: PageDisk>(disks: &[P], number: u32) -> usize
    requires { (i : ℕ) × (d : DiskSeen)
        × (slice_get (map P.numbered disks.now) i ≡ Some (number, d)) }
    ensures there { (d : DiskSeen)
        × (slice_get (map P.numbered disks.now) result ≡ Some (number, d)) }
    ensures inside { result < length disks.now }
{
    for place in 0..disks.len() {
        let found = disks[place].number();
        if found == number {
            return place;
        }
    }
    unreachable!()
}

// ShowsSections a file that lies on one of these disks.
fn show_file_among<P: PageDisk, K: Sink>(
    alloc: Global,
    heading: Heading,
    files: &Files,
    file: u32,
    disks: &mut [P],
    buffer: &mut PageBuffer,
    out: &mut K,
) -> Result<(), ShowStop<P::Fault>>
    requires lie { LieWell files.now }
    requires there { file < length files.now.files }
    requires disks { HaveDisks files.now (map P.numbered disks.old) }
    // The file was shown, or a front of it.
    ensures shown { FileShownAmong heading file (shown_info files.now file)
        (K.seen out.old) (K.seen out.new)
        (map P.numbered disks.old) (map P.numbered disks.new) P.counts result }
    // What stays.
    ensures disks { AreOnlyRead (map P.numbered disks.old) (map P.numbered disks.new) }
    ensures later { (K.seen out.old).faults ≤ (K.seen out.new).faults }
    ensures steady { UnlessCut result ((K.seen out.new).faults ≡ (K.seen out.old).faults) }
    ensures failures { UnlessCut result (counts_of (map P.numbered disks.new)
        ≡ counts_of (map P.numbered disks.old)) }
{
    let place = place_of(disks, files.info(file).disk);
    show_file(alloc, heading, files, file, &mut disks[place], buffer, out)
}

/// ShowsSections all files in order of number: a heading each, and the lines of its bytes, a page read and written at a time.
pub fn show_files<P: PageDisk, K: Sink>(
    alloc: Global,
    heading: Heading,
    files: &Files,
    disks: &mut [P],
    out: &mut K,
) -> Result<(), ShowStop<P::Fault>>
    requires lie { LieWell files.now }
    requires disks { HaveDisks files.now (map P.numbered disks.old) }
    // The bytes are those of the disks, where these tell; the text, as far as it was written, is that of these bytes.
    ensures shows { (bytes : ℕ → List ℕ)
        × AreFilesBytes (infos_made files.now) (map P.numbered disks.old) bytes
        × ShowsSections heading (infos_made files.now) bytes (K.seen out.old) (K.seen out.new)
        (map P.numbered disks.old) (map P.numbered disks.new) P.counts result }
    // What stays.
    ensures disks { AreOnlyRead (map P.numbered disks.old) (map P.numbered disks.new) }
    ensures later { (K.seen out.old).faults ≤ (K.seen out.new).faults }
    ensures steady { UnlessCut result ((K.seen out.new).faults ≡ (K.seen out.old).faults) }
    ensures failures { UnlessCut result (counts_of (map P.numbered disks.new)
        ≡ counts_of (map P.numbered disks.old)) }
{
    let mut buffer = PageBuffer::new(alloc);
    for file in 0..files.count() {
        show_file_among(alloc, heading, files, file, disks, &mut buffer, out)?;
    }
    Ok(())
}
