//! The lines of a file, page by page.
ghost use Rattle.std.specs.Prelude.{◌≡◌, ◌≤◌, ◌<◌, ◌+◌, ◌*◌, ◌^◌, length, take, IfOk, IfErr, OnOk};
ghost use Rattle.block_device.specs.DiskSeen.{failures_told};
ghost use Rattle.vm_report.specs.flat_model.Words.{pages_in};
ghost use Rattle.stored_files.specs.Uncut.{UnlessCut};
ghost use Rattle.stored_files.specs.Showing.{LiesOn, LooksAt, ArePageBytes, IsPageShown, IsUnread, LinesShown, shown_info};

use crate::page_disk::PageDisk;
use crate::showing::ShowStop;
use block_device::{Sink, write_all};
use std::alloc::Global;
use vm_report::{bytes_before, file_lines, pages_in};
use volume_format::Files;

// What a page is read into, and the text of its lines: they are used again for each page.
#[derive(Drop)]
pub(crate) struct PageBuffer {
    pub(crate) bytes: [u8; 4096],
    pub(crate) text: Vec<u8>,
}

impl PageBuffer {
    // It takes no memory.
    pub(crate) fn new(alloc: Global) -> PageBuffer {
        PageBuffer {
            bytes: [0; 4096],
            text: Vec::new(alloc),
        }
    }
}

// Reads a page of a file, and says how many of its bytes lie below the file's length.
fn read_page<P: PageDisk>(
    files: &Files,
    file: u32,
    page: u32,
    disk: &mut P,
    into: &mut [u8],
) -> Result<usize, P::Fault>
    requires lies { LiesOn files.now file (P.numbered disk.old) }
    requires page { page < pages_in (shown_info files.now file).length }
    requires size { length into.old ≡ 4096 }
    // The front of `into` is the page's bytes, as many as there are.
    ensures piece { IfOk result (λ count. ArePageBytes
        (P.numbered disk.old).1 (shown_info files.now file) page (take count into.new)) }
    ensures count { IfOk result (λ count. count ≤ 4096) }
    ensures few { IfOk result (λ count. 4096 * page + count < 2 ^ 32) }
    // The disk was only read.
    ensures looks { LooksAt (P.numbered disk.old) (P.numbered disk.new) }
    ensures failures { OnOk result
        (failures_told (P.numbered disk.new).1 ≡ failures_told (P.numbered disk.old).1) }
    ensures fault { IfErr result (IsUnread P.counts (P.numbered disk.old) (P.numbered disk.new)) }
{
    disk.read(files.block(file, page), into)?;
    Ok(bytes_before(files.info(file).length, page) as usize)
}

// Writes the lines of a page of a file, once it is read.
fn show_page<P: PageDisk, K: Sink>(
    files: &Files,
    file: u32,
    page: u32,
    disk: &mut P,
    buffer: &mut PageBuffer,
    out: &mut K,
) -> Result<(), ShowStop<P::Fault>>
    requires lies { LiesOn files.now file (P.numbered disk.old) }
    requires page { page < pages_in (shown_info files.now file).length }
    ensures shown { IsPageShown (shown_info files.now file) page (K.seen out.old) (K.seen out.new)
        (P.numbered disk.old) (P.numbered disk.new) P.counts result }
    ensures looks { LooksAt (P.numbered disk.old) (P.numbered disk.new) }
    // Counts of faults.
    ensures later { (K.seen out.old).faults ≤ (K.seen out.new).faults }
    ensures steady { UnlessCut result ((K.seen out.new).faults ≡ (K.seen out.old).faults) }
    ensures failures { UnlessCut result
        (failures_told (P.numbered disk.new).1 ≡ failures_told (P.numbered disk.old).1) }
{
    let count = match read_page(files, file, page, disk, &mut buffer.bytes) {
        Ok(count) => count,
        Err(fault) => return Err(ShowStop::Fault(fault)),
    };
    buffer.text.clear();
    if file_lines(4096 * page, &buffer.bytes[..count], &mut buffer.text).is_err() {
        return Err(ShowStop::Memory);
    }
    match write_all(out, &buffer.text) {
        Ok(()) => Ok(()),
        Err(_) => Err(ShowStop::Sink),
    }
}

// Writes the lines of a file, those of each page right after the page is read.
pub(crate) fn show_lines<P: PageDisk, K: Sink>(
    files: &Files,
    file: u32,
    disk: &mut P,
    buffer: &mut PageBuffer,
    out: &mut K,
) -> Result<(), ShowStop<P::Fault>>
    requires { LiesOn files.now file (P.numbered disk.old) }
    ensures shown { LinesShown (shown_info files.now file) (K.seen out.old) (K.seen out.new)
        (P.numbered disk.old) (P.numbered disk.new) P.counts result }
    ensures looks { LooksAt (P.numbered disk.old) (P.numbered disk.new) }
    // Counts of faults.
    ensures later { (K.seen out.old).faults ≤ (K.seen out.new).faults }
    ensures steady { UnlessCut result ((K.seen out.new).faults ≡ (K.seen out.old).faults) }
    ensures failures { UnlessCut result
        (failures_told (P.numbered disk.new).1 ≡ failures_told (P.numbered disk.old).1) }
{
    let pages = pages_in(files.info(file).length);
    for page in 0..pages {
        show_page(files, file, page, disk, buffer, out)?;
    }
    Ok(())
}
