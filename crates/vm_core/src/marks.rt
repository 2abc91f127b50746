//! What is known of the blocks of files' pages.
ghost use Rattle.std.specs.Prelude.{◌≡◌, ◌≢◌, ◌<◌, ◌+◌, ℕ, Some, length, slice_index, IfOk};
ghost use Rattle.std.specs.FinMap as finite;
ghost use Rattle.fault_entry.specs.page_store.Flight.{fresh};
ghost use Rattle.fault_entry.specs.vm_world.FramesFit.{FilesFit};
ghost use Rattle.fault_entry.specs.vm_world.Marks.{AreOpeningMarks, page_row};
ghost use Rattle.fault_entry.specs.vnode_files.Files.{block_count, vnode_at};
ghost use Rattle.fault_entry.specs.vnode_files.Layout.{pages_kept};
ghost use Rattle.vm_core.specs.Marks.{AreMarkedTo, mark_kept, marks_departed, marks_landed};

use crate::state::VmState;
use disk_marks::{DiskMarks, Mark};
use fault_entry::{Disk, Files, Flight};
use std::alloc::{AllocError, Global};

/// How many blocks each disk of files has, by number; none where it wasn't set.
fn disk_sizes(files: &Files) -> [u32; 8]
    ensures eight { length result ≡ 8 }
    ensures sizes { (disk : ℕ) → disk < 8
        → slice_index result disk ≡ block_count files.now.disks disk }
{
    let mut sizes = [0; 8];
    for disk in 0..8u32 {
        sizes[disk as usize] = files.disk_blocks(disk).unwrap_or(0);
    }
    sizes
}

/// The block of a page has it, unless the page is blank.
fn mark_page(marks: &mut DiskMarks, files: &Files, file: u32, page: u32)
    requires file { file < length files.now.files }
    requires page { page < pages_kept files.now file }
    requires fits { FilesFit files.now }
    ensures { (seats : ℕ) → AreMarkedTo files.now seats marks.old file page
        → AreMarkedTo files.now seats marks.new file (page + 1) }
{
    if !files.blank(file, page) {
        marks.raise(files.info(file).disk, files.block(file, page), 0);
    }
}

/// So it is of all pages of a file.
fn mark_file(marks: &mut DiskMarks, files: &Files, file: u32)
    requires file { file < length files.now.files }
    requires fits { FilesFit files.now }
    ensures { (seats : ℕ) → AreMarkedTo files.now seats marks.old file 0
        → AreMarkedTo files.now seats marks.new (file + 1) 0 }
{
    for page in 0..files.kept(file) {
        mark_page(marks, files, file, page);
    }
}

/// The marks at the opening. The only error is want of memory. Time: the blocks of the disks of files.
pub(crate) fn opening_marks(
    alloc: Global,
    files: &Files,
    seats: u32,
) -> Result<DiskMarks, AllocError>
    requires fits { FilesFit files.now }
    requires numbers { (disk blocks : ℕ)
        → finite.get files.now.disks disk ≡ Some blocks → disk < 8 }
    ensures { IfOk result (AreOpeningMarks files.now seats) }
{
    let mut marks = DiskMarks::new(alloc, &disk_sizes(files), seats)?;
    for file in 0..files.count() {
        mark_file(&mut marks, files, file);
    }
    Ok(marks)
}

impl<D: Disk> VmState<D> {
    /// What is known of the block of a page that a file keeps. Constant time, but for the look for the page among the file's
    /// extents.
    pub fn mark(&self, file: u32, page: u32) -> Mark
        requires file { file < length self.now.memory.world.files.files }
        requires page { page < pages_kept self.now.memory.world.files file }
        ensures { result ≡ (page_row self.now.memory.world.files self.now.marks file page).mark }
    {
        let files = &self.world.files;
        let disk = files.info(file).disk;
        let block = files.block(file, page);
        self.marks.row(disk, block).mark
    }

    /// The same of any page; none where no file keeps it.
    pub fn find_mark(&self, file: u32, page: u32) -> Option<Mark>
        ensures { result ≡ mark_kept self.now.memory.world.files self.now.marks file page }
    {
        let files = &self.world.files;
        if file >= files.count() || page >= files.kept(file) {
            return None;
        }
        Some(self.mark(file, page))
    }

    // The push of a file's page is kept for its seat as it begins.
    pub(crate) fn keep_push(&mut self, seat: u32, flight: &Flight<D>)
        ensures { self.new ≡ record self.old {
          marks =
              marks_departed self.old.marks seat flight.now (length self.old.history);
        } }
    {
        if let Some((name, _)) = flight.file_push() {
            let entries = self.ledger.length();
            self.marks.begin(seat, name.object, name.page, entries);
        }
    }

    // What is known of its block changes as the push of a file's page ends.
    #[inline(always)]
    pub(crate) fn mark_end(&mut self, seat: u32, flight: &Flight<D>)
        requires { flight.now.outcome ≢ fresh }
        ensures { self.new ≡ record self.old {
          marks =
              marks_landed self.old.marks seat flight.now (length self.old.history);
        } }
    {
        let Some((_, block)) = flight.file_push() else {
            return;
        };
        let (disk, before, after) = flight.counts();
        if flight.has_failed() {
            let entries = self.ledger.length();
            self.marks.fail(seat, disk, block, entries, before, after);
        } else {
            self.marks.end(seat, disk, block);
        }
    }
}
