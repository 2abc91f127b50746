//! Marks of a file that gets shorter.
ghost use Rattle.std.specs.Prelude.{◌≡◌, ◌≤◌, ◌<◌, length, take};
ghost use Rattle.mark_laws.specs.Cuts.{marks_shortened, rows_cut};
ghost use Rattle.fault_entry.specs.vnode_files.Files.{vnode_at};
ghost use Rattle.fault_entry.specs.vnode_files.Layout.{disk_of_file, pages_kept};
ghost use Rattle.fault_entry.specs.vnode_files.Vnode.{page_blocks};
ghost use Rattle.fault_entry.specs.vm_types.Pages.{pages_in};

use disk_marks::DiskMarks;
use fault_entry::{Files, pages_in};

/// The rows of so many pages of a file, once it keeps fewer: of each that stays it isn't known any more that zeros stand past the
/// end, and each other is taken away, with the entry that makes it so many.
fn cut_rows(marks: &mut DiskMarks, files: &Files, file: u32, old: u32, kept: u32, entries: u32)
    requires file { file < length files.now.files }
    requires pages { old ≤ pages_kept files.now file }
    ensures { marks.new ≡ rows_cut (disk_of_file files.now file) kept entries
        (take old (page_blocks (vnode_at files.now file).info.extents)) marks.old }
{
    let disk = files.info(file).disk;
    for page in 0..old {
        let block = files.block(file, page);
        if page < kept {
            marks.forget_zeros(disk, block);
        } else {
            marks.take_away(disk, block, entries);
        }
    }
}

/// The marks of a file that had so many bytes and got fewer, with the entry that makes it so many. Time: the pages that it had, and
/// the seats.
pub(crate) fn cut_marks(
    marks: &mut DiskMarks,
    files: &Files,
    file: u32,
    old: u32,
    new: u32,
    entries: u32,
)
    requires file { file < length files.now.files }
    requires pages { pages_in old ≤ pages_kept files.now file }
    ensures { marks.new ≡ marks_shortened marks.old file (disk_of_file files.now file)
        (vnode_at files.now file).info.extents old new entries }
{
    let kept = pages_in(new);
    cut_rows(marks, files, file, pages_in(old), kept, entries);
    marks.cut_pushes(file, kept);
}
