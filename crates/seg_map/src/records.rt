//! A file's record gets another end.
ghost use Rattle.std.specs.Prelude.{◌≡◌, ◌<◌, ◌≤◌, List, length, Some, IsSome};
ghost use Rattle.seg_ops.specs.flat_model.Words.{pages_in};
ghost use Rattle.seg_ops.specs.vnode_files.declared.extent.Extent.{Extent};
ghost use Rattle.seg_ops.specs.vnode_files.Files.{vnode_at, growth_of};
ghost use Rattle.seg_map.specs.Ends.{SetsEnd};

use seg_ops::{Files, pages_in};

/// Gives a file so many bytes, on the extents that it needs for them. Pages that it comes to have are blank. Time: these.
pub fn set_end(files: &mut Files, file: u32, end: u32)
    requires file { file < length files.old.files }
    requires room { IsSome (growth_of files.old file (pages_in end)) }
    requires some { 1 ≤ length (vnode_at files.old file).info.extents }
    ensures sets { (extents : List Extent)
        → growth_of files.old file (pages_in end) ≡ Some extents
        → SetsEnd files.old files.new file end extents }
{
    let from = pages_in(files.info(file).length);
    let to = pages_in(end);
    files.grow(file, to);
    let _grown = files.info(file);
    for page in from..to {
        files.set_blank(file, page, true);
    }
    files.set_length(file, end);
    let _cut = files.info(file);
}
