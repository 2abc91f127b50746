//! The files of a script's lines are placed on the disks.
ghost use Rattle.std.specs.Prelude.{◌≡◌, All, List, Ok};
ghost use Rattle.volume_format.specs.vnode_files.Files.{block_count};
ghost use Rattle.volume_files.specs.Opened.{OpenedFile, with_line_file, with_line_files};
ghost use Rattle.volume_files.specs.Placing.{HasOpened, IsPlaceable, LieRight, Placing};

use crate::free_places::{extents_of, place_for};
use crate::table_files::PlaceStop;
use std::alloc::Global;
use vm_report::{SetupAct, SetupLine};
use volume_format::{Extent, Extents, FileInfo, FileName, Files};

// Adds the file that a line gives, if it gives one.
fn add_line(alloc: Global, act: &SetupAct, files: &mut Files) -> Result<(), PlaceStop>
    requires placeable { IsPlaceable act.now }
    requires lie { LieRight files.old }
    ensures placed { (before : List OpenedFile) → HasOpened files.old before
        → Placing files.new (with_line_file (block_count files.old.disks) before act.now) result }
    ensures disks { files.new.disks ≡ files.old.disks }
    ensures lie { LieRight files.new }
{
    let SetupAct::File {
        name,
        writable,
        disk,
        pages,
        bytes,
    } = act
    else {
        return Ok(());
    };
    if files.count() >= 64 {
        return Err(PlaceStop::Rule(10));
    }
    let name = FileName::new(name.bytes());
    if files.number(&name).is_some() {
        return Err(PlaceStop::Rule(11));
    }
    let used = extents_of(alloc, files, *disk)?;
    let blocks = files.disk_blocks(*disk).unwrap_or(0);
    let Some(start) = place_for(&used, blocks, *pages) else {
        return Err(PlaceStop::Rule(12));
    };
    let extent = Extent {
        start,
        pages: *pages,
    };
    files.add(FileInfo {
        name,
        disk: *disk,
        extents: Extents::new(alloc, &[extent])?,
        length: bytes.bytes().len() as u32,
        writable: *writable,
    })?;
    Ok(())
}

/// Adds the files that set-up lines give, in their order.
///
/// An error is want of memory, or the first rule that a line breaks: 10 where there are 64 files already, 11 where a file has the
/// name, 12 where its disk has no place for it. For each file it looks at each extent for each block of its disk.
pub(crate) fn add_lines(
    alloc: Global,
    setup: &[SetupLine],
    files: &mut Files,
) -> Result<(), PlaceStop>
    requires placeable { All (λ l. IsPlaceable l.act) setup.now }
    requires lie { LieRight files.old }
    ensures placed { (before : List OpenedFile) → HasOpened files.old before → Placing files.new
        (with_line_files (block_count files.old.disks) (Ok before) setup.now) result }
    ensures disks { files.new.disks ≡ files.old.disks }
    ensures lie { LieRight files.new }
{
    for line in setup {
        add_line(alloc, &line.act, files)?;
    }
    Ok(())
}
