//! Parts of reads of files: the bytes of one line of 64.
ghost use Rattle.std.specs.Prelude.{◌≡◌, ◌≤◌, ◌+◌, ℕ, take, drop, None};
ghost use Rattle.seg_ops.specs.page_hash.declared.PageName.{PageName};
ghost use Rattle.seg_ops.specs.page_store.Notes.{Notes};
ghost use Rattle.seg_ops.specs.page_store.Seen.{residence};
ghost use Rattle.seg_ops.specs.page_store.Table.{PlaceTable};
ghost use Rattle.seg_ops.specs.page_store.Value.{value};
ghost use Rattle.seg_ops.specs.vm_types.Pages.{line_rest};
ghost use Rattle.seg_ops.specs.vm_types.declared.call.Call.TheVariants.{Read};
ghost use Rattle.seg_ops.specs.vm_world.FileCalls.{file_refusal, read_count};
ghost use Rattle.seg_ops.specs.vm_world.Segments.{Spaces};
ghost use Rattle.seg_ops.specs.vm_world.Words.{memory, Fits, IsFit, IsKnown, OneIsHome, OnlyFrames};
ghost use Rattle.seg_map.specs.Served.{ServesBytes};

use home_pages::bring_page;
use seg_ops::{Disk, Line, PAGE_SIZE, PageName, Residence, Wants, World, line_rest};

/// How many bytes a part of a read gets of a file of so many: what it asks for, but none past its line and the file's end.
fn part_count(bytes: u32, offset: u32, asked: u32) -> u32
    ensures count { result ≡ read_count bytes offset asked }
    ensures inside { result ≤ line_rest offset }
{
    asked
        .min(line_rest(offset))
        .min(bytes.saturating_sub(offset))
}

/// So many bytes of the page that is home in a frame, from one of its bytes on.
fn line_of<D: Disk>(world: &World<D>, frame: u32, at: u32, count: u32) -> Line
    requires home { (name : PageName) × (residence world.now.store name ≡ Residence.Home frame) }
    requires short { count ≤ 64 }
    requires within { at + count ≤ 4096 }
    ensures { (name : PageName) → residence world.now.store name ≡ Residence.Home frame
        → (notes : Notes) (table : PlaceTable)
        → result ≡ take count (drop at (value world.now.store notes table name)) }
{
    let page = world.store.frame_bytes(frame);
    let end = (at + count) as usize;
    Line::new(&page[at as usize..end])
}

/// A part of a read: the bytes of a file from an offset on, as many as are asked for, but none past their line of 64 and the file's
/// end. Their page comes home first, or it is said what that needs; past the end nothing is looked at. Time: one look for the
/// page where it is home, and the bytes.
pub fn read_line<D: Disk>(
    world: &mut World<D>,
    file: u32,
    offset: u32,
    asked: u32,
) -> Result<Line, Wants>
    requires served { file_refusal world.old.files (Read file offset asked) ≡ None }
    requires home { OneIsHome world.old.store }
    requires fits { IsFit world.old }
    requires noted { IsKnown world.old }
    ensures serves { (spaces : Spaces) (p : ℕ) → Fits world.old spaces
        → ServesBytes (memory world.old spaces) (memory world.new spaces)
        world.old.pending world.new.pending p (Read file offset asked) result }
    // What stays.
    ensures rest { OnlyFrames world.old world.new }
{
    let count = part_count(world.files.info(file).length, offset, asked);
    if count == 0 {
        return Ok(Line::new(&[]));
    }
    let name = PageName {
        object: file,
        page: offset / PAGE_SIZE,
    };
    let frame = bring_page(world, name)?;
    Ok(line_of(world, frame, offset % PAGE_SIZE, count))
}
