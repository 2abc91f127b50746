//! Parts of writes of files: bytes that lie in one line of 64.
ghost use Rattle.std.specs.Prelude.{◌≡◌, ◌<◌, ◌≤◌, ◌+◌, ◌%◌, ◌^◌, ℕ, length, None};
ghost use Rattle.seg_ops.specs.flat_model.Words.{page, page_size, pages_in};
ghost use Rattle.seg_ops.specs.page_hash.declared.PageName.{PageName};
ghost use Rattle.seg_ops.specs.page_store.Laws.{SameResidence};
ghost use Rattle.seg_ops.specs.page_store.Seen.{IsListedFrame, residence};
ghost use Rattle.seg_ops.specs.vm_types.WellFormed.{IsInOneLine};
ghost use Rattle.seg_ops.specs.vnode_files.Files.{vnode_at};
ghost use Rattle.seg_ops.specs.vm_world.FileCalls.{room_refusal};
ghost use Rattle.seg_ops.specs.vm_world.FileSteps.{ChangesFile};
ghost use Rattle.seg_ops.specs.vm_world.Segments.{Spaces};
ghost use Rattle.seg_ops.specs.vm_world.Serving.{ModifiesOnly};
ghost use Rattle.seg_ops.specs.vm_world.Words.{memory, Fits, IsFit, IsKnown, OneIsHome, TwoAreHome, OnlyFrames, OnlyStore};
ghost use Rattle.seg_ops.specs.vm_world.World.{world_seen, file_name};
ghost use Rattle.seg_ops.specs.Rooms.{HasRoomUnless, MakesRoom};
ghost use Rattle.seg_map.specs.Longer.{IsLastReady};
ghost use Rattle.seg_map.specs.Puts.{with_bytes_in};
ghost use Rattle.seg_map.specs.Served.{ServesPart};

use crate::bytes::put;
use crate::frames::take_if_listed;
use crate::longer::make_longer;
use crate::ready::ready_last;
use home_pages::bring_page;
use seg_ops::{
    Disk, Line, PAGE_SIZE, PageName, Plan, Residence, Wants, World, ask, fill_page, free_next,
    make_room, make_room_beside, pages_in,
};

/// Puts the bytes of a part into their page, which is home in this frame, on no list.
fn put_line<D: Disk>(world: &mut World<D>, file: u32, offset: u32, frame: u32, line: &Line)
    requires line { IsInOneLine offset line.now }
    requires file { file < length world.old.files.files }
    requires home { residence world.old.store (file_name file (page offset))
        ≡ Residence.Home frame }
    requires unlisted { ¬ IsListedFrame world.old.store frame }
    requires fits { IsFit world.old }
    // The file has the bytes in flat memory, and no other page becomes modified.
    ensures puts { (spaces : Spaces) → Fits world.old spaces
        → ChangesFile file (memory world.old spaces) (memory world.new spaces)
        (with_bytes_in (page offset) (offset % page_size) line.now) }
    ensures modified { ModifiesOnly (λ name. name ≡ file_name file (page offset))
        (world_seen world.old) (world_seen world.new) }
    // What stays.
    ensures rest { OnlyStore world.old world.new }
    ensures stay { SameResidence world.old.store world.new.store }
    ensures names { world.new.store.names ≡ world.old.store.names }
{
    let page = offset / PAGE_SIZE;
    put(world, file, page, frame, offset % PAGE_SIZE, line.bytes());
}

/// A part that ends within its file: its page comes home, and gets the bytes.
fn write_within<D: Disk>(
    world: &mut World<D>,
    file: u32,
    offset: u32,
    line: &Line,
) -> Result<(), Wants>
    requires line { IsInOneLine offset line.now }
    requires served { room_refusal world.old.files file (offset + length line.now) ≡ None }
    requires within { offset + length line.now
        ≤ (vnode_at world.old.files file).info.length }
    requires home { OneIsHome world.old.store }
    requires fits { IsFit world.old }
    requires noted { IsKnown world.old }
    ensures serves { ServesPart world.old world.new file offset line.now result }
    // What stays.
    ensures rest { OnlyFrames world.old world.new }
{
    let name = PageName {
        object: file,
        page: offset / PAGE_SIZE,
    };
    let frame = bring_page(world, name)?;
    take_if_listed(world, name, frame);
    put_line(world, file, offset, frame, line);
    Ok(())
}

/// A part that ends past its file's end, in the old last page, which is ready: that comes home, the file gets longer, and the page
/// gets the bytes.
fn write_last<D: Disk>(
    world: &mut World<D>,
    file: u32,
    offset: u32,
    line: &Line,
    end: u32,
) -> Result<(), Wants>
    requires line { IsInOneLine offset line.now }
    requires end { end ≡ offset + length line.now }
    requires served { room_refusal world.old.files file end ≡ None }
    requires longer { (vnode_at world.old.files file).info.length < end }
    requires below { page offset < pages_in (vnode_at world.old.files file).info.length }
    requires home { OneIsHome world.old.store }
    requires fits { IsFit world.old }
    requires noted { IsKnown world.old }
    ensures serves { ServesPart world.old world.new file offset line.now result }
    // What stays.
    ensures rest { world.new ≡ record world.old {
      store = world.new.store;
      hat = world.new.hat;
      files = world.new.files;
      pending = world.new.pending;
    } }
{
    let name = PageName {
        object: file,
        page: offset / PAGE_SIZE,
    };
    let frame = bring_page(world, name)?;
    take_if_listed(world, name, frame);
    make_longer(world, file, end);
    put_line(world, file, offset, frame, line);
    Ok(())
}

/// Makes room for a page behind a file's last one, beside that, where it is home: None where a frame can be taken then, else a
/// modified page, which is to be pushed first.
fn make_room_behind<D: Disk>(world: &mut World<D>, file: u32) -> Option<PageName>
    requires file { file < length world.old.files.files }
    requires home { TwoAreHome world.old.store }
    requires fits { IsFit world.old }
    requires noted { IsKnown world.old }
    ensures room { HasRoomUnless world.new result }
    ensures unlisted { (frame : ℕ) → residence world.old.store
        (file_name file (page (vnode_at world.old.files file).info.length)) ≡ Residence.Home frame
        → IsListedFrame world.new.store frame → IsListedFrame world.old.store frame }
    // What stays.
    ensures makes { MakesRoom world.old world.new }
{
    let page = world.files.info(file).length / PAGE_SIZE;
    match world.store.resident(PageName { object: file, page }) {
        Residence::Home(frame) => make_room_beside(world, frame),
        _ => make_room(world),
    }
}

/// A part behind its file's last page, which is ready: a frame is had for its page, the file gets longer, and the page is filled there
/// and gets the bytes.
fn write_new<D: Disk>(
    world: &mut World<D>,
    file: u32,
    offset: u32,
    line: &Line,
    end: u32,
) -> Result<(), Wants>
    requires line { IsInOneLine offset line.now }
    requires end { end ≡ offset + length line.now }
    requires served { room_refusal world.old.files file end ≡ None }
    requires past { pages_in (vnode_at world.old.files file).info.length ≤ page offset }
    requires last { IsLastReady (world_seen world.old) file end }
    requires home { TwoAreHome world.old.store }
    requires fits { IsFit world.old }
    requires noted { IsKnown world.old }
    ensures serves { ServesPart world.old world.new file offset line.now result }
    // What stays.
    ensures rest { world.new ≡ record world.old {
      store = world.new.store;
      hat = world.new.hat;
      files = world.new.files;
      pending = world.new.pending;
    } }
{
    if let Some(victim) = make_room_behind(world, file) {
        return Err(ask(world, Plan::Push(victim)));
    }
    free_next(world);
    make_longer(world, file, end);
    let page = offset / PAGE_SIZE;
    let name = PageName { object: file, page };
    fill_page(world, name);
    let Residence::Home(frame) = world.store.resident(name) else {
        unreachable!();
    };
    put_line(world, file, offset, frame, line);
    Ok(())
}

/// A part that ends past its file's end: the old last page is made ready first.
fn write_past<D: Disk>(
    world: &mut World<D>,
    file: u32,
    offset: u32,
    line: &Line,
    end: u32,
) -> Result<(), Wants>
    requires line { IsInOneLine offset line.now }
    requires end { end ≡ offset + length line.now }
    requires served { room_refusal world.old.files file end ≡ None }
    requires longer { (vnode_at world.old.files file).info.length < end }
    requires home { TwoAreHome world.old.store }
    requires fits { IsFit world.old }
    requires noted { IsKnown world.old }
    ensures serves { ServesPart world.old world.new file offset line.now result }
    // What stays.
    ensures rest { world.new ≡ record world.old {
      store = world.new.store;
      hat = world.new.hat;
      files = world.new.files;
      pending = world.new.pending;
    } }
{
    ready_last(world, file, end)?;
    let page = offset / PAGE_SIZE;
    let pages = pages_in(world.files.info(file).length);
    if page < pages {
        return write_last(world, file, offset, line, end);
    }
    write_new(world, file, offset, line, end)
}

/// Where a part ends that begins at an offset and has so many bytes.
fn end_of(offset: u32, count: u32) -> u32
    requires { offset + count < 2 ^ 32 }
    ensures { result ≡ offset + count }
{
    offset + count
}

/// A part of a write: its bytes are put into their page, which comes home first. Where it ends past the file's end the file gets longer
/// first, on the blocks that it needs: its old last page comes home before that, where it has a tail and may hold anything there, and
/// a frame is had for a page that is new. Time: the bytes, and one look for their page where it is home on no list and the file gets no
/// longer; else five looks at most, and the pages that the file comes to have.
pub fn write_line<D: Disk>(
    world: &mut World<D>,
    file: u32,
    offset: u32,
    line: &Line,
) -> Result<(), Wants>
    requires line { IsInOneLine offset line.now }
    requires served { room_refusal world.old.files file (offset + length line.now) ≡ None }
    requires home { TwoAreHome world.old.store }
    requires fits { IsFit world.old }
    requires noted { IsKnown world.old }
    ensures serves { ServesPart world.old world.new file offset line.now result }
    // What stays.
    ensures rest { world.new ≡ record world.old {
      store = world.new.store;
      hat = world.new.hat;
      files = world.new.files;
      pending = world.new.pending;
    } }
{
    let end = end_of(offset, line.len());
    let length = world.files.info(file).length;
    if end <= length {
        return write_within(world, file, offset, line);
    }
    write_past(world, file, offset, line, end)
}
