//! Files that get longer.
ghost use Rattle.std.specs.Prelude.{◌≡◌, ◌<◌, ◌≤◌, List, length, Some, IsSome};
ghost use Rattle.seg_ops.specs.flat_model.Parts.{longer_file};
ghost use Rattle.seg_ops.specs.flat_model.Words.{pages_in};
ghost use Rattle.seg_ops.specs.page_store.Laws.{SameResidence};
ghost use Rattle.seg_ops.specs.vnode_files.declared.extent.Extent.{Extent};
ghost use Rattle.seg_ops.specs.vnode_files.Files.{vnode_at, growth_of};
ghost use Rattle.seg_ops.specs.vm_world.Segments.{Spaces};
ghost use Rattle.seg_ops.specs.vm_world.Serving.{ModifiesOnly};
ghost use Rattle.seg_ops.specs.vm_world.Wants.{IsGapPage};
ghost use Rattle.seg_ops.specs.vm_world.Words.{memory, Fits, IsFit, OnlyStore};
ghost use Rattle.seg_ops.specs.vm_world.World.{world_seen};
ghost use Rattle.seg_ops.specs.Rooms.{SameLists};
ghost use Rattle.seg_map.specs.Ends.{SetsEnd};
ghost use Rattle.seg_map.specs.Longer.{IsLastReady, MayLengthen, GrowsInto};

use crate::bytes::put_zeros;
use crate::records::set_end;
use seg_ops::{Disk, PAGE_SIZE, PageName, Residence, World};

/// Puts zeros behind a file's end in its last page, as far as a farther end lies there, where that page is home.
fn put_gap<D: Disk>(world: &mut World<D>, file: u32, end: u32)
    requires file { file < length world.old.files.files }
    requires longer { (vnode_at world.old.files file).info.length ≤ end }
    requires last { IsLastReady (world_seen world.old) file end }
    requires fits { IsFit world.old }
    ensures may { (spaces : Spaces) → Fits world.old spaces
        → MayLengthen (memory world.old spaces) (memory world.new spaces) file end }
    // What stays.
    ensures rest { OnlyStore world.old world.new }
    ensures stay { SameResidence world.old.store world.new.store }
    ensures names { world.new.store.names ≡ world.old.store.names }
    ensures lists { SameLists world.old.store world.new.store }
    ensures modified { ModifiesOnly (IsGapPage (world_seen world.old) file end)
        (world_seen world.old) (world_seen world.new) }
{
    let length = world.files.info(file).length;
    if end == length {
        return;
    }
    let tail = length % PAGE_SIZE;
    if tail == 0 {
        return;
    }
    let page = length / PAGE_SIZE;
    if let Residence::Home(frame) = world.store.resident(PageName { object: file, page }) {
        let to = (end - page * PAGE_SIZE).min(PAGE_SIZE);
        put_zeros(world, file, page, frame, tail, to - tail);
    }
}

/// Makes a file longer, on the blocks that it needs for it. The bytes and pages that this adds are zeros. Time: the pages that the
/// file comes to have.
pub fn make_longer<D: Disk>(world: &mut World<D>, file: u32, end: u32)
    requires file { file < length world.old.files.files }
    requires longer { (vnode_at world.old.files file).info.length ≤ end }
    requires room { IsSome (growth_of world.old.files file (pages_in end)) }
    requires last { IsLastReady (world_seen world.old) file end }
    requires fits { IsFit world.old }
    // The file is longer in flat memory, and its record has that end.
    ensures longer { (spaces : Spaces) → Fits world.old spaces
        → GrowsInto (memory world.old spaces) (memory world.new spaces) file end (longer_file end) }
    ensures sets { (extents : List Extent)
        → growth_of world.old.files file (pages_in end) ≡ Some extents
        → SetsEnd world.old.files world.new.files file end extents }
    // What stays.
    ensures rest { world.new
        ≡ record world.old { store = world.new.store; files = world.new.files } }
    ensures stay { SameResidence world.old.store world.new.store }
    ensures names { world.new.store.names ≡ world.old.store.names }
    ensures lists { SameLists world.old.store world.new.store }
    ensures modified { ModifiesOnly (IsGapPage (world_seen world.old) file end)
        (world_seen world.old) (world_seen world.new) }
{
    put_gap(world, file, end);
    set_end(&mut world.files, file, end);
}
