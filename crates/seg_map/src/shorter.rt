//! Files that get shorter.
ghost use Rattle.std.specs.Prelude.{◌≡◌, ◌<◌, length};
ghost use Rattle.seg_ops.specs.flat_model.Parts.{file_of_length};
ghost use Rattle.seg_ops.specs.flat_model.Words.{pages_in};
ghost use Rattle.seg_ops.specs.vnode_files.Files.{vnode_at};
ghost use Rattle.seg_ops.specs.vm_world.Segments.{Spaces};
ghost use Rattle.seg_ops.specs.vm_world.Serving.{ModifiesNone, ModifiesOnly};
ghost use Rattle.seg_ops.specs.vm_world.Wants.{IsCutPage};
ghost use Rattle.seg_ops.specs.vm_world.Words.{memory, Fits, IsFit, OnlyStore};
ghost use Rattle.seg_ops.specs.vm_world.World.{world_seen};
ghost use Rattle.seg_map.specs.Longer.{GrowsInto};
ghost use Rattle.seg_map.specs.Shorter.{IsTailStill, MayShorten, NoneHeldPast};
ghost use Rattle.seg_map.specs.VoidedPages.{VoidsUpTo};

use crate::bytes::put_zeros;
use crate::given::void_page;
use crate::records::set_end;
use seg_ops::{Disk, PAGE_SIZE, PageName, Residence, World, pages_in, take_back};

/// Gives up each page of a file past an end. Time: a look for each of them, and their translations.
fn void_pages<D: Disk>(world: &mut World<D>, file: u32, end: u32)
    requires file { file < length world.old.files.files }
    requires fits { IsFit world.old }
    ensures voids { (spaces : Spaces) → Fits world.old spaces
        → VoidsUpTo (memory world.old spaces) (memory world.new spaces) file end
        (pages_in (vnode_at world.old.files file).info.length) }
    // What stays.
    ensures rest { world.new ≡ record world.old {
      store = world.new.store;
      hat = world.new.hat;
      files = world.new.files;
    } }
    ensures modified { ModifiesNone (world_seen world.old) (world_seen world.new) }
{
    let from = pages_in(end);
    let to = pages_in(world.files.info(file).length);
    for page in from..to {
        void_page(world, file, page);
    }
}

/// Makes the bytes of a file behind a nearer end zeros, in their page, where that is home. No frame holds a page past that end.
fn put_tail<D: Disk>(world: &mut World<D>, file: u32, end: u32)
    requires file { file < length world.old.files.files }
    requires shorter { end < (vnode_at world.old.files file).info.length }
    requires still { IsTailStill (world_seen world.old) file end }
    requires none { NoneHeldPast world.old.store file end }
    requires fits { IsFit world.old }
    ensures may { (spaces : Spaces) → Fits world.old spaces
        → MayShorten (memory world.old spaces) (memory world.new spaces) file end }
    // What stays.
    ensures rest { OnlyStore world.old world.new }
    ensures modified { ModifiesOnly (IsCutPage (world_seen world.old) file end)
        (world_seen world.old) (world_seen world.new) }
{
    let tail = end % PAGE_SIZE;
    if tail == 0 {
        return;
    }
    let name = PageName {
        object: file,
        page: end / PAGE_SIZE,
    };
    if let Residence::Home(frame) = world.store.resident(name) {
        take_back(world, name);
        put_zeros(world, file, name.page, frame, tail, PAGE_SIZE - tail);
    }
}

/// Makes a file shorter: its pages past the end are gone, and its new tail is zeros. Time: a look for each page that it loses, and
/// their translations.
pub fn make_shorter<D: Disk>(world: &mut World<D>, file: u32, end: u32)
    requires file { file < length world.old.files.files }
    requires shorter { end < (vnode_at world.old.files file).info.length }
    requires still { IsTailStill (world_seen world.old) file end }
    requires fits { IsFit world.old }
    // The file is shorter in flat memory.
    ensures shorter { (spaces : Spaces) → Fits world.old spaces
        → GrowsInto (memory world.old spaces) (memory world.new spaces) file end
        (file_of_length end) }
    // What stays.
    ensures rest { world.new ≡ record world.old {
      store = world.new.store;
      hat = world.new.hat;
      files = world.new.files;
    } }
    ensures modified { ModifiesOnly (IsCutPage (world_seen world.old) file end)
        (world_seen world.old) (world_seen world.new) }
{
    void_pages(world, file, end);
    put_tail(world, file, end);
    set_end(&mut world.files, file, end);
}
