//! Frames of files' pages that are home.
ghost use Rattle.std.specs.Prelude.{◌≡◌};
ghost use Rattle.seg_ops.specs.page_store.Laws.{SameResidence};
ghost use Rattle.seg_ops.specs.page_store.Seen.{IsListedFrame, residence};
ghost use Rattle.seg_ops.specs.vm_world.Serving.{ModifiesNone};
ghost use Rattle.seg_ops.specs.vm_world.Words.{IsFit, KeepsEveryPage, OnlyStore};
ghost use Rattle.seg_ops.specs.vm_world.World.{world_seen};

use seg_ops::{Disk, PageName, Residence, World, take_back};

/// Takes a frame back from the list that it is on, where it is on one; no value changes. Time: one look for its page there, none
/// where it is on no list.
#[inline(always)]
pub(crate) fn take_if_listed<D: Disk>(world: &mut World<D>, name: PageName, frame: u32)
    requires home { residence world.old.store name ≡ Residence.Home frame }
    requires fits { IsFit world.old }
    ensures unlisted { ¬ IsListedFrame world.new.store frame }
    // What stays.
    ensures rest { OnlyStore world.old world.new }
    ensures stay { SameResidence world.old.store world.new.store }
    ensures names { world.new.store.names ≡ world.old.store.names }
    ensures modified { ModifiesNone (world_seen world.old) (world_seen world.new) }
    ensures keeps { KeepsEveryPage world.old world.new }
{
    if world.store.listed(frame) {
        take_back(world, name);
    }
}
