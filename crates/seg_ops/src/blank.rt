//! A page that was never pushed: a frame of zeros.
ghost use Rattle.seg_ops.specs.Frames.{TakesNextFrame, KeepsButNext};
ghost use Rattle.std.specs.Prelude.{◌≡◌, ◌<◌, ◌==◌, length, false, IsSome, IsTrue, IfSome};
ghost use Rattle.page_store.specs.core_arena.Bytes.{zeros};
ghost use Rattle.page_store.specs.Seen.{IsListedFrame, residence};
ghost use Rattle.page_store.specs.Steps.{next_frame, after_fill};
ghost use Rattle.vm_world.specs.Serving.{ModifiesOnly};
ghost use Rattle.vm_world.specs.Words.{IsFit, OnlyStoreAndTails};
ghost use Rattle.vm_world.specs.World.{world_seen, file_name, is_unpushed, page_exists};
ghost use Rattle.vm_world.specs.WorldSteps.{stays};

use crate::tails::pend_tail;
use page_store::{Disk, PageName, Residence};
use vm_world::World;

/// Takes a frame for a page that exists and was never pushed: zeros, modified where it is a slot's. The name that the frame held is cut at its valid bytes. Time: one page.
pub fn fill_page<D: Disk>(world: &mut World<D>, name: PageName)
    requires exists { IsTrue (page_exists world.old.files world.old.anon name) }
    requires blank { IsTrue (is_unpushed world.old.files world.old.anon name) }
    requires absent { residence world.old.store name ≡ Residence.Absent }
    requires available { IsSome (next_frame world.old.store) }
    requires fits { IsFit world.old }
    // The page is home, in the frame that was taken.
    ensures store { world.new.store ≡ after_fill world.old.store name zeros (name.object == 64) }
    ensures home { IfSome (next_frame world.old.store)
        (λ frame. residence world.new.store name ≡ Residence.Home frame) }
    ensures unlisted { IfSome (next_frame world.old.store)
        (λ frame. ¬ IsListedFrame world.new.store frame) }
    // The tail of the file whose last page lost the frame is pending.
    ensures taken { TakesNextFrame world.old world.new }
    // What stays.
    ensures rest { OnlyStoreAndTails world.old world.new }
    ensures pages { KeepsButNext world.old world.new }
    ensures modified { ModifiesOnly (λ other. (other ≡ name) × IsTrue (name.object == 64))
        (world_seen world.old) (world_seen world.new) }
{
    let lost = world.store.next_name();
    world.store.fill_zero(name);
    pend_tail(world, lost);
}

/// Takes a frame for a blank page of a file. The name that the frame held is cut at its valid bytes. Time: one page.
pub fn fill<D: Disk>(world: &mut World<D>, file: u32, page: u32)
    requires file { file < length world.old.files.files }
    requires exists { IsTrue (page_exists world.old.files world.old.anon (file_name file page)) }
    requires blank { IsTrue (is_unpushed world.old.files world.old.anon (file_name file page)) }
    requires absent { residence world.old.store (file_name file page) ≡ Residence.Absent }
    requires available { IsSome (next_frame world.old.store) }
    requires fits { IsFit world.old }
    // The page is home, in the frame that was taken.
    ensures store { world.new.store ≡ after_fill world.old.store (file_name file page) zeros false }
    ensures home { IfSome (next_frame world.old.store)
        (λ frame. residence world.new.store (file_name file page) ≡ Residence.Home frame) }
    ensures unlisted { IfSome (next_frame world.old.store)
        (λ frame. ¬ IsListedFrame world.new.store frame) }
    // The tail of the file whose last page lost the frame is pending.
    ensures taken { TakesNextFrame world.old world.new }
    // What stays.
    ensures rest { OnlyStoreAndTails world.old world.new }
    ensures pages { KeepsButNext world.old world.new }
{
    fill_page(world, PageName { object: file, page });
}
