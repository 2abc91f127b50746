//! A frame is freed before it is taken for an anonymous page.
ghost use Rattle.seg_ops.specs.Frames.{TakesNextFrame, KeepsButNext};
ghost use Rattle.std.specs.Prelude.{◌≡◌, None, IfSome, MatchOption};
ghost use Rattle.page_store.specs.page_hash.declared.PageName.{PageName};
ghost use Rattle.page_store.specs.Laws.{Aborts};
ghost use Rattle.page_store.specs.Steps.{next_frame, next_name, after_abort};
ghost use Rattle.vm_world.specs.Serving.{ModifiesNone};
ghost use Rattle.vm_world.specs.Words.{IsFit, IsKnown, OnlyStoreAndTails};
ghost use Rattle.vm_world.specs.World.{world_seen};
ghost use Rattle.vm_world.specs.WorldSteps.{stays};
ghost use Rattle.seg_ops.specs.Rooms.{KeepsUnlisted, KeepsAbsent, ListsNoMore};
ghost use Rattle.seg_ops.specs.Copies.{KeepsBytes};

use crate::tails::pend_tail;
use page_store::{Disk, PageName, Residence, Store};
use vm_world::World;

/// Gives up a page, where there is one to give up.
fn give_up<D: Disk>(store: &mut Store<D>, name: Option<PageName>)
    ensures new { MatchOption name (store.new ≡ store.old)
        (λ n. store.new ≡ after_abort store.old n) }
    ensures laws { IfSome name (λ n. Aborts store.old store.new n) }
{
    if let Some(given) = name {
        store.abort(given);
    }
}

/// Frees the frame that is taken next, where that still holds a page, which is cut at its valid bytes. Constant expected time.
pub fn free_next<D: Disk>(world: &mut World<D>)
    requires fits { IsFit world.old }
    // The same frame is taken next, and holds no page.
    ensures store { MatchOption (next_name world.old.store) (world.new.store ≡ world.old.store)
        (λ name. world.new.store ≡ after_abort world.old.store name) }
    ensures same { next_frame world.new.store ≡ next_frame world.old.store }
    ensures free { next_name world.new.store ≡ None }
    // The tail of the file whose last page lost the frame is pending.
    ensures taken { TakesNextFrame world.old world.new }
    // What a page has that was home is known.
    ensures bytes { IsKnown world.old → KeepsBytes world.old world.new }
    // What stays: each page that is home in a frame on no list is there, and the frame is on none; and no page comes home.
    ensures homes { KeepsUnlisted world.old.store world.new.store }
    ensures absent { KeepsAbsent world.old.store world.new.store }
    ensures lists { ListsNoMore world.old.store world.new.store }
    ensures modified { ModifiesNone (world_seen world.old) (world_seen world.new) }
    ensures rest { OnlyStoreAndTails world.old world.new }
    ensures pages { KeepsButNext world.old world.new }
{
    let lost = world.store.next_name();
    give_up(&mut world.store, lost);
    pend_tail(world, lost);
}
