//! Translations that are loaded.
ghost use Rattle.std.specs.Prelude.{◌≡◌, ℕ, ◌<◌, length, option_map};
ghost use Rattle.vm_world.specs.hat_layer.Pool.{told_of, fresh_translation, dropped_by_load};
ghost use Rattle.page_store.specs.page_hash.Names.{find};
ghost use Rattle.page_store.specs.page_hash.declared.PageName.{PageName};
ghost use Rattle.page_store.specs.Laws.{SameResidence, StaysInPlace};
ghost use Rattle.page_store.specs.Moves.{is_only};
ghost use Rattle.page_store.specs.Seen.{IsListedFrame, residence};
ghost use Rattle.page_store.specs.Steps.{after_reclaim};
ghost use Rattle.vm_world.specs.Segments.{Spaces};
ghost use Rattle.vm_world.specs.Serving.{ModifiesNone};
ghost use Rattle.vm_world.specs.TranslationsFit.{TranslationFits};
ghost use Rattle.vm_world.specs.Words.{Fits, IsFit, KeepsPages, KeepsEveryPage, OnlyStore, OnlyStoreAndHat};
ghost use Rattle.vm_world.specs.World.{world_seen};
ghost use Rattle.seg_ops.specs.Steps.{IsLoaded, KeepsOtherTranslations, KeepsWhereShown, with_dropped_gathered};

use crate::tables::gather;
use page_store::{Disk, PageName, Residence, Store};
use vm_world::World;

/// Loads a translation, and gathers the bits of the one that had to give way into its page. Constant expected time.
pub fn install<D: Disk>(world: &mut World<D>, space: u32, page: u32, frame: u32, writable: bool)
    requires frame { frame < length world.old.store.frames }
    requires fits { IsFit world.old }
    // The page has its translation, and what gave way is told to its page.
    ensures loaded { IsLoaded world.new space page frame writable }
    ensures store { world.new.store ≡ with_dropped_gathered world.old.store
        (option_map told_of (dropped_by_load world.old.hat space page)) }
    // What stays: every other translation, and the rest of the world.
    ensures kept { KeepsOtherTranslations world.old.hat world.new.hat space page frame writable }
    ensures rest { OnlyStoreAndHat world.old world.new }
    ensures stay { SameResidence world.old.store world.new.store }
    ensures modified { ModifiesNone (world_seen world.old) (world_seen world.new) }
    ensures keeps { (spaces : Spaces) → Fits world.old spaces
        → TranslationFits world.old.store world.old.anon world.old.maps spaces
        (fresh_translation space page frame writable)
        → KeepsPages (world_seen world.old) (world_seen world.new) spaces }
{
    let dropped = world.hat.load(space, page, frame, writable);
    gather(&mut world.store, dropped);
}

/// Takes the frame of a page that is home off the cache list, where it is there. A frame on no list needs no look for its page.
#[inline(always)]
fn take_off<D: Disk>(store: &mut Store<D>, name: PageName, frame: u32)
    requires home { residence store.old name ≡ Residence.Home frame }
    ensures new { store.new ≡ after_reclaim store.old name }
    ensures unlisted { ¬ IsListedFrame store.new frame }
    ensures laws { StaysInPlace store.old store.new (is_only (find store.old.names name)) }
{
    store.sound();
    if !store.listed(frame) {
        return;
    }
    store.reclaim(name);
}

/// Loads the translation of a page that is home, and takes its frame off the cache list where it is there. Constant expected time.
pub fn show<D: Disk>(
    world: &mut World<D>,
    space: u32,
    page: u32,
    name: PageName,
    frame: u32,
    writable: bool,
)
    requires home { residence world.old.store name ≡ Residence.Home frame }
    requires fits { IsFit world.old }
    // The page has its translation, and what gave way is told to its page.
    ensures loaded { IsLoaded world.new space page frame writable }
    ensures store { world.new.store
        ≡ with_dropped_gathered (after_reclaim world.old.store name)
        (option_map told_of (dropped_by_load world.old.hat space page)) }
    // What stays: every other translation, and the rest of the world.
    ensures kept { KeepsOtherTranslations world.old.hat world.new.hat space page frame writable }
    ensures rest { OnlyStoreAndHat world.old world.new }
    ensures stay { SameResidence world.old.store world.new.store }
    ensures modified { ModifiesNone (world_seen world.old) (world_seen world.new) }
    ensures keeps { KeepsWhereShown world.old world.new space page name writable }
{
    take_off(&mut world.store, name, frame);
    install(world, space, page, frame, writable);
}

/// Takes the frame of a page that is home off the cache list, where it is there, so that it isn't taken for another page.
/// Constant expected time.
pub fn take_back<D: Disk>(world: &mut World<D>, page: PageName)
    requires home { (frame : ℕ) × (residence world.old.store page ≡ Residence.Home frame) }
    requires fits { IsFit world.old }
    ensures store { world.new.store ≡ after_reclaim world.old.store page }
    ensures unlisted { (frame : ℕ) → residence world.old.store page ≡ Residence.Home frame
        → ¬ IsListedFrame world.new.store frame }
    // What stays.
    ensures rest { OnlyStore world.old world.new }
    ensures stay { SameResidence world.old.store world.new.store }
    ensures frames { world.new.store.frames ≡ world.old.store.frames }
    ensures names { world.new.store.names ≡ world.old.store.names }
    ensures modified { ModifiesNone (world_seen world.old) (world_seen world.new) }
    ensures keeps { KeepsEveryPage world.old world.new }
{
    world.store.reclaim(page);
}
