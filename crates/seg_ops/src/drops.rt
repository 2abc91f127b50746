//! Translations that are dropped.
ghost use Rattle.std.specs.Prelude.{◌≡◌, ℕ, None, option_map};
ghost use Rattle.vm_world.specs.hat_layer.Pool.{translation_at, told_of, drop_page, drop_at};
ghost use Rattle.page_store.specs.Laws.{SameResidence};
ghost use Rattle.seg_ops.specs.Steps.{with_dropped_gathered};
ghost use Rattle.vm_world.specs.Serving.{ModifiesNone};
ghost use Rattle.vm_world.specs.Words.{IsFit, KeepsEveryPage, OnlyStoreAndHat};
ghost use Rattle.vm_world.specs.World.{world_seen};

use crate::tables::gather;
use page_store::Disk;
use vm_world::World;

/// Drops the translation of a page, where it has one, and gathers its bits into its page. Constant expected time.
pub fn drop_translation<D: Disk>(world: &mut World<D>, space: u32, page: u32)
    requires fits { IsFit world.old }
    // The page has no translation, and what its translation said is told to its page.
    ensures gone { translation_at world.new.hat.places space page ≡ None }
    ensures map { (s p : ℕ) → translation_at world.new.hat.places s p
        ≡ drop_page space page (translation_at world.old.hat.places s p) }
    ensures places { world.new.hat.places ≡ drop_at space page world.old.hat.places }
    ensures store { world.new.store ≡ with_dropped_gathered world.old.store
        (option_map told_of (translation_at world.old.hat.places space page)) }
    // What stays.
    ensures rest { OnlyStoreAndHat world.old world.new }
    ensures stay { SameResidence world.old.store world.new.store }
    ensures modified { ModifiesNone (world_seen world.old) (world_seen world.new) }
    ensures keeps { KeepsEveryPage world.old world.new }
{
    let dropped = world.hat.unload(space, page);
    gather(&mut world.store, dropped);
}
